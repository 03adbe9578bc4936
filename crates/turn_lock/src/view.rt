//! What a seat at the lock's table knows. No value of these types is made: they exist in proofs alone.
use crate::grows::Grows;
use atomic_table::{Seat, Shared, Table, TableRule};
use std::alloc::Global;
use std::collections::LinkedList;
use std::marker::PhantomData;
use std::snapshot::Snapshot;

/// Where a seat is in its turn.
pub enum Stage<E> {
    Idle,
    /// It was told a past by a seat that it took in.
    Joined(LinkedList<E>),
    /// It has a ticket.
    Waits(u64),
    /// Its ticket is served, and it took a value of this past.
    Holds(u64, LinkedList<E>),
    /// It has stored the length of the past that it gives.
    Stored(u64),
}

pub struct View<E> {
    pub seen: LinkedList<E>,
    pub turns: u64,
    pub taken: u64,
    pub made: LinkedList<u64>,
    pub stage: Stage<E>,
}

/// The rule of the lock's table.
pub struct InTurns<V> {
    value: PhantomData<V>,
}

impl<V: Grows> TableRule<Option<V>, View<V::Entry>, Snapshot<V>> for InTurns<V> {
    ghost use Rattle.turn_lock.specs.Rule.{Kept, first_view};

    ghost holds = { λ _. Kept V.past };

    ghost first = { λ key. first_view (V.past key.value) };
}

pub type Board<V: Grows> = Table<Option<V>, View<V::Entry>, Snapshot<V>, InTurns<V>, Global>;

pub type Steps<V: Grows> = Shared<Option<V>, View<V::Entry>, Snapshot<V>, InTurns<V>>;

pub type Place<V: Grows> = Seat<Option<V>, View<V::Entry>>;
