//! The lock, and its calls.
ghost use Rattle.std.specs.Prelude.{◌≡◌, ◌≢◌, ◌+◌, ◌-◌, ◌/◌, ◌^◌, ◌⊎◌, ◌↔◌, [], ◌∷◌, ◌++◌, Option, Some, None, IfOk, IfErr, OnErr, IsErr, IfSome, IsSomeAnd, IsNone};
ghost use mathlib.Core.List.{IsPrefix};
ghost use Rattle.turn_lock.specs.Passes.{new_places, longer};

use crate::grows::Grows;
use crate::pass::{Pass, Spent};
use crate::plays::{Draw, Halve, Meet, Serve, Settle, Store};
use crate::steps::{LENGTH, SERVING, TICKET, hand_in, pick_up, wait};
use crate::view::Board;
use atomic_table::{Refused, Table};
use std::alloc::{AllocFailed, Global};
use std::marker::Model;
use std::snapshot::Snapshot;
use std::sync::Wait;

/// A lock for a value whose past grows. Passes take turns at it, in the order in which they asked.
#[derive(Drop)]
pub struct TurnLock<V: Grows> {
    table: Board<V>,
}

impl<V: Grows> Model for TurnLock<V> {
    ghost use Rattle.atomic_table.specs.Seated.{TableId, table_id_coded};

    ghost Value = { TableId };

    ghost coded = { table_id_coded };

    ghost use Rattle.std.specs.Prelude.{◌≡◌};

    ghost view = { λ l. l.table.shared.table_id };

    ghost invariant = { λ l. (l.table.shared.table_id.words ≡ 3) × (l.table.shared.table_id.slots ≡ 1) };
}

/// A lock with its first pass.
#[derive(Drop)]
pub struct Made<V: Grows> {
    pub lock: TurnLock<V>,
    pub pass: Pass<V>,
}

/// There was no memory. The value comes back.
#[derive(Drop)]
pub struct NoRoom<V> {
    pub value: V,
}

/// The turns of a lock's first pass.
const ALL_TURNS: u64 = 1 << 62;

impl<V: Grows> TurnLock<V> {
    /// Makes a lock, with the pass that has all turns. The other passes are split from it.
    pub fn new(alloc: Global, value: V) -> Result<Made<V>, NoRoom<V>>
        ensures made { IfOk result (λ m. m.pass ≡ record { lock = m.lock; seen = V.past value; turns = 2 ^ 62; taken = 0; made = []; held = None }) }
        ensures refused { IfErr result (λ e. e.value ≡ value) }
    {
        let about = Snapshot::of(&value);
        let length = value.length();
        let mut slots = Vec::new(alloc);
        if let Err(AllocFailed { value }) = slots.push(Some(value)) {
            slots.destroy_empty();
            return Err(NoRoom {
                value: value.unwrap(),
            });
        }
        match Table::new(alloc, &[length, 0, 0], slots, &about) {
            Ok((table, seat)) => Ok(Made {
                lock: TurnLock { table },
                pass: Pass {
                    turns: ALL_TURNS,
                    seat,
                },
            }),
            Err(Refused { slots }) => Err(NoRoom { value: only(slots) }),
        }
    }

    /// Waits for the pass's turn, and takes the value. Give it back: until then no other pass has a turn.
    pub fn take<R: Wait>(&self, rt: &R, pass: &mut Pass<V>) -> Result<V, Spent>
        requires lock { pass.old.lock ≡ self.now }
        requires free { pass.old.held ≡ None }
        ensures past { IfOk result (λ v. IsPrefix pass.old.seen (V.past v)) }
        ensures turn { IfOk result (λ v. pass.new ≡ record pass.old { turns = pass.old.turns - 1; taken = pass.old.taken + 1; held = Some (V.past v) }) }
        ensures spent { IsErr result ↔ (pass.old.turns ≡ 0) }
        ensures same { OnErr result (pass.new ≡ pass.old) }
    {
        if pass.turns == 0 {
            return Err(Spent);
        }
        let board = &self.table.shared;
        let ticket = board.fetch_add::<Draw>(&mut pass.seat, TICKET, 1);
        wait(rt, board, &mut pass.seat, ticket);
        pass.turns -= 1;
        Ok(pick_up(board, &mut pass.seat))
    }

    /// Gives a value back, whose past begins with the past that was taken, and lets the next pass have its turn.
    pub fn give(&self, pass: &mut Pass<V>, value: V)
        requires lock { pass.old.lock ≡ self.now }
        requires past { IsSomeAnd pass.old.held (λ past. IsPrefix past (V.past value)) }
        ensures { IfSome pass.old.held (λ past. pass.new ≡ record pass.old { seen = V.past value; made = pass.old.made ++ new_places past (V.past value); held = None }) }
    {
        let length = value.length();
        let board = &self.table.shared;
        hand_in(board, &mut pass.seat, value);
        board.store::<Store<V>>(&mut pass.seat, LENGTH, length);
        board.fetch_add::<Serve>(&mut pass.seat, SERVING, 1);
        board.wake_all(SERVING);
    }

    /// A new pass, which has seen as much, with half of the turns.
    pub fn split(&self, pass: &mut Pass<V>) -> Pass<V>
        requires lock { pass.old.lock ≡ self.now }
        requires free { pass.old.held ≡ None }
        ensures old { pass.new ≡ record pass.old { turns = pass.old.turns - pass.old.turns / 2 } }
        ensures new { result ≡ record { lock = self.now; seen = pass.old.seen; turns = pass.old.turns / 2; taken = 0; made = []; held = None } }
    {
        let half = pass.turns / 2;
        let seat = self.table.shared.split_seat::<Halve>(&mut pass.seat);
        pass.turns -= half;
        Pass { turns: half, seat }
    }

    /// Takes another pass in, with all that it has seen and its turns.
    pub fn join(&self, pass: &mut Pass<V>, other: Pass<V>)
        requires lock { (pass.old.lock ≡ self.now) × (other.lock ≡ self.now) }
        requires free { (pass.old.held ≡ None) × (other.held ≡ None) }
        ensures meet { IsPrefix pass.old.seen other.seen ⊎ IsPrefix other.seen pass.old.seen }
        ensures later { IsPrefix pass.old.seen pass.new.seen × IsPrefix other.seen pass.new.seen }
        ensures both { pass.new ≡ record pass.old { seen = longer pass.old.seen other.seen; turns = pass.old.turns + other.turns; taken = pass.old.taken + other.taken; made = pass.old.made ++ other.made } }
    {
        let Pass { turns, seat } = other;
        let board = &self.table.shared;
        board.join_seat::<Meet>(&mut pass.seat, seat);
        board.load::<Settle>(&mut pass.seat, LENGTH);
        pass.turns += turns;
    }

    /// Ends the lock, and gives the value back where no turn is out. A pass that has joined all others always gets it.
    pub fn close(self, pass: Pass<V>) -> Option<V>
    where
        V: Drop,
        requires lock { pass.lock ≡ self }
        requires free { pass.held ≡ None }
        ensures past { IfSome result (λ v. IsPrefix pass.seen (V.past v)) }
        ensures none { IsNone result → pass.turns + pass.taken ≢ 2 ^ 62 }
    {
        let TurnLock { table } = self;
        let Pass { turns: _, seat } = pass;
        let mut closed = table.close_with(seat);
        let next = closed.word(TICKET);
        let serving = closed.word(SERVING);
        let slot = closed.take(0);
        closed.free();
        if next == serving {
            return slot;
        }
        drop(slot);
        None
    }
}

// The one value of a row of slots that was refused.
fn only<V>(mut slots: Vec<Option<V>>) -> V
    requires { (value : V) × (slots.items ≡ Some value ∷ []) }
    ensures { slots.items ≡ Some result ∷ [] }
{
    let Some(Some(value)) = slots.pop() else {
        unreachable!()
    };
    slots.destroy_empty();
    value
}
