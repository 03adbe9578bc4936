//! What each step tells. These types are for the proofs alone.
ghost use Rattle.turn_lock.specs.Steps.{draws, looks, stores, passes, settles, left_half, right_half, met, spent_view};

use crate::grows::Grows;
use crate::view::View;
use atomic_table::{Join, Play, Split};
use std::marker::PhantomData;

/// Draws a ticket.
pub struct Draw;

impl<S, E> Play<Option<S>, View<E>> for Draw {
    ghost then = { draws };
}

/// Looks at the ticket that is served.
pub struct Look<V> {
    value: PhantomData<V>,
}

impl<V: Grows> Play<Option<V>, View<V::Entry>> for Look<V> {
    ghost then = { looks V.past };
}

/// Stores the length of the past that is given.
pub struct Store<V> {
    value: PhantomData<V>,
}

impl<V: Grows> Play<Option<V>, View<V::Entry>> for Store<V> {
    ghost then = { stores V.past };
}

/// Serves the next ticket.
pub struct Serve;

impl<S, E> Play<Option<S>, View<E>> for Serve {
    ghost then = { passes };
}

/// Looks at the length of the past after a join.
pub struct Settle;

impl<S, E> Play<Option<S>, View<E>> for Settle {
    ghost then = { settles };
}

/// Cuts the turns in two.
pub struct Halve;

impl<E> Split<View<E>> for Halve {
    ghost left = { left_half };

    ghost right = { right_half };
}

/// Adds what another seat has.
pub struct Meet;

impl<E> Join<View<E>> for Meet {
    ghost both = { met };

    ghost spent = { spent_view };
}
