//! The right to take turns at a lock.
ghost use Rattle.std.specs.Prelude.{◌≡◌};

use crate::grows::Grows;
use crate::view::Place;
use std::marker::Model;

/// A pass of a lock: what it has seen of the past, and how many turns it has left.
/// One that is dropped while it holds the turn leaves every other pass waiting.
#[derive(Drop)]
pub struct Pass<V: Grows> {
    pub(crate) turns: u64,
    pub(crate) seat: Place<V>,
}

impl<V: Grows> Model for Pass<V> {
    ghost use Rattle.turn_lock.specs.Passes.{PassValue};

    ghost Value = { PassValue V.Entry };

    ghost use Rattle.std.specs.Prelude.{◌≡◌};
    ghost use Rattle.turn_lock.specs.Steps.{pass_value};
    ghost use Rattle.turn_lock.specs.Hands.{Rests};

    ghost view = { λ p. pass_value p.seat.table_id p.seat.me.0 };

    ghost invariant = { λ p. (p.turns ≡ p.seat.me.0.turns) × V.lawful p.seat.me.0.seen × Rests p.seat.me.0.stage p.seat.me.1 };
}

/// The pass has no turn left.
#[derive(Debug, Clone, Copy, PartialEq, Eq, Drop)]
pub struct Spent;

impl<V: Grows> Pass<V> {
    /// The number of turns that are left.
    pub fn turns(&self) -> u64
        ensures turns { result ≡ self.now.turns }
        ensures lawful { V.lawful self.now.seen }
    {
        self.turns
    }
}
