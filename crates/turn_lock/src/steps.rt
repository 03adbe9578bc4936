//! The parts of a turn.
ghost use Rattle.std.specs.Prelude.{◌≡◌, [], ◌∷◌};
ghost use mathlib.Core.List.{IsPrefix};
ghost use Rattle.turn_lock.specs.Steps.{at_stage, Finds};
ghost use Rattle.turn_lock.specs.declared.view.Stage.TheVariants.{Waits, Holds};

use crate::grows::Grows;
use crate::plays::Look;
use crate::view::{Place, Steps};
use std::sync::Wait;

// The words of the table.
pub(crate) const LENGTH: usize = 0;

pub(crate) const TICKET: usize = 1;

pub(crate) const SERVING: usize = 2;

// Waits until the ticket is served, and takes the slot into the seat's hand.
pub(crate) fn wait<V: Grows, R: Wait>(rt: &R, board: &Steps<V>, seat: &mut Place<V>, ticket: u64)
    requires table { seat.old.table_id ≡ board.now.table_id }
    requires sized { (board.now.table_id.words ≡ 3) × (board.now.table_id.slots ≡ 1) }
    requires waits { seat.old.me.0.stage ≡ Waits ticket }
    ensures table { seat.new.table_id ≡ seat.old.table_id }
    ensures found { Finds V.past seat.old.me ticket seat.new.me }
{
    for _ in rt.forever() {
        let served = board.load::<Look<V>>(seat, SERVING);
        if served == ticket {
            break;
        }
        board.park(rt, SERVING, (served % (1 << 32)) as u32);
    }
}

// Takes the value out of the slot in the seat's hand.
pub(crate) fn pick_up<V: Grows>(board: &Steps<V>, seat: &mut Place<V>) -> V
    requires table { seat.old.table_id ≡ board.now.table_id }
    requires hand { (value : V) × (seat.old.me.1 ≡ (0, Some value) ∷ []) }
    ensures table { seat.new.table_id ≡ seat.old.table_id }
    ensures value { seat.old.me.1 ≡ (0, Some result) ∷ [] }
    ensures view { seat.new.me ≡ (seat.old.me.0, (0, None) ∷ []) }
{
    match board.exchange(seat, 0, None) {
        Some(value) => value,
        None => unreachable!(),
    }
}

// Puts the value into the empty slot in the seat's hand.
pub(crate) fn hand_in<V: Grows>(board: &Steps<V>, seat: &mut Place<V>, value: V)
    requires table { seat.old.table_id ≡ board.now.table_id }
    requires hand { seat.old.me.1 ≡ (0, None) ∷ [] }
    ensures table { seat.new.table_id ≡ seat.old.table_id }
    ensures view { seat.new.me ≡ (seat.old.me.0, (0, Some value) ∷ []) }
{
    match board.exchange(seat, 0, Some(value)) {
        None => {}
        Some(_) => unreachable!(),
    }
}
