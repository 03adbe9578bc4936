//! What the rule of the lock's table says.
ghost use Rattle.turn_lock.specs.Rule.{RuleSays};

use crate::grows::Grows;

/// Tickets differ and are counted. One seat at most has the turn, and the slot is out while it has. There is one past,
/// with all that anyone has seen at its front. No turn is made.
pub fn rule_says<V: Grows>()
    ensures { RuleSays V.past }
{}
