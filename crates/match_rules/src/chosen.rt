// The assignment of counts.

ghost use Rattle.std.specs.Prelude.{◌≡◌, ◌≤◌, List, ℕ, length, IfOk};
ghost use Rattle.match_rules.specs.Answers.{Rounded};
ghost use Rattle.match_rules.specs.Assignments.{Meets};
ghost use Rattle.match_rules.specs.Chosen.{chosen_places, CountsMeet, CountsRound};
ghost use Rattle.match_rules.specs.Pieces.{DoAscend};
ghost use Rattle.match_rules.specs.Rules.{RulesValue};

use crate::lists::Places;
use crate::rules::MOST_PAIRS;
use std::alloc::{AllocError, Global};

// The places at which a count isn't 0.
fn places_of(alloc: Global, counts: &[u64]) -> Result<Vec<u32>, AllocError>
    requires { length counts.now ≤ MOST_PAIRS }
    ensures { IfOk result (λ places. places.items ≡ chosen_places counts.now) }
{
    let mut places = Vec::new(alloc);
    for (e, count) in counts.iter().enumerate() {
        if *count != 0 {
            places.push(e as u32)?;
        }
    }
    Ok(places)
}

/// The places of the pairs whose count isn't 0, ascending. Where the counts are 0 or 1 and their sums keep the rules of an
/// assignment, or are those of shares rounded down or up, the assignment of these pairs does and is.
pub fn chosen_places(alloc: Global, counts: &[u64]) -> Result<Places, AllocError>
    requires { length counts.now ≤ MOST_PAIRS }
    ensures value { IfOk result (λ places. places ≡ chosen_places counts.now) }
    ensures ascending { IfOk result DoAscend }
    ensures meets { IfOk result (λ places. (rules : RulesValue) → CountsMeet rules counts.now → Meets rules places) }
    ensures rounded { IfOk result (λ places. (rules : RulesValue) (shares : List ℕ) → CountsRound rules shares counts.now → Rounded rules shares places) }
{
    let places = places_of(alloc, counts)?;
    Ok(Places::from_vec(places))
}
