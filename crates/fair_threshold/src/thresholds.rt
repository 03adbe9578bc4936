// The threshold of rules.

ghost use Rattle.std.specs.Prelude.{◌↔◌, ℤ, IfOk};
ghost use Rattle.match_rules.specs.declared.answer.Sieve.TheVariants.{All as EveryPair};
ghost use Rattle.match_rules.specs.Plain.{Plain};
ghost use Rattle.match_rules.specs.Thresholds.{CanFit, CanFitLocked, IsThreshold};
ghost use Rattle.fair_threshold.specs.Levels.{IsAt, IsAtScore, IsFree, IsNoneFits, IsThresholdOf};

use crate::found::{FoundLevel, Threshold};
use crate::levels::level_of;
use lottery_peel::peel;
use match_rules::Rules;
use std::alloc::{AllocError, Global};

// The threshold, by a level and a lottery at its score.
fn found_threshold(alloc: Global, rules: &Rules) -> Result<Threshold, AllocError>
    requires plain { Plain rules.now }
    ensures { IfOk result (IsThresholdOf rules.now) }
{
    // The rules keep their conditions.
    let _pairs = rules.pairs();
    match level_of(alloc, rules)? {
        FoundLevel::Free => Ok(Threshold::Free),
        FoundLevel::At { score, shares, cut } => {
            let _lottery = peel(alloc, rules, &shares)?;
            Ok(Threshold::At { score, cut })
        }
        FoundLevel::NoneFits { cut } => Ok(Threshold::NoneFits { cut }),
    }
}

/// The greatest feasible threshold of rules, with a cut that shows that no greater one is, or that nothing fits.
///
/// It costs what `level_of` costs and, where there is a score, one lottery, which shows that the score is feasible. Who makes
/// a lottery anyway takes `level_of`.
pub fn threshold(alloc: Global, rules: &Rules) -> Result<Threshold, AllocError>
    requires plain { Plain rules.now }
    ensures value { IfOk result (IsThresholdOf rules.now) }

    // Which kind it is, and at which score, follows from the rules alone.
    ensures free { IfOk result (λ threshold. IsFree threshold ↔ CanFitLocked rules.now) }
    ensures at { IfOk result (λ threshold. IsAt threshold ↔ ((¬ (CanFitLocked rules.now)) × CanFit rules.now EveryPair)) }
    ensures none { IfOk result (λ threshold. IsNoneFits threshold ↔ (¬ (CanFit rules.now EveryPair))) }
    ensures score { IfOk result (λ threshold. (score : ℤ) → IsAtScore threshold score ↔ IsThreshold rules.now score) }
{
    // The rules keep their conditions.
    let _pairs = rules.pairs();
    let threshold = found_threshold(alloc, rules)?;
    Ok(threshold)
}
