// The level of rules, by shares and cuts.

ghost use Rattle.std.specs.Prelude.{◌↔◌, ◌<ℤ◌, ℤ, IfOk};
ghost use Rattle.match_rules.specs.declared.answer.Sieve.TheVariants.{All as EveryPair, AtLeast};
ghost use Rattle.match_rules.specs.Plain.{Plain};
ghost use Rattle.match_rules.specs.Thresholds.{CanFit, CanFitLocked, IsThreshold};
ghost use Rattle.fair_threshold.specs.Levels.{IfScore, IsFreeLevel, IsLevelOf, IsNoLevel};
ghost use Rattle.fair_threshold.specs.Search.{IsCeiling, NoShares};

use crate::descent::{Ceiling, Start, start_of};
use crate::first_cut::first_cut;
use crate::found::FoundLevel;
use crate::known::bars_locked;
use crate::lowering::TOP;
use crate::narrowing::narrowed;
use crate::probing::{Probe, probed};
use match_rules::{Rules, Sieve};
use std::alloc::{AllocError, Global};

// The level of rules below a ceiling, which shows that the locked pairs alone don't suffice.
fn asked_level(alloc: Global, rules: &Rules, ceiling: Ceiling) -> Result<FoundLevel, AllocError>
    requires plain { Plain rules.now }
    requires ceiling { IsCeiling rules.now ceiling }
    ensures level { IfOk result (IsLevelOf rules.now) }
    ensures none { IfOk result (λ level. IsNoLevel level ↔ NoShares rules.now EveryPair) }
{
    // The rules keep their conditions.
    let _pairs = rules.pairs();
    match start_of(alloc, rules, ceiling)? {
        Start::Nowhere { cut } => Ok(FoundLevel::NoneFits { cut }),
        Start::Between { range: whole } => {
            let range = narrowed(alloc, rules, whole)?;
            Ok(FoundLevel::At {
                score: range.low,
                shares: range.shares,
                cut: range.cut,
            })
        }
    }
}

// The level of rules, where a flow says whether the locked pairs alone suffice.
fn probed_level(alloc: Global, rules: &Rules) -> Result<FoundLevel, AllocError>
    requires plain { Plain rules.now }
    ensures level { IfOk result (IsLevelOf rules.now) }
    ensures none { IfOk result (λ level. IsNoLevel level ↔ NoShares rules.now EveryPair) }
{
    // The rules keep their conditions.
    let _pairs = rules.pairs();
    match probed(alloc, rules, Sieve::Above { score: TOP })? {
        Probe::Fits { shares: _shares } => Ok(FoundLevel::Free),
        Probe::Barred { cut } => asked_level(alloc, rules, Ceiling { high: TOP, cut }),
    }
}

// The level of rules, with what says that it is one.
fn found_level(alloc: Global, rules: &Rules) -> Result<FoundLevel, AllocError>
    requires plain { Plain rules.now }
    ensures level { IfOk result (IsLevelOf rules.now) }
    ensures none { IfOk result (λ level. IsNoLevel level ↔ NoShares rules.now EveryPair) }
{
    let cut = first_cut(alloc, rules)?;
    let bars = bars_locked(rules, &cut);
    if bars {
        asked_level(alloc, rules, Ceiling { high: TOP, cut })
    } else {
        probed_level(alloc, rules)
    }
}

/// The level of rules in the fair mode, by shares and cuts alone: no lottery is made. With one that has the shares, as
/// `lottery_peel::peel` gives it, the score is the threshold.
///
/// Each score that is tried costs a feasible flow of the rules at no cost, in a network built anew. Where the pairs of one paper
/// decide, it is one score; else they are about the binary logarithm of the number of distinct scores, and three more at most.
pub fn level_of(alloc: Global, rules: &Rules) -> Result<FoundLevel, AllocError>
    requires plain { Plain rules.now }
    ensures level { IfOk result (IsLevelOf rules.now) }

    // It is free exactly where some lottery fits with the locked pairs alone, and there is none exactly where no shares fit.
    ensures free { IfOk result (λ level. IsFreeLevel level ↔ CanFitLocked rules.now) }
    ensures none { IfOk result (λ level. IsNoLevel level ↔ NoShares rules.now EveryPair) }

    // No lottery fits with greater scores alone, so it is the threshold if one fits with the score itself.
    ensures greatest { IfOk result (λ level. IfScore level (λ score. (other : ℤ) → score <ℤ other → ¬ (CanFit rules.now (AtLeast other)))) }
    ensures threshold { IfOk result (λ level. IfScore level (λ score. CanFit rules.now (AtLeast score) → IsThreshold rules.now score)) }
{
    // The rules keep their conditions.
    let _pairs = rules.pairs();
    let level = found_level(alloc, rules)?;
    Ok(level)
}
