// The search for the level between a score at which shares fit and one above which a cut is violated.

ghost use Rattle.std.specs.Prelude.{◌<ℤ◌, ◌≤ℤ◌, ◌-ℤ◌, IfOk};
ghost use Rattle.match_rules.specs.Plain.{Plain};
ghost use Rattle.match_rules.specs.Thresholds.{CanFitLocked};
ghost use Rattle.fair_threshold.specs.Search.{IsRange};

use crate::probing::{Probe, probed};
use crate::scores::{least_score, middle_of, open_scores};
use match_rules::{Cut, Rules, Shares, Sieve};
use std::alloc::{AllocError, Global};

/// Where the level is: from the low score to the high one.
#[derive(Drop)]
pub(crate) struct Range {
    /// The score of a pair that isn't locked.
    pub(crate) low: i64,
    /// Shares that fit with the low score and greater ones.
    pub(crate) shares: Shares,
    /// A score that may be nobody's.
    pub(crate) high: i64,
    /// A cut that is violated with scores above the high one.
    pub(crate) cut: Cut,
}

// The range after a score in it was tried.
fn tried(alloc: Global, rules: &Rules, range: Range, score: i64) -> Result<Range, AllocError>
    requires plain { Plain rules.now }
    requires asked { ¬ (CanFitLocked rules.now) }
    requires range { IsRange rules.now range }
    requires from { range.low ≤ℤ score }
    requires below { score <ℤ range.high }
    ensures range { IfOk result (IsRange rules.now) }
    ensures narrower { IfOk result (λ new. (new.high -ℤ new.low) <ℤ (range.high -ℤ range.low)) }
{
    // The rules keep their conditions.
    let _pairs = rules.pairs();
    let sieve = Sieve::Above { score };
    match probed(alloc, rules, sieve)? {
        Probe::Fits { shares } => match least_score(rules, &shares) {
            Some(low) => Ok(Range {
                low,
                shares,
                ..range
            }),
            None => unreachable!(),
        },
        Probe::Barred { cut } => Ok(Range {
            high: score,
            cut,
            ..range
        }),
    }
}

// The same for a range with scores in it.
fn halved(alloc: Global, rules: &Rules, whole: Range) -> Result<Range, AllocError>
    requires plain { Plain rules.now }
    requires asked { ¬ (CanFitLocked rules.now) }
    requires range { IsRange rules.now whole }
    ensures range { IfOk result (IsRange rules.now) }
    ensures met { IfOk result (λ range. range.high ≤ℤ range.low) }
{
    let scores = open_scores(alloc, rules)?;
    let mut range = whole;
    while range.low < range.high {
        let score = middle_of(&scores, range.low, range.high);
        range = tried(alloc, rules, range, score)?;
    }
    Ok(range)
}

/// The range of the level alone: shares fit with its low score, and the cut is violated above that.
pub(crate) fn narrowed(alloc: Global, rules: &Rules, whole: Range) -> Result<Range, AllocError>
    requires plain { Plain rules.now }
    requires asked { ¬ (CanFitLocked rules.now) }
    requires range { IsRange rules.now whole }
    ensures range { IfOk result (IsRange rules.now) }
    ensures met { IfOk result (λ range. range.high ≤ℤ range.low) }
{
    if whole.high <= whole.low {
        return Ok(whole);
    }
    halved(alloc, rules, whole)
}
