// From a cut down to a score with which shares fit.

ghost use Rattle.std.specs.Prelude.{IfOk};
ghost use Rattle.match_rules.specs.declared.answer.Sieve.TheVariants.{All as EveryPair};
ghost use Rattle.match_rules.specs.Plain.{Plain};
ghost use Rattle.match_rules.specs.SharesFit.{SharesFit};
ghost use Rattle.fair_threshold.specs.Search.{IsCeiling, IsRange, IsStart, IsStep};

use crate::lowering::lowest;
use crate::narrowing::Range;
use crate::probing::{Probe, probed};
use crate::scores::least_score;
use match_rules::{Cut, Rules, Shares, Sieve};
use std::alloc::{AllocError, Global};

// How many cuts are followed down before all pairs are asked. Where pairs of one paper alone decide, the first cut is enough;
// where reviewers are contended, cuts lead down slowly.
const STEPS: u32 = 1;

/// A score, and a cut that is violated with greater ones alone.
#[derive(Drop)]
pub(crate) struct Ceiling {
    /// A score that may be nobody's.
    pub(crate) high: i64,
    /// A cut that is violated with scores above it.
    pub(crate) cut: Cut,
}

/// Where the search for the level starts.
#[derive(Drop)]
pub(crate) enum Start {
    /// The level is in a range.
    Between { range: Range },
    /// Nothing fits: a cut is violated with all pairs.
    Nowhere { cut: Cut },
}

/// What comes of one cut.
#[derive(Drop)]
pub(crate) enum Step {
    /// Shares fit with the least score above which the cut is violated.
    Met { range: Range },
    /// They don't, as a further cut shows.
    Lower { ceiling: Ceiling },
    /// The cut says of no score that it is violated above that.
    Stuck { ceiling: Ceiling },
}

// The range from the least score that shares use up to a ceiling.
fn range_of(rules: &Rules, shares: Shares, ceiling: Ceiling) -> Range
    requires ceiling { IsCeiling rules.now ceiling }
    requires fit { SharesFit rules.now EveryPair shares }
    ensures { IsRange rules.now result }
{
    // The rules keep their conditions.
    let _pairs = rules.pairs();
    match least_score(rules, &shares) {
        Some(low) => Range {
            low,
            shares,
            high: ceiling.high,
            cut: ceiling.cut,
        },
        None => unreachable!(),
    }
}

// Follows the cut of a ceiling down, and tries the score to which it leads.
fn follow(alloc: Global, rules: &Rules, ceiling: Ceiling) -> Result<Step, AllocError>
    requires plain { Plain rules.now }
    requires ceiling { IsCeiling rules.now ceiling }
    ensures { IfOk result (IsStep rules.now) }
{
    // The rules keep their conditions.
    let _pairs = rules.pairs();
    let Some(high) = lowest(alloc, rules, &ceiling.cut)? else {
        return Ok(Step::Stuck { ceiling });
    };
    match probed(alloc, rules, Sieve::AtLeast { score: high })? {
        Probe::Fits { shares } => {
            let lower = Ceiling { high, ..ceiling };
            let range = range_of(rules, shares, lower);
            Ok(Step::Met { range })
        }
        Probe::Barred { cut } => {
            let lower = Ceiling { high, cut };
            Ok(Step::Lower { ceiling: lower })
        }
    }
}

// The range below a ceiling, by all pairs.
fn start_below(alloc: Global, rules: &Rules, ceiling: Ceiling) -> Result<Start, AllocError>
    requires plain { Plain rules.now }
    requires ceiling { IsCeiling rules.now ceiling }
    ensures { IfOk result (IsStart rules.now) }
{
    match probed(alloc, rules, Sieve::All)? {
        Probe::Fits { shares } => {
            let range = range_of(rules, shares, ceiling);
            Ok(Start::Between { range })
        }
        Probe::Barred { cut } => Ok(Start::Nowhere { cut }),
    }
}

/// Where the search starts below a ceiling: often its end, since the scores to which cuts lead are tried first.
pub(crate) fn start_of(alloc: Global, rules: &Rules, first: Ceiling) -> Result<Start, AllocError>
    requires plain { Plain rules.now }
    requires ceiling { IsCeiling rules.now first }
    ensures { IfOk result (IsStart rules.now) }
{
    let mut ceiling = first;
    for _step in 0..STEPS {
        match follow(alloc, rules, ceiling)? {
            Step::Met { range } => return Ok(Start::Between { range }),
            Step::Lower { ceiling: lower } => ceiling = lower,
            Step::Stuck { ceiling: same } => return start_below(alloc, rules, same),
        }
    }
    start_below(alloc, rules, ceiling)
}
