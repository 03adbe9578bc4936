// The clauses of the check on the threshold of a lottery.
ghost use Rattle.std.specs.Prelude.{◌≡◌, ◌<◌, ◌&&◌, ◌||◌, ◌==◌, not, length, slice_index};
ghost use Rattle.std.specs.List.{list_any};
ghost use Rattle.std.specs.Ordering.{int_eq};
ghost use Rattle.match_rules.specs.Answers.{CutMatches, LevelMatches};
ghost use Rattle.match_rules.specs.First.{first_below};
ghost use Rattle.publication.specs.Checks.{lets_share, may_share, below_break, is_open_at, score_break, above_break, at_break, level_break, threshold_break};

use crate::checking::unless;
use dual_check::{Excess, excess};
use match_rules::{Break, Cut, Level, RulePair, Rules, Shares, Sieve};

// Whether pairs of a score that aren't locked may have a share.
fn lets_share(level: &Level, score: i64) -> bool
    ensures { result ≡ lets_share level.now score }
{
    match level {
        Level::Unasked => true,
        Level::Free => false,
        Level::At { score: least, .. } => *least <= score,
    }
}

// Whether a pair may have a share.
fn may_share(rules: &Rules, level: &Level, pair: usize) -> bool
    requires { pair < length rules.now.pairs }
    ensures { result ≡ may_share rules.now level.now pair }
{
    let pair = &rules.pairs()[pair];
    pair.floor == rules.tickets() || lets_share(level, pair.score)
}

// Whether a pair has a share that it may not have.
fn is_below(rules: &Rules, level: &Level, shares: &[u32], pair: usize) -> bool
    requires place { pair < length rules.now.pairs }
    requires long { length shares.now ≡ length rules.now.pairs }
    ensures { result ≡ not (may_share rules.now level.now pair || (slice_index shares.now pair == 0)) }
{
    if may_share(rules, level, pair) {
        return false;
    }
    shares[pair] != 0
}

// Clause 8.
fn broken_below(rules: &Rules, level: &Level, shares: &[u32]) -> Option<Break>
    requires { length shares.now ≡ length rules.now.pairs }
    ensures { result ≡ first_below (length rules.now.pairs) (below_break rules.now level.now shares.now) }
{
    let count = rules.pairs().len();
    for e in 0..count {
        let below = is_below(rules, level, shares, e);
        if below {
            return Some(Break::Below { pair: e as u32 });
        }
    }
    None
}

// Whether a pair isn't locked and has the score.
fn is_open_at(tickets: u32, score: i64, pair: &RulePair) -> bool
    ensures { result ≡ is_open_at tickets score pair.now }
{
    pair.floor != tickets && pair.score == score
}

// Whether some pair is such.
fn has_open_at(tickets: u32, score: i64, pairs: &[RulePair]) -> bool
    ensures { result ≡ list_any (is_open_at tickets score) pairs.now }
{
    pairs.iter().any(|pair| is_open_at(tickets, score, pair))
}

// Clause 9.
fn broken_score(rules: &Rules, score: i64) -> Option<Break>
    ensures { result ≡ score_break rules.now score }
{
    let tickets = rules.tickets();
    let found = has_open_at(tickets, score, rules.pairs());
    unless(found, Break::NoSuchScore { score })
}

// Clause 10.
fn broken_above(rules: &Rules, score: i64, cut: &Cut) -> Option<Break>
    requires { CutMatches rules.now cut.now }
    ensures { result ≡ above_break rules.now score cut.now }
{
    let Excess { need, room } = excess(rules, Sieve::Above { score }, cut);
    unless(room < need, Break::Above { need, room })
}

// Clauses 9 and 10.
fn broken_at(rules: &Rules, score: i64, cut: &Cut) -> Option<Break>
    requires { CutMatches rules.now cut.now }
    ensures { result ≡ at_break rules.now score cut.now }
{
    match broken_score(rules, score) {
        Some(broken) => Some(broken),
        None => broken_above(rules, score, cut),
    }
}

// The same of any level.
fn broken_level(rules: &Rules, level: &Level) -> Option<Break>
    requires { LevelMatches rules.now level.now }
    ensures { result ≡ level_break rules.now level.now }
{
    match level {
        Level::Unasked => None,
        Level::Free => None,
        Level::At { score, cut } => broken_at(rules, *score, cut),
    }
}

/// Clauses 8 to 10.
pub(crate) fn broken_threshold(rules: &Rules, level: &Level, shares: &Shares) -> Option<Break>
    requires level { LevelMatches rules.now level.now }
    requires long { length shares.now ≡ length rules.now.pairs }
    ensures { result ≡ threshold_break rules.now level.now shares.now }
{
    match broken_below(rules, level, shares.as_slice()) {
        Some(broken) => Some(broken),
        None => broken_level(rules, level),
    }
}
