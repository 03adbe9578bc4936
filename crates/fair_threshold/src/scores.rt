// The scores of the pairs that aren't locked: all of them, those that shares use, and those between two scores.

ghost use Rattle.std.specs.Prelude.{◌≡◌, ◌+◌, ◌<◌, ◌≤◌, ◌<ℤ◌, ◌≤ℤ◌, ◌↔◌, IsTrue, length};
ghost use Rattle.match_rules.specs.Rules.{pair_at};
ghost use Rattle.fair_threshold.specs.Search.{IsLeastBelow, IsUsed, lower_of};

use match_rules::{Rules, Shares};
use std::alloc::{AllocError, Global};

/// The scores of the pairs that aren't locked, ascending, each once. They say which scores are tried, and so how many; that
/// the level is right doesn't rest on them.
pub(crate) fn open_scores(alloc: Global, rules: &Rules) -> Result<Vec<i64>, AllocError> {
    let mut scores = Vec::new(alloc);
    for pair in rules.pairs() {
        if pair.floor != rules.tickets() {
            scores.push(pair.score)?;
        }
    }
    scores.sort_unstable();
    scores.dedup();
    Ok(scores)
}

/// A score from the low one to below the high one: the middle one of those in the list, which ascends, or else the low one.
pub(crate) fn middle_of(scores: &[i64], low: i64, high: i64) -> i64
    requires { low <ℤ high }
    ensures from { low ≤ℤ result }
    ensures below { result <ℤ high }
{
    let first = scores.partition_point(|score| *score < low);
    let end = scores.partition_point(|score| *score < high);
    let middle = first / 2 + end / 2;
    if middle < scores.len() {
        let score = scores[middle];
        if low <= score && score < high {
            return score;
        }
    }
    low
}

// Whether a pair isn't locked and has a share.
fn is_used(rules: &Rules, shares: &Shares, pair: usize) -> bool
    requires place { pair < length rules.now.pairs }
    requires long { length shares.now ≡ length rules.now.pairs }
    ensures { IsTrue result ↔ IsUsed rules.now shares.now pair }
{
    let pairs = rules.pairs();
    let shares = shares.as_slice();
    if pairs[pair].floor == rules.tickets() {
        return false;
    }
    shares[pair] > 0
}

// The lower one of a pair's score and another, if there is one.
fn lower(rules: &Rules, pair: usize, least: Option<i64>) -> i64
    requires { pair < length rules.now.pairs }
    ensures { result ≡ lower_of least (pair_at rules.now pair).score }
{
    let score = rules.pairs()[pair].score;
    match least {
        Some(least) => least.min(score),
        None => score,
    }
}

// The least score up to and with a place, from that below it.
fn least_with(rules: &Rules, shares: &Shares, pair: usize, least: Option<i64>) -> Option<i64>
    requires place { pair < length rules.now.pairs }
    requires long { length shares.now ≡ length rules.now.pairs }
    requires before { IsLeastBelow rules.now shares.now pair least }
    ensures { IsLeastBelow rules.now shares.now (pair + 1) result }
{
    let used = is_used(rules, shares, pair);
    if !used {
        return least;
    }
    Some(lower(rules, pair, least))
}

/// The least score of the pairs that aren't locked and have a share.
pub(crate) fn least_score(rules: &Rules, shares: &Shares) -> Option<i64>
    requires { length shares.now ≡ length rules.now.pairs }
    ensures { IsLeastBelow rules.now shares.now (length rules.now.pairs) result }
{
    let count = rules.pairs().len();
    let mut least = None;
    for pair in 0..count {
        least = least_with(rules, shares, pair, least);
    }
    least
}
