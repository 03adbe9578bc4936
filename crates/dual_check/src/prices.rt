// The bound that prices give, and whether a total meets it.

ghost use Rattle.std.specs.Prelude.{◌≡◌, ◌↔◌, IsTrue, ◌<◌, ◌≤◌, ◌^◌, ◌*◌, List, length, pos, ◌*ℤ◌, ◌≤ℤ◌, neg_ℤ};
ghost use Rattle.std.specs.Int.{int_max};
ghost use Rattle.match_rules.specs.declared.lottery.Piece.{Piece};
ghost use Rattle.match_rules.specs.Assignments.{keeps, Fits, Best, tickets, total as total_of};
ghost use Rattle.match_rules.specs.Evidence.{most_at, price_at, group_price, rest, paper_part, group_part, reviewer_part, pair_part, bound};
ghost use Rattle.match_rules.specs.Groups.{group_count};
ghost use Rattle.match_rules.specs.Rules.{paper_at, reviewer_at, pair_at};
ghost use Rattle.match_rules.specs.Sums.{int_when};
ghost use Rattle.dual_check.specs.Priced.{ArePriced};

use crate::amounts::{charged, for_all, less, most_of, plus, priced};
use match_rules::{MOST_PAIRS, MOST_PAPERS, MOST_REVIEWERS, Prices, Rules, Sieve};

/// The price of what a paper demands.
fn paper_term(rules: &Rules, prices: &Prices, paper: usize) -> i128
    requires place { paper < length rules.now.papers }
    requires fitting { ArePriced rules.now prices.now }
    ensures value { result ≡ pos (paper_at rules.now paper).demand *ℤ price_at prices.now.papers paper }
    ensures low { neg_ℤ (pos (2 ^ 80)) ≤ℤ result }
    ensures high { result ≤ℤ pos (2 ^ 80) }
{
    let papers = rules.papers();
    let prices = prices.papers.as_slice();
    priced(papers[paper].demand, prices[paper] as i128)
}

/// The price of the most that a group may have.
fn group_term(rules: &Rules, prices: &Prices, group: usize) -> i128
    requires place { group < group_count rules.now }
    requires fitting { ArePriced rules.now prices.now }
    ensures value { result ≡ pos rules.now.limit *ℤ int_max (pos 0) (price_at prices.now.groups group) }
    ensures low { neg_ℤ (pos (2 ^ 80)) ≤ℤ result }
    ensures high { result ≤ℤ pos (2 ^ 80) }
{
    let prices = prices.groups.as_slice();
    priced(rules.limit(), charged(prices[group]))
}

/// The price of a reviewer's load, at most.
fn reviewer_term(rules: &Rules, prices: &Prices, reviewer: usize) -> i128
    requires place { reviewer < length rules.now.reviewers }
    requires fitting { ArePriced rules.now prices.now }
    ensures value { result ≡ most_at (reviewer_at rules.now reviewer).least (reviewer_at rules.now reviewer).greatest (price_at prices.now.reviewers reviewer) }
    ensures low { neg_ℤ (pos (2 ^ 80)) ≤ℤ result }
    ensures high { result ≤ℤ pos (2 ^ 80) }
{
    let reviewers = rules.reviewers();
    let prices = prices.reviewers.as_slice();
    most_of(
        reviewers[reviewer].least,
        reviewers[reviewer].greatest,
        prices[reviewer] as i128,
    )
}

/// The price of a pair's group, or 0 where it has none.
fn price_of_group(rules: &Rules, prices: &Prices, pair: u32) -> i64
    requires place { pair < length rules.now.pairs }
    requires fitting { ArePriced rules.now prices.now }
    ensures value { result ≡ group_price rules.now prices.now.groups pair }
{
    let prices = prices.groups.as_slice();
    match rules.group_of(pair) {
        Some(group) => prices[group as usize],
        None => 0,
    }
}

/// The score of a pair, less the prices of its paper, group and reviewer.
fn rest_of(rules: &Rules, prices: &Prices, pair: u32) -> i128
    requires place { pair < length rules.now.pairs }
    requires fitting { ArePriced rules.now prices.now }
    ensures value { result ≡ rest rules.now prices.now pair }
    ensures low { neg_ℤ (pos (2 ^ 66)) ≤ℤ result }
    ensures high { result ≤ℤ pos (2 ^ 66) }
{
    let papers = prices.papers.as_slice();
    let reviewers = prices.reviewers.as_slice();
    let group = price_of_group(rules, prices, pair);
    let pairs = rules.pairs();
    let pair = &pairs[pair as usize];
    less(
        pair.score,
        papers[pair.paper as usize],
        group,
        reviewers[pair.reviewer as usize],
    )
}

/// What a kept pair adds to the bound, and 0 for another.
fn pair_term(rules: &Rules, sieve: Sieve, prices: &Prices, pair: u32) -> i128
    requires place { pair < length rules.now.pairs }
    requires fitting { ArePriced rules.now prices.now }
    ensures value { result ≡ int_when (keeps rules.now sieve pair) (most_at (pair_at rules.now pair).floor (pair_at rules.now pair).cap (rest rules.now prices.now pair)) }
    ensures low { neg_ℤ (pos (2 ^ 80)) ≤ℤ result }
    ensures high { result ≤ℤ pos (2 ^ 80) }
{
    if !rules.keeps(sieve, pair) {
        return 0;
    }
    let rest = rest_of(rules, prices, pair);
    let pairs = rules.pairs();
    let pair = &pairs[pair as usize];
    most_of(pair.floor, pair.cap, rest)
}

/// The prices of all demands.
fn of_papers(rules: &Rules, prices: &Prices) -> i128
    requires fitting { ArePriced rules.now prices.now }
    ensures value { result ≡ paper_part rules.now prices.now }
    ensures low { neg_ℤ (pos (2 ^ 80 * MOST_PAPERS)) ≤ℤ result }
    ensures high { result ≤ℤ pos (2 ^ 80 * MOST_PAPERS) }
{
    let papers = rules.papers();
    let mut sum = 0;
    for paper in 0..papers.len() {
        sum = plus(sum, paper_term(rules, prices, paper));
    }
    sum
}

/// The prices of the most that all groups may have.
fn of_groups(rules: &Rules, prices: &Prices) -> i128
    requires fitting { ArePriced rules.now prices.now }
    ensures value { result ≡ group_part rules.now prices.now }
    ensures low { neg_ℤ (pos (2 ^ 80 * MOST_PAIRS)) ≤ℤ result }
    ensures high { result ≤ℤ pos (2 ^ 80 * MOST_PAIRS) }
{
    let count = rules.group_count() as usize;
    let mut sum = 0;
    for group in 0..count {
        sum = plus(sum, group_term(rules, prices, group));
    }
    sum
}

/// The prices of all loads, at most.
fn of_reviewers(rules: &Rules, prices: &Prices) -> i128
    requires fitting { ArePriced rules.now prices.now }
    ensures value { result ≡ reviewer_part rules.now prices.now }
    ensures low { neg_ℤ (pos (2 ^ 80 * MOST_REVIEWERS)) ≤ℤ result }
    ensures high { result ≤ℤ pos (2 ^ 80 * MOST_REVIEWERS) }
{
    let reviewers = rules.reviewers();
    let mut sum = 0;
    for reviewer in 0..reviewers.len() {
        sum = plus(sum, reviewer_term(rules, prices, reviewer));
    }
    sum
}

/// What all kept pairs add to the bound.
fn of_pairs(rules: &Rules, sieve: Sieve, prices: &Prices) -> i128
    requires fitting { ArePriced rules.now prices.now }
    ensures value { result ≡ pair_part rules.now sieve prices.now }
    ensures low { neg_ℤ (pos (2 ^ 80 * MOST_PAIRS)) ≤ℤ result }
    ensures high { result ≤ℤ pos (2 ^ 80 * MOST_PAIRS) }
{
    let count = rules.pairs().len() as u32;
    let mut sum = 0;
    for pair in 0..count {
        sum = plus(sum, pair_term(rules, sieve, prices, pair));
    }
    sum
}

/// The greatest total, in 10^-6 of a score over all tickets, that the prices allow a lottery of the pairs that a sieve
/// keeps: the value of the dual linear program.
pub fn bound(rules: &Rules, sieve: Sieve, prices: &Prices) -> i128
    requires fitting { ArePriced rules.now prices.now }
    ensures value { result ≡ bound rules.now sieve prices.now }
    ensures unbeaten { (lottery : List Piece) → Fits rules.now sieve lottery → (total_of rules.now lottery *ℤ pos rules.now.tickets) ≤ℤ (result *ℤ pos (tickets lottery)) }
{
    let papers_and_groups = plus(of_papers(rules, prices), of_groups(rules, prices));
    let nodes = plus(papers_and_groups, of_reviewers(rules, prices));
    plus(
        for_all(rules.tickets(), nodes),
        of_pairs(rules, sieve, prices),
    )
}

/// Whether a total, in 10^-6 of a score over all tickets, is the bound of the prices: no lottery has a greater one.
pub fn is_best(rules: &Rules, sieve: Sieve, total: i128, prices: &Prices) -> bool
    requires fitting { ArePriced rules.now prices.now }
    ensures exact { IsTrue result ↔ (total ≡ bound rules.now sieve prices.now) }
    ensures best { IsTrue result → (lottery : List Piece) → Fits rules.now sieve lottery → tickets lottery ≡ rules.now.tickets → total_of rules.now lottery ≡ total → Best rules.now sieve lottery }
{
    total == bound(rules, sieve, prices)
}
