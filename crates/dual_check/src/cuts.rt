// What has to pass a cut, and what may. No sum overflows: an amount is at most 10,000, and there are at most 250,000
// pairs, 250,000 groups, 1,500 papers and 1,500 reviewers, so that each part is below 2^46.

ghost use Rattle.std.specs.Prelude.{◌≡◌, ◌↔◌, IsTrue, ◌<◌, ◌≤◌, ◌*◌, List, length};
ghost use Rattle.match_rules.specs.declared.lottery.Piece.{Piece};
ghost use Rattle.match_rules.specs.Answers.{CutMatches};
ghost use Rattle.match_rules.specs.Assignments.{Fits};
ghost use Rattle.match_rules.specs.Evidence.{marks, demand_marked, least_marked, greatest_marked, groups_where, floors_where, caps_where, need, room, Violated};
ghost use Rattle.match_rules.specs.Groups.{group_count};
ghost use Rattle.match_rules.specs.Rules.{paper_at, reviewer_at, pair_at};
ghost use Rattle.match_rules.specs.Sums.{when};
ghost use Rattle.dual_check.specs.Crossing.{crosses, crosses_group};

use crate::amounts::MOST_AMOUNT;
use crate::marks::{is_crossing, is_group_crossing, is_marked};
use crate::sums::Excess;
use match_rules::{Cut, MOST_PAIRS, MOST_PAPERS, MOST_REVIEWERS, MOST_TICKETS, Rules, Side, Sieve};

/// An amount where a test holds, and nothing elsewhere.
fn amount_where(holds: bool, amount: u32) -> u64
    requires few { amount ≤ MOST_AMOUNT }
    ensures value { result ≡ when holds amount }
    ensures few { result ≤ MOST_AMOUNT }
{
    if holds { u64::from(amount) } else { 0 }
}

/// The demand of a marked paper.
fn demand_term(rules: &Rules, cut: &Cut, paper: u32) -> u64
    requires place { paper < length rules.now.papers }
    requires fitting { CutMatches rules.now cut.now }
    ensures value { result ≡ when (marks cut.now.papers paper) (paper_at rules.now paper).demand }
    ensures few { result ≤ MOST_AMOUNT }
{
    let papers = rules.papers();
    amount_where(is_marked(&cut.papers, paper), papers[paper as usize].demand)
}

/// The least load of a marked reviewer.
fn least_term(rules: &Rules, cut: &Cut, reviewer: u32) -> u64
    requires place { reviewer < length rules.now.reviewers }
    requires fitting { CutMatches rules.now cut.now }
    ensures value { result ≡ when (marks cut.now.reviewers reviewer) (reviewer_at rules.now reviewer).least }
    ensures few { result ≤ MOST_AMOUNT }
{
    let reviewers = rules.reviewers();
    amount_where(
        is_marked(&cut.reviewers, reviewer),
        reviewers[reviewer as usize].least,
    )
}

/// The greatest load of a marked reviewer.
fn greatest_term(rules: &Rules, cut: &Cut, reviewer: u32) -> u64
    requires place { reviewer < length rules.now.reviewers }
    requires fitting { CutMatches rules.now cut.now }
    ensures value { result ≡ when (marks cut.now.reviewers reviewer) (reviewer_at rules.now reviewer).greatest }
    ensures few { result ≤ MOST_AMOUNT }
{
    let reviewers = rules.reviewers();
    amount_where(
        is_marked(&cut.reviewers, reviewer),
        reviewers[reviewer as usize].greatest,
    )
}

/// The limit of a group whose way from its paper goes into, or out of, the marked nodes.
fn group_term(rules: &Rules, cut: &Cut, way: Side, group: u32) -> u64
    requires place { group < group_count rules.now }
    requires fitting { CutMatches rules.now cut.now }
    ensures value { result ≡ when (crosses_group way rules.now cut.now group) rules.now.limit }
    ensures few { result ≤ MOST_AMOUNT }
{
    amount_where(is_group_crossing(rules, cut, way, group), rules.limit())
}

/// The floor of a kept pair that goes into, or out of, the marked nodes.
fn floor_term(rules: &Rules, sieve: Sieve, cut: &Cut, way: Side, pair: u32) -> u64
    requires place { pair < length rules.now.pairs }
    requires fitting { CutMatches rules.now cut.now }
    ensures value { result ≡ when (crosses way rules.now sieve cut.now pair) (pair_at rules.now pair).floor }
    ensures few { result ≤ MOST_AMOUNT }
{
    let pairs = rules.pairs();
    amount_where(
        is_crossing(rules, sieve, cut, way, pair),
        pairs[pair as usize].floor,
    )
}

/// The cap of a kept pair that goes into, or out of, the marked nodes.
fn cap_term(rules: &Rules, sieve: Sieve, cut: &Cut, way: Side, pair: u32) -> u64
    requires place { pair < length rules.now.pairs }
    requires fitting { CutMatches rules.now cut.now }
    ensures value { result ≡ when (crosses way rules.now sieve cut.now pair) (pair_at rules.now pair).cap }
    ensures few { result ≤ MOST_AMOUNT }
{
    let pairs = rules.pairs();
    amount_where(
        is_crossing(rules, sieve, cut, way, pair),
        pairs[pair as usize].cap,
    )
}

/// All tickets for each reviewer that the marked papers demand.
fn demands(rules: &Rules, cut: &Cut) -> u64
    requires fitting { CutMatches rules.now cut.now }
    ensures value { result ≡ demand_marked rules.now cut.now }
    ensures few { result ≤ MOST_PAPERS * (MOST_TICKETS * MOST_AMOUNT) }
{
    let count = rules.papers().len() as u32;
    let mut sum = 0;
    for paper in 0..count {
        sum += demand_term(rules, cut, paper);
    }
    u64::from(rules.tickets()) * sum
}

/// All tickets for the least loads of the marked reviewers.
fn least_loads(rules: &Rules, cut: &Cut) -> u64
    requires fitting { CutMatches rules.now cut.now }
    ensures value { result ≡ least_marked rules.now cut.now }
    ensures few { result ≤ MOST_REVIEWERS * (MOST_TICKETS * MOST_AMOUNT) }
{
    let count = rules.reviewers().len() as u32;
    let mut sum = 0;
    for reviewer in 0..count {
        sum += least_term(rules, cut, reviewer);
    }
    u64::from(rules.tickets()) * sum
}

/// All tickets for the greatest loads of the marked reviewers.
fn greatest_loads(rules: &Rules, cut: &Cut) -> u64
    requires fitting { CutMatches rules.now cut.now }
    ensures value { result ≡ greatest_marked rules.now cut.now }
    ensures few { result ≤ MOST_REVIEWERS * (MOST_TICKETS * MOST_AMOUNT) }
{
    let count = rules.reviewers().len() as u32;
    let mut sum = 0;
    for reviewer in 0..count {
        sum += greatest_term(rules, cut, reviewer);
    }
    u64::from(rules.tickets()) * sum
}

/// All tickets for the limits of the groups on a way over the edge of the marked nodes.
fn limits(rules: &Rules, cut: &Cut, way: Side) -> u64
    requires fitting { CutMatches rules.now cut.now }
    ensures value { result ≡ groups_where rules.now (crosses_group way rules.now cut.now) }
    ensures few { result ≤ MOST_PAIRS * (MOST_TICKETS * MOST_AMOUNT) }
{
    let count = rules.group_count();
    let mut sum = 0;
    for group in 0..count {
        sum += group_term(rules, cut, way, group);
    }
    u64::from(rules.tickets()) * sum
}

/// The floors of the kept pairs on a way over the edge of the marked nodes.
fn floors(rules: &Rules, sieve: Sieve, cut: &Cut, way: Side) -> u64
    requires fitting { CutMatches rules.now cut.now }
    ensures value { result ≡ floors_where rules.now (crosses way rules.now sieve cut.now) }
    ensures few { result ≤ MOST_PAIRS * MOST_AMOUNT }
{
    let count = rules.pairs().len() as u32;
    let mut sum = 0;
    for pair in 0..count {
        sum += floor_term(rules, sieve, cut, way, pair);
    }
    sum
}

/// The caps of the kept pairs on a way over the edge of the marked nodes.
fn caps(rules: &Rules, sieve: Sieve, cut: &Cut, way: Side) -> u64
    requires fitting { CutMatches rules.now cut.now }
    ensures value { result ≡ caps_where rules.now (crosses way rules.now sieve cut.now) }
    ensures few { result ≤ MOST_PAIRS * MOST_AMOUNT }
{
    let count = rules.pairs().len() as u32;
    let mut sum = 0;
    for pair in 0..count {
        sum += cap_term(rules, sieve, cut, way, pair);
    }
    sum
}

/// What has to pass a cut, in tickets.
fn needed(rules: &Rules, sieve: Sieve, cut: &Cut) -> u64
    requires fitting { CutMatches rules.now cut.now }
    ensures value { result ≡ need rules.now sieve cut.now }
{
    match cut.side {
        Side::Into => demands(rules, cut) + floors(rules, sieve, cut, Side::Into),
        Side::OutOf => least_loads(rules, cut) + floors(rules, sieve, cut, Side::OutOf),
    }
}

/// What may pass a cut, in tickets.
fn allowed(rules: &Rules, sieve: Sieve, cut: &Cut) -> u64
    requires fitting { CutMatches rules.now cut.now }
    ensures value { result ≡ room rules.now sieve cut.now }
{
    match cut.side {
        Side::Into => greatest_loads(rules, cut)
            + caps(rules, sieve, cut, Side::OutOf)
            + limits(rules, cut, Side::OutOf),
        Side::OutOf => demands(rules, cut)
            + caps(rules, sieve, cut, Side::Into)
            + limits(rules, cut, Side::Into),
    }
}

/// What has to pass a cut and what may, in tickets, over the pairs that a sieve keeps. The tail of a pair is its group
/// where it has one, and else its paper.
pub fn excess(rules: &Rules, sieve: Sieve, cut: &Cut) -> Excess
    requires fitting { CutMatches rules.now cut.now }
    ensures need { result.need ≡ need rules.now sieve cut.now }
    ensures room { result.room ≡ room rules.now sieve cut.now }
{
    let need = needed(rules, sieve, cut);
    let room = allowed(rules, sieve, cut);
    Excess { need, room }
}

/// Whether more has to pass a cut than may: no lottery of the pairs that a sieve keeps fits.
pub fn is_violated(rules: &Rules, sieve: Sieve, cut: &Cut) -> bool
    requires fitting { CutMatches rules.now cut.now }
    ensures exact { IsTrue result ↔ Violated rules.now sieve cut.now }
    ensures none { IsTrue result → (lottery : List Piece) → ¬ (Fits rules.now sieve lottery) }
{
    // The rules keep their conditions.
    let _pairs = rules.pairs();
    let Excess { need, room } = excess(rules, sieve, cut);
    room < need
}
