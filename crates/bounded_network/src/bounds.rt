// The bounds of pairs, papers, groups and reviewers.

ghost use Rattle.std.specs.Prelude.{◌≡◌, ◌*◌, ◌==◌, ◌||◌, ◌<◌, ◌≤◌, length};
ghost use Rattle.match_rules.specs.Assignments.{cap_under, lets_pass};
ghost use Rattle.match_rules.specs.declared.rules.TheConstants.{MOST_LOAD};
ghost use Rattle.match_rules.specs.Groups.{group_count};
ghost use Rattle.bounded_network.specs.Spans.{rounded, spans_of, CanDivide};
ghost use Rattle.bounded_network.specs.Totals.{AreTotals};

use crate::spans::{Amounts, Span};
use crate::totals::Totals;
use match_rules::{RulePair, Rules, Sieve};

// Whether the sieve keeps the pair.
fn is_kept(rules: &Rules, sieve: Sieve, pair: RulePair) -> bool
    ensures { result ≡ (pair.floor == rules.now.tickets || lets_pass sieve pair.score) }
{
    if pair.floor == rules.tickets() {
        return true;
    }
    match sieve {
        Sieve::All => true,
        Sieve::AtLeast { score } => score <= pair.score,
        Sieve::Above { score } => score < pair.score,
    }
}

// The greatest number of tickets of a pair under the sieve.
fn cap_of(rules: &Rules, sieve: Sieve, e: u32) -> u32
    requires { e < length rules.now.pairs }
    ensures { result ≡ cap_under rules.now sieve e }
{
    let pair = rules.pairs()[e as usize];
    if is_kept(rules, sieve, pair) {
        pair.cap
    } else {
        0
    }
}

// An amount divided by the tickets that are left, rounded down and up.
fn rounded_span(left: u32, amount: u64) -> Span
    requires { 1 ≤ left }
    ensures { result ≡ rounded left amount }
{
    let left = u64::from(left);
    let floor = amount / left;
    Span {
        floor,
        room: floor + (amount % left).min(1),
    }
}

// Tickets for so many.
fn all_tickets(rules: &Rules, times: u32) -> u64
    requires { times ≤ MOST_LOAD }
    ensures { result ≡ rules.now.tickets * times }
{
    u64::from(rules.tickets()) * u64::from(times)
}

// The bounds of a pair.
pub fn pair_span(rules: &Rules, sieve: Sieve, amounts: Amounts, e: u32) -> Span
    requires divides { CanDivide rules.now amounts }
    requires within { e < length rules.now.pairs }
    ensures { result ≡ (spans_of rules.now sieve amounts.entry).pairs e }
{
    match amounts {
        Amounts::Tickets => Span {
            floor: u64::from(rules.pairs()[e as usize].floor),
            room: u64::from(cap_of(rules, sieve, e)),
        },
        Amounts::Rounded { shares, left } => {
            rounded_span(left, u64::from(shares.as_slice()[e as usize]))
        }
    }
}

// The bounds of a paper.
pub fn paper_span(rules: &Rules, sieve: Sieve, amounts: Amounts, totals: &Totals, p: u32) -> Span
    requires divides { CanDivide rules.now amounts }
    requires totals { AreTotals rules.now amounts totals.now }
    requires within { p < length rules.now.papers }
    ensures { result ≡ (spans_of rules.now sieve amounts.entry).papers p }
{
    match amounts {
        Amounts::Tickets => {
            let all = all_tickets(rules, rules.papers()[p as usize].demand);
            Span {
                floor: all,
                room: all,
            }
        }
        Amounts::Rounded { shares: _, left } => rounded_span(left, totals.papers[p as usize]),
    }
}

// The bounds of a group.
pub fn group_span(rules: &Rules, sieve: Sieve, amounts: Amounts, totals: &Totals, g: u32) -> Span
    requires divides { CanDivide rules.now amounts }
    requires totals { AreTotals rules.now amounts totals.now }
    requires within { g < group_count rules.now }
    ensures { result ≡ (spans_of rules.now sieve amounts.entry).of_groups g }
{
    match amounts {
        Amounts::Tickets => Span {
            floor: 0,
            room: all_tickets(rules, rules.limit()),
        },
        Amounts::Rounded { shares: _, left } => rounded_span(left, totals.of_groups[g as usize]),
    }
}

// The bounds of a reviewer.
pub fn reviewer_span(rules: &Rules, sieve: Sieve, amounts: Amounts, totals: &Totals, r: u32) -> Span
    requires divides { CanDivide rules.now amounts }
    requires totals { AreTotals rules.now amounts totals.now }
    requires within { r < length rules.now.reviewers }
    ensures { result ≡ (spans_of rules.now sieve amounts.entry).reviewers r }
{
    match amounts {
        Amounts::Tickets => Span {
            floor: all_tickets(rules, rules.reviewers()[r as usize].least),
            room: all_tickets(rules, rules.reviewers()[r as usize].greatest),
        },
        Amounts::Rounded { shares: _, left } => rounded_span(left, totals.reviewers[r as usize]),
    }
}
