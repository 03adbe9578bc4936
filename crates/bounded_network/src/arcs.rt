// The arcs of the network of rules.

ghost use Rattle.std.specs.Prelude.{◌≡◌, ◌++◌, ◌<◌, length, IfOk, neg_ℤ};
ghost use Rattle.match_rules.specs.Groups.{group_count};
ghost use Rattle.match_rules.specs.Rules.{pair_at};
ghost use Rattle.bounded_network.specs.Compile.{listed, pair_arc, paper_arc, group_arc, reviewer_arc, network_of};
ghost use Rattle.bounded_network.specs.Spans.{spans_of, CanDivide};
ghost use Rattle.bounded_network.specs.Totals.{AreTotals};

use crate::bounds::{group_span, pair_span, paper_span, reviewer_span};
use crate::layout::{group_node_of, hub_of, parent, reviewer_node_of, tail};
use crate::network::Arc;
use crate::spans::{Amounts, Span};
use crate::totals::Totals;
use match_rules::{Rules, Sieve};
use std::alloc::{AllocError, Global};

// The cost of a pair's unit.
fn cost(rules: &Rules, sieve: Sieve, amounts: Amounts, e: u32) -> i64
    requires { e < length rules.now.pairs }
    ensures { result ≡ (spans_of rules.now sieve amounts.entry).cost e }
{
    match amounts {
        Amounts::Tickets => -rules.pairs()[e as usize].score,
        Amounts::Rounded { shares: _, left: _ } => 0,
    }
}

// The arc between the nodes with the bounds and the cost.
fn arc(tail: u32, head: u32, span: Span, cost: i64) -> Arc
    ensures { result ≡ record { tail = tail; head = head; floor = span.floor; room = span.room; cost = cost } }
{
    Arc {
        tail,
        head,
        floor: span.floor,
        room: span.room,
        cost,
    }
}

// Adds the arcs of the pairs.
fn push_pairs(
    arcs: &mut Vec<Arc>,
    rules: &Rules,
    sieve: Sieve,
    amounts: Amounts,
) -> Result<(), AllocError>
    requires divides { CanDivide rules.now amounts }
    ensures { IfOk result (λ done. arcs.new.items ≡ arcs.old.items ++ listed (length rules.now.pairs) (pair_arc rules.now (spans_of rules.now sieve amounts.entry))) }
{
    for e in 0..rules.pairs().len() as u32 {
        let span = pair_span(rules, sieve, amounts, e);
        let reviewer = rules.pairs()[e as usize].reviewer;
        let cost = cost(rules, sieve, amounts, e);
        arcs.push(arc(
            tail(rules, e),
            reviewer_node_of(rules, reviewer),
            span,
            cost,
        ))?;
    }
    Ok(())
}

// Adds the arcs of the papers.
fn push_papers(
    arcs: &mut Vec<Arc>,
    rules: &Rules,
    sieve: Sieve,
    amounts: Amounts,
    totals: &Totals,
) -> Result<(), AllocError>
    requires divides { CanDivide rules.now amounts }
    requires totals { AreTotals rules.now amounts totals.now }
    ensures { IfOk result (λ done. arcs.new.items ≡ arcs.old.items ++ listed (length rules.now.papers) (paper_arc rules.now (spans_of rules.now sieve amounts.entry))) }
{
    for p in 0..rules.papers().len() as u32 {
        let span = paper_span(rules, sieve, amounts, totals, p);
        arcs.push(arc(hub_of(rules), p, span, 0))?;
    }
    Ok(())
}

// Adds the arcs of the groups.
fn push_groups(
    arcs: &mut Vec<Arc>,
    rules: &Rules,
    sieve: Sieve,
    amounts: Amounts,
    totals: &Totals,
) -> Result<(), AllocError>
    requires divides { CanDivide rules.now amounts }
    requires totals { AreTotals rules.now amounts totals.now }
    ensures { IfOk result (λ done. arcs.new.items ≡ arcs.old.items ++ listed (group_count rules.now) (group_arc rules.now (spans_of rules.now sieve amounts.entry))) }
{
    for g in 0..rules.group_count() {
        let span = group_span(rules, sieve, amounts, totals, g);
        arcs.push(arc(parent(rules, g), group_node_of(rules, g), span, 0))?;
    }
    Ok(())
}

// Adds the arcs of the reviewers.
fn push_reviewers(
    arcs: &mut Vec<Arc>,
    rules: &Rules,
    sieve: Sieve,
    amounts: Amounts,
    totals: &Totals,
) -> Result<(), AllocError>
    requires divides { CanDivide rules.now amounts }
    requires totals { AreTotals rules.now amounts totals.now }
    ensures { IfOk result (λ done. arcs.new.items ≡ arcs.old.items ++ listed (length rules.now.reviewers) (reviewer_arc rules.now (spans_of rules.now sieve amounts.entry))) }
{
    for r in 0..rules.reviewers().len() as u32 {
        let span = reviewer_span(rules, sieve, amounts, totals, r);
        arcs.push(arc(reviewer_node_of(rules, r), hub_of(rules), span, 0))?;
    }
    Ok(())
}

/// All arcs: those of the pairs, then of the papers, the groups and the reviewers.
pub fn arcs_of(
    alloc: Global,
    rules: &Rules,
    sieve: Sieve,
    amounts: Amounts,
    totals: &Totals,
) -> Result<Vec<Arc>, AllocError>
    requires divides { CanDivide rules.now amounts }
    requires totals { AreTotals rules.now amounts totals.now }
    ensures { IfOk result (λ arcs. arcs.items ≡ (network_of rules.now (spans_of rules.now sieve amounts.entry)).arcs) }
{
    let count = rules.pairs().len()
        + rules.papers().len()
        + rules.group_count() as usize
        + rules.reviewers().len();
    let mut arcs = Vec::with_capacity(alloc, count)?;
    push_pairs(&mut arcs, rules, sieve, amounts)?;
    push_papers(&mut arcs, rules, sieve, amounts, totals)?;
    push_groups(&mut arcs, rules, sieve, amounts, totals)?;
    push_reviewers(&mut arcs, rules, sieve, amounts, totals)?;
    Ok(arcs)
}
