// The sums of shares that rounded bounds are made of, and the flow of shares.

ghost use Rattle.std.specs.Prelude.{◌≡◌, ◌+◌, ◌<◌, ◌≤◌, length, IfOk, slice_index, slice_set};
ghost use Rattle.match_rules.specs.Groups.{group_count};
ghost use Rattle.match_rules.specs.SharesFit.{paper_shares, group_shares, reviewer_shares};
ghost use Rattle.bounded_network.specs.declared.network.TheConstants.{MAX_ROOM};
ghost use Rattle.bounded_network.specs.Compile.{listed, flow_of};
ghost use Rattle.bounded_network.specs.Spans.{CanDivide};
ghost use Rattle.bounded_network.specs.Totals.{AreWords, AreSums, AreTotals};

use crate::spans::Amounts;
use match_rules::{Rules, Shares};
use std::alloc::{AllocError, Global};

/// The sums of the papers, groups and reviewers by their places, where amounts are rounded; nothing for tickets.
#[derive(Drop)]
pub struct Totals {
    pub papers: Vec<u64>,
    pub of_groups: Vec<u64>,
    pub reviewers: Vec<u64>,
}

// Adds an amount to one sum.
fn add(totals: &mut Vec<u64>, at: usize, amount: u32)
    requires within { at < length totals.old.items }
    requires fits { slice_index totals.old.items at ≤ MAX_ROOM }
    ensures { totals.new.items ≡ slice_set totals.old.items at (slice_index totals.old.items at + amount) }
{
    totals[at] += u64::from(amount);
}

// The sums of the papers.
fn of_papers(alloc: Global, rules: &Rules, shares: &[u32]) -> Result<Vec<u64>, AllocError>
    requires { length shares.now ≡ length rules.now.pairs }
    ensures words { IfOk result (λ totals. AreWords shares.now) }
    ensures sums { IfOk result (λ totals. totals.items ≡ listed (length rules.now.papers) (paper_shares rules.now shares.now)) }
{
    let mut totals = vec![in alloc; 0u64; rules.papers().len()]?;
    let pairs = rules.pairs();
    for e in 0..pairs.len() {
        add(&mut totals, pairs[e].paper as usize, shares[e]);
    }
    Ok(totals)
}

// The sums of the groups.
fn of_groups(alloc: Global, rules: &Rules, shares: &[u32]) -> Result<Vec<u64>, AllocError>
    requires { length shares.now ≡ length rules.now.pairs }
    ensures { IfOk result (λ totals. totals.items ≡ listed (group_count rules.now) (group_shares rules.now shares.now)) }
{
    let mut totals = vec![in alloc; 0u64; rules.group_count() as usize]?;
    for e in 0..shares.len() {
        if let Some(group) = rules.group_of(e as u32) {
            add(&mut totals, group as usize, shares[e]);
        }
    }
    Ok(totals)
}

// The sums of the reviewers.
fn of_reviewers(alloc: Global, rules: &Rules, shares: &[u32]) -> Result<Vec<u64>, AllocError>
    requires { length shares.now ≡ length rules.now.pairs }
    ensures { IfOk result (λ totals. totals.items ≡ listed (length rules.now.reviewers) (reviewer_shares rules.now shares.now)) }
{
    let mut totals = vec![in alloc; 0u64; rules.reviewers().len()]?;
    let pairs = rules.pairs();
    for e in 0..pairs.len() {
        add(&mut totals, pairs[e].reviewer as usize, shares[e]);
    }
    Ok(totals)
}

// All sums.
fn sums_of(alloc: Global, rules: &Rules, shares: &[u32]) -> Result<Totals, AllocError>
    requires { length shares.now ≡ length rules.now.pairs }
    ensures { IfOk result (AreSums rules.now shares.now) }
{
    Ok(Totals {
        papers: of_papers(alloc, rules, shares)?,
        of_groups: of_groups(alloc, rules, shares)?,
        reviewers: of_reviewers(alloc, rules, shares)?,
    })
}

/// The sums that the bounds of such amounts are made of.
pub fn totals_of(alloc: Global, rules: &Rules, amounts: Amounts) -> Result<Totals, AllocError>
    requires { CanDivide rules.now amounts }
    ensures { IfOk result (AreTotals rules.now amounts.entry) }
{
    match amounts {
        Amounts::Tickets => Ok(Totals {
            papers: Vec::new(alloc),
            of_groups: Vec::new(alloc),
            reviewers: Vec::new(alloc),
        }),
        Amounts::Rounded { shares, left: _ } => sums_of(alloc, rules, shares.as_slice()),
    }
}

/// The flow of shares: the amounts of all pairs, papers, groups and reviewers, at the places of their arcs. A pair's is its
/// share, and the others' are the sums of their pairs.
///
/// Time and memory are linear in pairs, papers, groups and reviewers.
pub fn amounts_of(alloc: Global, rules: &Rules, shares: &Shares) -> Result<Vec<u64>, AllocError>
    requires { length shares.now ≡ length rules.now.pairs }
    ensures { IfOk result (λ amounts. amounts.items ≡ flow_of rules.now shares.now) }
{
    let of_pairs = shares.as_slice();
    let sums = sums_of(alloc, rules, of_pairs)?;
    let mut amounts = Vec::new(alloc);
    for share in of_pairs {
        amounts.push(u64::from(*share))?;
    }
    amounts.extend_from_slice(sums.papers.as_slice())?;
    amounts.extend_from_slice(sums.of_groups.as_slice())?;
    amounts.extend_from_slice(sums.reviewers.as_slice())?;
    Ok(amounts)
}
