//! Lotteries of made rules, by `peel` and by the plain way that its definitions describe: a fresh flow of the rounded network for
//! each piece. It says of each whether its pieces have all tickets, exactly the shares, and each paper as often as its demand.
//!
//! The words are sizes, each of which makes rules with so many papers and reviewers, all pairs, caps that differ, and three
//! institutions; `large` before a size takes `peel` alone. How many pieces there are depends on the solver, so it is not written.
#![tactic(auto)]

ghost use Rattle.std.specs.Prelude.{◌≡◌, ◌≤◌, length};

use anyhow::{Context, bail};
use bounded_network::{Amounts, amounts_of, compile, shares_of};
use flow_solver::{Solution, solve};
use lottery_peel::peel;
use match_rules::{
    Institution, Lottery, PaperId, ReviewerId, RulePair, RulePaper, RuleReviewer, Rules, Shares,
    Sieve,
};
use std::alloc::{AllocError, Global};
use std::env;

// For how many tickets counts stand, which are given for the pairs alone.
#[derive(Drop)]
struct PlainPiece {
    weight: u32,
    counts: Vec<u64>,
}

fn papers(alloc: Global, size: u32) -> anyhow::Result<Vec<RulePaper>> {
    let mut papers = Vec::new(alloc);
    for place in 0..size {
        let name = format!(in alloc; "p{place:04}")?;
        let Ok(id) = PaperId::read(alloc, name.as_str()) else {
            bail!("{name} is no id");
        };
        papers.push(RulePaper { id, demand: 3 })?;
    }
    Ok(papers)
}

fn reviewers(alloc: Global, size: u32) -> anyhow::Result<Vec<RuleReviewer>> {
    let mut reviewers = Vec::new(alloc);
    for place in 0..size {
        let name = format!(in alloc; "r{place:04}")?;
        let Ok(id) = ReviewerId::read(alloc, name.as_str()) else {
            bail!("{name} is no id");
        };
        let house = format!(in alloc; "h{}", place % 3)?;
        let Ok(institution) = Institution::read(alloc, house.as_str()) else {
            bail!("{house} is no institution");
        };
        reviewers.push(RuleReviewer {
            id,
            institution: Some(institution),
            least: 0,
            greatest: 6,
        })?;
    }
    Ok(reviewers)
}

// A number below a thousand that hangs on both places.
fn mixed(paper: u32, reviewer: u32) -> u32
    ensures { result ≤ 999 }
{
    let both = paper
        .wrapping_mul(31)
        .wrapping_add(reviewer.wrapping_mul(17))
        .wrapping_add(paper.wrapping_mul(reviewer).wrapping_mul(7));
    both % 1000
}

fn pairs(alloc: Global, size: u32) -> anyhow::Result<Vec<RulePair>> {
    let mut pairs = Vec::new(alloc);
    let least_cap = 45_000 / size.max(1);
    for paper in 0..size {
        for reviewer in 0..size {
            let number = mixed(paper, reviewer);
            pairs.push(RulePair {
                paper,
                reviewer,
                score: i64::from(number) * 10_000,
                floor: 0,
                cap: (least_cap + number).min(10_000),
            })?;
        }
    }
    Ok(pairs)
}

fn made_rules(alloc: Global, size: u32) -> anyhow::Result<Rules> {
    let papers = papers(alloc, size)?;
    let reviewers = reviewers(alloc, size)?;
    let pairs = pairs(alloc, size)?;
    let Ok(rules) = Rules::new(alloc, 2, papers, reviewers, pairs) else {
        bail!("the rules are past a limit");
    };
    Ok(rules)
}

// Best shares, and the lottery that `peel` makes of them.
fn peeled(alloc: Global, rules: &Rules) -> anyhow::Result<(Shares, Lottery)> {
    let net = compile(alloc, rules, Sieve::All, Amounts::Tickets)?;
    let Solution::Solved {
        flow,
        potentials: _potentials,
    } = solve(alloc, &net)?
    else {
        bail!("no lottery fits");
    };
    let shares = shares_of(alloc, rules, Sieve::All, flow.as_slice())?;
    let lottery = peel(alloc, rules, &shares)?;
    Ok((shares, lottery))
}

// A whole assignment of the rounded amounts, by a fresh flow.
fn next_of(alloc: Global, rules: &Rules, rest: &Shares, left: u32) -> anyhow::Result<Vec<u64>>
    requires some { 1 ≤ left }
    requires long { length rest.now ≡ length rules.now.pairs }
{
    let amounts = Amounts::Rounded { shares: rest, left };
    let net = compile(alloc, rules, Sieve::All, amounts)?;
    let Solution::Solved {
        flow,
        potentials: _potentials,
    } = solve(alloc, &net)?
    else {
        bail!("no next assignment");
    };
    Ok(flow)
}

// For how many tickets the counts may stand.
fn weight_of(left: u32, amounts: &[u64], counts: &[u64]) -> u32
    requires some { 1 ≤ left }
{
    let all = u64::from(left);
    let mut weight = all;
    for (amount, count) in amounts.iter().zip(counts) {
        let over = *amount % all;
        if over > 0 && *count == *amount / all {
            weight = weight.min(all - over);
        } else if over > 0 {
            weight = weight.min(over);
        }
    }
    u32::try_from(weight).unwrap_or(left)
}

// What is left of the shares.
fn rest_of(
    alloc: Global,
    rest: &Shares,
    weight: u32,
    counts: &[u64],
) -> Result<Shares, AllocError> {
    let mut tickets = Vec::new(alloc);
    for (share, count) in rest.as_slice().iter().zip(counts) {
        let given = u64::from(weight).wrapping_mul(*count);
        let left = u64::from(*share).saturating_sub(given);
        tickets.push(u32::try_from(left).unwrap_or(0))?;
    }
    Ok(Shares::from_vec(tickets))
}

// The pieces of shares by a fresh flow each.
fn plain_pieces(alloc: Global, rules: &Rules, shares: &Shares) -> anyhow::Result<Vec<PlainPiece>> {
    let mut pieces = Vec::new(alloc);
    let mut rest = shares.copy(alloc)?;
    let mut left = rules.tickets();
    for _ in 0..rules.tickets() {
        if left == 0 || rest.as_slice().len() != rules.pairs().len() {
            break;
        }
        let counts = next_of(alloc, rules, &rest, left)?;
        let amounts = amounts_of(alloc, rules, &rest)?;
        let weight = weight_of(left, amounts.as_slice(), counts.as_slice());
        rest = rest_of(alloc, &rest, weight, counts.as_slice())?;
        left = left.saturating_sub(weight);
        pieces.push(PlainPiece { weight, counts })?;
    }
    Ok(pieces)
}

// The tickets of each pair in the pieces that `peel` made.
fn tickets_in(alloc: Global, rules: &Rules, lottery: &Lottery) -> Result<Vec<u64>, AllocError> {
    let mut tickets = vec![in alloc; 0u64; rules.pairs().len()]?;
    for piece in lottery.pieces() {
        for place in piece.pairs.as_slice() {
            if let Some(sum) = tickets.get_mut(*place as usize) {
                *sum = sum.wrapping_add(u64::from(piece.weight));
            }
        }
    }
    Ok(tickets)
}

// The tickets of each pair in plain pieces.
fn plain_tickets(
    alloc: Global,
    rules: &Rules,
    pieces: &[PlainPiece],
) -> Result<Vec<u64>, AllocError> {
    let mut tickets = vec![in alloc; 0u64; rules.pairs().len()]?;
    for piece in pieces {
        for (sum, count) in tickets.iter_mut().zip(piece.counts.as_slice()) {
            *sum = sum.wrapping_add(u64::from(piece.weight).wrapping_mul(*count));
        }
    }
    Ok(tickets)
}

// Whether each pair has exactly its share.
fn are_exact(shares: &Shares, tickets: &[u64]) -> bool {
    shares.as_slice().len() == tickets.len()
        && shares
            .as_slice()
            .iter()
            .zip(tickets)
            .all(|(share, sum)| u64::from(*share) == *sum)
}

fn word_of(exact: bool) -> &'static str {
    if exact { "exact" } else { "not exact" }
}

// Both lotteries of the rules of a size.
fn compare(rt: &HostRuntime, size: u32) -> anyhow::Result<()> {
    let alloc = rt.alloc();
    let rules = made_rules(alloc, size)?;
    let (shares, lottery) = peeled(alloc, &rules)?;
    let tickets = tickets_in(alloc, &rules, &lottery)?;
    let repaired = word_of(are_exact(&shares, tickets.as_slice()));
    let pieces = plain_pieces(alloc, &rules, &shares)?;
    let tickets = plain_tickets(alloc, &rules, pieces.as_slice())?;
    let plain = word_of(are_exact(&shares, tickets.as_slice()));
    println!(rt; "size {size}: peel {repaired}, plain {plain}")?;
    Ok(())
}

// The lottery of larger rules by `peel` alone.
fn peel_large(rt: &HostRuntime, size: u32) -> anyhow::Result<()> {
    let alloc = rt.alloc();
    let rules = made_rules(alloc, size)?;
    let (shares, lottery) = peeled(alloc, &rules)?;
    let tickets = tickets_in(alloc, &rules, &lottery)?;
    let repaired = word_of(are_exact(&shares, tickets.as_slice()));
    let many = lottery.pieces().len() > 1;
    println!(rt; "size {size}: peel {repaired}, more than one piece {many}")?;
    Ok(())
}

fn run(rt: &HostRuntime) -> anyhow::Result<()> {
    let mut large = false;
    for word in env::args(rt)?.skip(1) {
        if word.as_str() == "large" {
            large = true;
            continue;
        }
        let size = word.parse::<u32>().context("a size is wanted")?;
        if large {
            peel_large(rt, size)?;
        } else {
            compare(rt, size)?;
        }
    }
    Ok(())
}

fn main(rt: HostRuntime) -> anyhow::Result<()> {
    run(&rt)
}
