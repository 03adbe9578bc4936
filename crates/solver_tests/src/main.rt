//! From rules to evidence: solves the network of each of the rules on standard input, and says what the evidence shows.
//!
//! The text of rules is `LIMIT PAPERS REVIEWERS PAIRS`, then the demand of each paper, then `INSTITUTION LEAST GREATEST` for
//! each reviewer, where `-` is no institution, then `PAPER REVIEWER SCORE FLOOR CAP` for each pair, by their places, with white
//! space between the words; an empty line stands between two rules. The answer is `best TOTAL places COUNT` where the prices show that
//! the shares are best, with the places that the whole assignment of the network of rounded amounts fills, `violated` where the
//! cut shows that no lottery fits, and `unproved` where neither shows anything. The next line is the level of the rules in the mode
//! fair: `level SCORE`, `level free` or `level none`; after it the threshold, which also takes a lottery at that score:
//! `threshold SCORE`, `threshold free` or `threshold none`. Last comes the cheapest circulation of two nodes after other bounds
//! of an arc.
#![tactic(auto)]

ghost use Rattle.std.specs.Prelude.{◌≡◌, length};

use anyhow::{Context, bail};
use bounded_network::{Amounts, Arc, Network, compile, cut_of, prices_of, shares_of};
use dual_check::{is_best, is_violated};
use fair_threshold::{FoundLevel, Threshold, level_of, threshold};
use flow_solver::{Solution, solve};
use match_rules::{
    Institution, PaperId, ReviewerId, RulePair, RulePaper, RuleReviewer, Rules, Shares, Sieve,
};
use std::alloc::{AllocError, Global};
use std::io::Read;
use std::str;
use std::str::SplitAsciiWhitespace;

// What the evidence shows.
enum Shown {
    Best { total: i128, places: u64 },
    Violated,
    Nothing,
}

// The next number.
fn number(words: &mut SplitAsciiWhitespace) -> anyhow::Result<i64> {
    let word = words.next().context("a number is missing")?;
    Ok(word.parse::<i64>()?)
}

fn small_number(words: &mut SplitAsciiWhitespace) -> anyhow::Result<u32> {
    Ok(u32::try_from(number(words)?)?)
}

fn papers(
    alloc: Global,
    words: &mut SplitAsciiWhitespace,
    count: u32,
) -> anyhow::Result<Vec<RulePaper>> {
    let mut papers = Vec::new(alloc);
    for place in 0..count {
        let name = format!(in alloc; "p{place:04}")?;
        let Ok(id) = PaperId::read(alloc, name.as_str()) else {
            bail!("{name} is no id");
        };
        papers.push(RulePaper {
            id,
            demand: small_number(words)?,
        })?;
    }
    Ok(papers)
}

fn institution(alloc: Global, name: &str) -> anyhow::Result<Option<Institution>> {
    if name == "-" {
        return Ok(None);
    }
    let Ok(institution) = Institution::read(alloc, name) else {
        bail!("{name} is no institution");
    };
    Ok(Some(institution))
}

fn reviewers(
    alloc: Global,
    words: &mut SplitAsciiWhitespace,
    count: u32,
) -> anyhow::Result<Vec<RuleReviewer>> {
    let mut reviewers = Vec::new(alloc);
    for place in 0..count {
        let name = format!(in alloc; "r{place:04}")?;
        let Ok(id) = ReviewerId::read(alloc, name.as_str()) else {
            bail!("{name} is no id");
        };
        reviewers.push(RuleReviewer {
            id,
            institution: institution(alloc, words.next().context("an institution is missing")?)?,
            least: small_number(words)?,
            greatest: small_number(words)?,
        })?;
    }
    Ok(reviewers)
}

fn pairs(
    alloc: Global,
    words: &mut SplitAsciiWhitespace,
    count: u32,
) -> anyhow::Result<Vec<RulePair>> {
    let mut pairs = Vec::new(alloc);
    for _ in 0..count {
        pairs.push(RulePair {
            paper: small_number(words)?,
            reviewer: small_number(words)?,
            score: number(words)?,
            floor: small_number(words)?,
            cap: small_number(words)?,
        })?;
    }
    Ok(pairs)
}

fn read_rules(alloc: Global, text: &str) -> anyhow::Result<Rules> {
    let mut words = text.split_ascii_whitespace();
    let limit = small_number(&mut words)?;
    let paper_count = small_number(&mut words)?;
    let reviewer_count = small_number(&mut words)?;
    let pair_count = small_number(&mut words)?;
    let papers = papers(alloc, &mut words, paper_count)?;
    let reviewers = reviewers(alloc, &mut words, reviewer_count)?;
    let pairs = pairs(alloc, &mut words, pair_count)?;
    let Ok(rules) = Rules::new(alloc, limit, papers, reviewers, pairs) else {
        bail!("the rules are past a limit");
    };
    Ok(rules)
}

// The scores of the pairs, each times its share. It stays within 128 bits: shares are of 32 bits, and scores of 64.
fn total_of(rules: &Rules, shares: &Shares) -> i128 {
    let mut total: i128 = 0;
    for (pair, share) in rules.pairs().iter().zip(shares.as_slice()) {
        let part = i128::from(pair.score).wrapping_mul(i128::from(*share));
        total = total.wrapping_add(part);
    }
    total
}

// The places that an assignment fills in which each pair has its share of all tickets, rounded down or up.
fn places_of(alloc: Global, rules: &Rules, shares: &Shares) -> Result<u64, AllocError>
    requires { length shares.now ≡ length rules.now.pairs }
{
    let left = rules.tickets();
    let net = compile(alloc, rules, Sieve::All, Amounts::Rounded { shares, left })?;
    let mut places = 0u64;
    if let Solution::Solved {
        flow,
        potentials: _potentials,
    } = solve(alloc, &net)?
    {
        for (_pair, amount) in rules.pairs().iter().zip(flow.as_slice()) {
            places = places.wrapping_add(*amount);
        }
    }
    Ok(places)
}

// Solves the network of the rules, and judges the evidence that it gives.
fn show(alloc: Global, rules: &Rules) -> Result<Shown, AllocError> {
    let net = compile(alloc, rules, Sieve::All, Amounts::Tickets)?;
    match solve(alloc, &net)? {
        Solution::Solved { flow, potentials } => {
            let shares = shares_of(alloc, rules, Sieve::All, &flow)?;
            let prices = prices_of(alloc, rules, Sieve::All, &potentials)?;
            let total = total_of(rules, &shares);
            let best = is_best(rules, Sieve::All, total, &prices);
            let places = places_of(alloc, rules, &shares)?;
            Ok(if best {
                Shown::Best { total, places }
            } else {
                Shown::Nothing
            })
        }
        Solution::Unsat { marks } => {
            let cut = cut_of(alloc, rules, Sieve::All, &marks)?;
            let violated = is_violated(rules, Sieve::All, &cut);
            Ok(if violated {
                Shown::Violated
            } else {
                Shown::Nothing
            })
        }
    }
}

// Two nodes with an arc there, which earns 5 a unit, and one back: sets the bounds of the second arc, and those of a third
// one, which there isn't, and solves.
fn show_rebound(rt: &HostRuntime) -> anyhow::Result<()> {
    let alloc = rt.alloc();
    let there = Arc {
        tail: 0,
        head: 1,
        floor: 1,
        room: 3,
        cost: -5,
    };
    let back = Arc {
        tail: 1,
        head: 0,
        floor: 0,
        room: 2,
        cost: 1,
    };
    let Ok(mut net) = Network::new(2, vec![in alloc; there, back]?) else {
        bail!("the network is past a limit");
    };
    let second = net.rebound(1, 0, 1);
    let third = net.rebound(2, 0, 1);
    println!(rt; "rebound {second} {third}")?;
    if let Solution::Solved {
        flow,
        potentials: _potentials,
    } = solve(alloc, &net)?
    {
        for amount in flow.as_slice() {
            println!(rt; "flow {amount}")?;
        }
    }
    Ok(())
}

// The level of the rules in the mode fair.
fn show_level(rt: &HostRuntime, rules: &Rules) -> anyhow::Result<()> {
    match level_of(rt.alloc(), rules)? {
        FoundLevel::Free => println!(rt; "level free")?,
        FoundLevel::At {
            score,
            shares: _shares,
            cut: _cut,
        } => println!(rt; "level {score}")?,
        FoundLevel::NoneFits { cut: _cut } => println!(rt; "level none")?,
    }
    Ok(())
}

// The threshold of the rules.
fn show_threshold(rt: &HostRuntime, rules: &Rules) -> anyhow::Result<()> {
    match threshold(rt.alloc(), rules)? {
        Threshold::Free => println!(rt; "threshold free")?,
        Threshold::At { score, cut: _cut } => println!(rt; "threshold {score}")?,
        Threshold::NoneFits { cut: _cut } => println!(rt; "threshold none")?,
    }
    Ok(())
}

fn run(rt: &HostRuntime) -> anyhow::Result<()> {
    let alloc = rt.alloc();
    let mut bytes = Vec::new(alloc);
    rt.stdin().read_to_end(&mut bytes)?;
    for text in str::from_utf8(bytes.as_slice())?.split("\n\n") {
        let rules = read_rules(alloc, text)?;
        match show(alloc, &rules)? {
            Shown::Best { total, places } => println!(rt; "best {total} places {places}")?,
            Shown::Violated => println!(rt; "violated")?,
            Shown::Nothing => println!(rt; "unproved")?,
        }
        show_level(rt, &rules)?;
        show_threshold(rt, &rules)?;
    }
    show_rebound(rt)
}

fn main(rt: HostRuntime) -> anyhow::Result<()> {
    run(&rt)
}
