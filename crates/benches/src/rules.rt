//! What is made of rules: their network, their level in the fair mode, and the pieces of their best shares.

use anyhow::bail;
use bounded_network::{Amounts, compile, shares_of};
use edge_io::ReadSource;
use fair_threshold::{FoundLevel, level_of};
use flow_solver::{Solution, solve};
use lottery_peel::peel;
use match_rules::{Rules, Sieve};
use publication::read_rules;
use std::time::Instant;

fn rules_read(rt: &HostRuntime) -> anyhow::Result<Rules> {
    let Ok(rules) = read_rules(rt.alloc(), &mut ReadSource::new(rt.stdin())) else {
        bail!("the input is no rules");
    };
    Ok(rules)
}

/// Reads rules on standard input, compiles their network and prints the numbers of its nodes and arcs; the microseconds of
/// the compiling alone go to standard error.
pub(crate) fn compile_network(rt: &HostRuntime) -> anyhow::Result<()> {
    let rules = rules_read(rt)?;
    let start = Instant::now(rt)?;
    let network = compile(rt.alloc(), &rules, Sieve::All, Amounts::Tickets)?;
    let taken = start.elapsed(rt)?;
    eprintln!(rt; "{}", taken.as_micros())?;
    println!(rt; "nodes {} arcs {}", network.nodes(), network.arcs().len())?;
    Ok(())
}

/// Reads rules on standard input and prints their level; the microseconds of the search alone go to standard error.
pub(crate) fn find_level(rt: &HostRuntime) -> anyhow::Result<()> {
    let rules = rules_read(rt)?;
    let start = Instant::now(rt)?;
    let level = level_of(rt.alloc(), &rules)?;
    let taken = start.elapsed(rt)?;
    eprintln!(rt; "{}", taken.as_micros())?;
    match level {
        FoundLevel::Free => println!(rt; "free")?,
        FoundLevel::At {
            score,
            shares: _shares,
            cut: _cut,
        } => println!(rt; "{score}")?,
        FoundLevel::NoneFits { cut: _cut } => println!(rt; "none")?,
    }
    Ok(())
}

/// Reads rules on standard input, solves them, peels the shares and prints the number of pieces; the microseconds of the
/// peeling alone go to standard error.
pub(crate) fn peel_shares(rt: &HostRuntime) -> anyhow::Result<()> {
    let rules = rules_read(rt)?;
    let network = compile(rt.alloc(), &rules, Sieve::All, Amounts::Tickets)?;
    let Solution::Solved {
        flow,
        potentials: _potentials,
    } = solve(rt.alloc(), &network)?
    else {
        bail!("no lottery fits the rules");
    };
    let shares = shares_of(rt.alloc(), &rules, Sieve::All, &flow)?;
    let start = Instant::now(rt)?;
    let lottery = peel(rt.alloc(), &rules, &shares)?;
    let taken = start.elapsed(rt)?;
    eprintln!(rt; "{}", taken.as_micros())?;
    println!(rt; "pieces {}", lottery.pieces().len())?;
    Ok(())
}
