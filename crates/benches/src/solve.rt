//! Solves networks that are written as text on standard input, and prints the cost of a best circulation of each, or
//! `unsat`.
//!
//! The text of a network is `NODES ARCS` and then `TAIL HEAD FLOOR ROOM COST` for each arc, with white space between the
//! numbers; an empty line stands between two networks.

use anyhow::{Context, bail};
use bounded_network::{Arc, Network};
use flow_solver::{Solution, solve};
use std::alloc::Global;
use std::io::Read;
use std::str;
use std::time::Instant;

fn read_arcs(alloc: Global, text: &str) -> anyhow::Result<(u32, Vec<Arc>)> {
    let mut words = text.split_ascii_whitespace();
    let nodes = u32::try_from(number_in(words.next())?)?;
    let count = number_in(words.next())?;
    let mut arcs = Vec::new(alloc);
    for _ in 0..count {
        let tail = u32::try_from(number_in(words.next())?)?;
        let head = u32::try_from(number_in(words.next())?)?;
        let floor = u64::try_from(number_in(words.next())?)?;
        let room = u64::try_from(number_in(words.next())?)?;
        let cost = number_in(words.next())?;
        arcs.push(Arc {
            tail,
            head,
            floor,
            room,
            cost,
        })?;
    }
    Ok((nodes, arcs))
}

fn number_in(word: Option<&str>) -> anyhow::Result<i64> {
    let word = word.context("a number is missing")?;
    Ok(word.parse::<i64>()?)
}

// The cost of a flow. It stays within 128 bits, since an amount is at most 2^50 and a cost at most 8,000,000,000.
fn cost_of(net: &Network, flow: &[u64]) -> i128 {
    let mut cost: i128 = 0;
    for (arc, amount) in net.arcs().iter().zip(flow) {
        let part = i128::from(arc.cost).wrapping_mul(i128::from(*amount));
        cost = cost.wrapping_add(part);
    }
    cost
}

fn solve_one(rt: &HostRuntime, text: &str, timed: bool) -> anyhow::Result<()> {
    let alloc = rt.alloc();
    let (nodes, arcs) = read_arcs(alloc, text)?;
    let Ok(net) = Network::new(nodes, arcs) else {
        bail!("the network is past its limits");
    };
    let start = Instant::now(rt)?;
    let solution = solve(alloc, &net)?;
    if timed {
        let taken = start.elapsed(rt)?;
        eprintln!(rt; "{}", taken.as_micros())?;
    }
    match solution {
        Solution::Solved {
            flow,
            potentials: _potentials,
        } => println!(rt; "{}", cost_of(&net, flow.as_slice()))?,
        Solution::Unsat { marks: _marks } => println!(rt; "unsat")?,
    }
    Ok(())
}

/// Solves the networks; where it is to be timed, the microseconds of each solve alone go to standard error.
pub(crate) fn solve_all(rt: &HostRuntime, timed: bool) -> anyhow::Result<()> {
    let mut bytes = Vec::new(rt.alloc());
    rt.stdin().read_to_end(&mut bytes)?;
    for network in str::from_utf8(bytes.as_slice())?.split("\n\n") {
        solve_one(rt, network, timed)?;
    }
    Ok(())
}
