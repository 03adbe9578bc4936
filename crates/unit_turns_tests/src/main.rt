//! Turns of a small network, one after another: a line each, with the amounts that then stand, or `stuck` where there is no way.
//!
//! The network has nodes 0 to 2 and arcs from 0 to 1, from 2 to 1 for exactly one unit, from 2 to 0, and from 1 to 2 for two.
#![tactic(auto)]

ghost use Rattle.bounded_network.specs.Network.{IsCirculation};
ghost use Rattle.unit_turns.specs.Over.{AreLinksOver};
ghost use Rattle.unit_turns.specs.Side.{IsBlank};

use anyhow::bail;
use bounded_network::{Arc, Network};
use flow_solver::{Solution, solve};
use residual_arcs::{Links, Step, arc_count, arc_of, left, links_of};
use std::alloc::{AllocError, Global};
use unit_turns::{Side, blank, links_serve, turn};

// What came of a step.
enum Turn {
    NoRoom,
    Stuck,
    Taken { count: usize },
}

// An arc on which a unit costs a unit.
fn arc(tail: u32, head: u32, floor: u64, room: u64) -> Arc {
    Arc {
        tail,
        head,
        floor,
        room,
        cost: 1,
    }
}

fn network(alloc: Global) -> anyhow::Result<Network> {
    let arcs = vec![in alloc;
        arc(0, 1, 0, 1),
        arc(2, 1, 1, 1),
        arc(2, 0, 0, 1),
        arc(1, 2, 0, 2),
    ]?;
    let Ok(net) = Network::new(3, arcs) else {
        bail!("a limit of networks is broken");
    };
    Ok(net)
}

// Turns the step, where there is room for a unit over it.
fn take(
    alloc: Global,
    net: &Network,
    links: &Links,
    flow: &mut [u64],
    ahead: &mut Side,
    behind: &mut Side,
    step: Step,
) -> Result<Turn, AllocError>
    requires circulation { IsCirculation net.now flow.old }
    requires links { AreLinksOver net.now links.now }
    requires ahead { IsBlank net.now ahead.old }
    requires behind { IsBlank net.now behind.old }
    ensures circulation { IsCirculation net.now flow.new }
    ensures ahead { IsBlank net.now ahead.new }
    ensures behind { IsBlank net.now behind.new }
{
    if step.arc >= arc_count(net) {
        return Ok(Turn::NoRoom);
    }
    let arc = arc_of(net, step.arc);
    if arc.tail == arc.head || left(arc, flow[step.arc as usize], step.forward) == 0 {
        return Ok(Turn::NoRoom);
    }
    let mut steps = Vec::new(alloc);
    if turn(net, links, flow, ahead, behind, step, &mut steps)? {
        Ok(Turn::Taken { count: steps.len() })
    } else {
        Ok(Turn::Stuck)
    }
}

// Turns one arc after another, and writes what came of each.
fn take_all(
    rt: &HostRuntime,
    net: &Network,
    links: &Links,
    flow: &mut [u64],
    ahead: &mut Side,
    behind: &mut Side,
) -> anyhow::Result<()>
    requires circulation { IsCirculation net.now flow.old }
    requires links { AreLinksOver net.now links.now }
    requires ahead { IsBlank net.now ahead.old }
    requires behind { IsBlank net.now behind.old }
{
    for (arc, forward) in [(0u32, true), (2u32, false), (1u32, false), (3u32, false)] {
        let step = Step { arc, forward };
        match take(rt.alloc(), net, links, flow, ahead, behind, step)? {
            Turn::NoRoom => println!(rt; "arc {arc}: no room")?,
            Turn::Stuck => println!(rt; "arc {arc}: stuck")?,
            Turn::Taken { count } => println!(rt; "arc {arc}: {flow:?} by {count} steps")?,
        }
    }
    Ok(())
}

fn run(rt: &HostRuntime) -> anyhow::Result<()> {
    let alloc = rt.alloc();
    let net = network(alloc)?;
    let links = links_of(alloc, &net)?;
    links_serve(&net, &links);
    let mut ahead = blank(alloc, &net)?;
    let mut behind = blank(alloc, &net)?;
    let Solution::Solved {
        mut flow,
        potentials: _potentials,
    } = solve(alloc, &net)?
    else {
        bail!("the network has no circulation");
    };
    take_all(rt, &net, &links, &mut flow, &mut ahead, &mut behind)
}

fn main(rt: HostRuntime) -> anyhow::Result<()> {
    run(&rt)
}
