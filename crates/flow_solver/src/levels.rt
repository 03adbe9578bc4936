// How far the nodes are from a deficit, over steps of reduced cost 0.
ghost use Rattle.std.specs.Prelude.{◌≡◌, ◌<◌, ◌↔◌, length, pos, IfOk, OnOk, IsTrue, All};
ghost use Rattle.flow_solver.specs.Blocking.{AreLevels};
ghost use Rattle.flow_solver.specs.Links.{IsLinkWithin, reduced_over};
ghost use Rattle.residual_arcs.specs.Links.{AreLinks};

use crate::links::link_of;
use crate::push::cancels;
use crate::state::{State, left_at};
use bounded_network::Network;
use residual_arcs::{Link, Links, Step};
use std::alloc::{AllocError, Global};

/// The level of a node that is not reached.
pub const NO_LEVEL: u32 = u32::MAX;

/// How many steps of reduced cost 0 lead from each node to a deficit, and the nodes that are reached, the nearest first.
#[derive(Drop)]
pub struct Levels {
    pub each: Vec<u32>,
    pub reached: Vec<u32>,
}

/// Whether the reduced cost of the node's link is 0. Then its step is admissible where it can carry more, and so is the step
/// back over it.
pub fn is_admissible(state: &State<'_>, node: u32, link: Link) -> bool
    requires node_in { node < state.now.network.now.nodes }
    requires link { IsLinkWithin state.now.network.now link }
    ensures { IsTrue result ↔ (reduced_over state.now.potentials.items node link ≡ pos 0) }
{
    let from = state.potentials[node as usize];
    let to = state.potentials[link.to as usize];
    cancels(link.cost, from, to)
}

// Notes the level of a node.
fn reach(net: &Network, levels: &mut Levels, node: u32, level: u32) -> Result<(), AllocError>
    requires levels { AreLevels net.now levels.old }
    requires node_in { node < net.now.nodes }
    ensures { OnOk result (AreLevels net.now levels.new) }
{
    let _nodes = net.nodes();
    levels.each[node as usize] = level;
    levels.reached.push(node)?;
    Ok(())
}

// Reaches the node that the link leads to, if a step of reduced cost 0 with room comes from there.
fn reach_by(state: &State<'_>, levels: &mut Levels, node: u32, link: Link) -> Result<(), AllocError>
    requires levels { AreLevels state.now.network.now levels.old }
    requires node_in { node < state.now.network.now.nodes }
    requires link { IsLinkWithin state.now.network.now link }
    ensures { OnOk result (AreLevels state.now.network.now levels.new) }
{
    let seen = levels.each[link.to as usize] != NO_LEVEL;
    if seen || !is_admissible(state, node, link) {
        return Ok(());
    }
    let back = Step {
        arc: link.step.arc,
        forward: !link.step.forward,
    };
    if left_at(state, back) == 0 {
        return Ok(());
    }
    let level = levels.each[node as usize].saturating_add(1);
    reach(state.network, levels, link.to, level)
}

// Reaches all nodes from which a step leads to the node.
fn reach_from(
    links: &Links,
    state: &State<'_>,
    levels: &mut Levels,
    node: u32,
) -> Result<(), AllocError>
    requires links { AreLinks state.now.network.now links.now }
    requires levels { AreLevels state.now.network.now levels.old }
    requires node_in { node < state.now.network.now.nodes }
    ensures { OnOk result (AreLevels state.now.network.now levels.new) }
{
    for place in links.starts[node as usize]..links.starts[node as usize + 1] {
        let link = link_of(state.network, links, place);
        reach_by(state, levels, node, link)?;
    }
    Ok(())
}

// The nodes with a deficit, which are at level 0.
fn deficits(alloc: Global, state: &State<'_>) -> Result<Levels, AllocError>
    ensures { IfOk result (λ levels. AreLevels state.now.network.now levels) }
{
    let mut levels = Levels {
        each: vec![in alloc; NO_LEVEL; state.network.nodes() as usize]?,
        reached: Vec::new(alloc),
    };
    for node in 0..state.network.nodes() {
        if state.excess[node as usize] < 0 {
            reach(state.network, &mut levels, node, 0)?;
        }
    }
    Ok(levels)
}

/// The levels of all nodes. Each is reached once, so that as many rounds as there are nodes are enough.
pub fn levels_of(alloc: Global, links: &Links, state: &State<'_>) -> Result<Levels, AllocError>
    requires links { AreLinks state.now.network.now links.now }
    ensures { IfOk result (λ levels. AreLevels state.now.network.now levels) }
{
    let mut levels = deficits(alloc, state)?;
    for place in 0..state.network.nodes() as usize {
        if place >= levels.reached.len() {
            break;
        }
        let node = levels.reached[place];
        reach_from(links, state, &mut levels, node)?;
    }
    Ok(levels)
}
