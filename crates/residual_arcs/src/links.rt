// The steps that leave each node, side by side.
ghost use Rattle.std.specs.Prelude.{◌≡◌, ◌+◌, ◌-◌, ◌<◌, length, slice_index, IfOk, OnOk, ℕ};
ghost use Rattle.bounded_network.specs.Network.{arc_at};
ghost use Rattle.residual_arcs.specs.Chains.{AreChains};
ghost use Rattle.residual_arcs.specs.Links.{IsLink, AreLinks, start_at};
ghost use Rattle.residual_arcs.specs.Adding.{Adds, AddsFrom};

use crate::chains::{Chains, bound_before, chains_of, last_bound};
use crate::step::{Step, arc_of, cost, end, start};
use bounded_network::Network;
use std::alloc::{AllocError, Global};

/// A step that leaves a node, the node where it ends, and what a unit costs that it carries.
#[derive(Clone, Copy)]
pub struct Link {
    pub step: Step,
    pub to: u32,
    pub cost: i64,
}

/// The steps that leave each node, over the arcs whose floor is below their room: those of a node stand in `all` from its
/// start to the start of the next one. Where the steps that enter a node are wanted, they are those that leave it, turned.
#[derive(Drop)]
pub struct Links {
    pub all: Vec<Link>,
    pub starts: Vec<usize>,
}

// The step with its end and its cost.
fn link_over(net: &Network, step: Step) -> Link
    requires arc_in { step.arc < length net.now.arcs }
    requires choice { (arc_at net.now step.arc).floor < (arc_at net.now step.arc).room }
    ensures link { IsLink net.now result }
    ensures step { result.step ≡ step }
{
    let arc = arc_of(net, step.arc);
    Link {
        step,
        to: end(arc, step.forward),
        cost: cost(arc, step.forward),
    }
}

// Adds the step if it leaves the node, and its arc has a choice.
fn add_step(net: &Network, all: &mut Vec<Link>, node: u32, step: Step) -> Result<(), AllocError>
    requires arc_in { step.arc < length net.now.arcs }
    ensures adds { OnOk result (Adds net.now node step all.old.items all.new.items) }
{
    let arc = arc_of(net, step.arc);
    if arc.floor < arc.room && start(arc, step.forward) == node {
        all.push(link_over(net, step))?;
    }
    Ok(())
}

// Adds the steps that leave the node.
fn add_links(
    net: &Network,
    chains: &Chains,
    all: &mut Vec<Link>,
    node: u32,
) -> Result<(), AllocError>
    requires chains { AreChains net.now chains.now }
    requires node_in { node < net.now.nodes }
    ensures adds { OnOk result (AddsFrom net.now node 0 all.old.items all.new.items) }
{
    let mut bound = last_bound(net, chains, node);
    while bound > 0 {
        let place = bound - 1;
        add_step(
            net,
            all,
            node,
            Step {
                arc: place,
                forward: true,
            },
        )?;
        add_step(
            net,
            all,
            node,
            Step {
                arc: place,
                forward: false,
            },
        )?;
        bound = bound_before(net, chains, node, place);
    }
    Ok(())
}

/// The steps that leave each node of a network.
pub fn links_of(alloc: Global, net: &Network) -> Result<Links, AllocError>
    ensures { IfOk result (λ links. AreLinks net.now links) }
{
    let chains = chains_of(alloc, net)?;
    let mut all = Vec::with_capacity(alloc, 2 * net.arcs().len())?;
    let mut starts = Vec::with_capacity(alloc, net.nodes() as usize + 1)?;
    starts.push(0)?;
    for node in 0..net.nodes() {
        add_links(net, &chains, &mut all, node)?;
        starts.push(all.len())?;
    }
    Ok(Links { all, starts })
}

/// The number of steps that leave the node.
pub fn degree_of(net: &Network, links: &Links, node: u32) -> usize
    requires links { AreLinks net.now links.now }
    requires node_in { node < net.now.nodes }
    ensures { result ≡ slice_index links.now.starts.items (node + 1) - slice_index links.now.starts.items node }
{
    links.starts[node as usize + 1].saturating_sub(links.starts[node as usize])
}
