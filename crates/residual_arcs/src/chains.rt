// The arcs at each node.
ghost use Rattle.std.specs.Prelude.{◌≡◌, ◌<◌, ◌≤◌, ◌⊎◌, length, ℕ, IfOk};
ghost use Rattle.residual_arcs.specs.Chains.{AreChains, IsBound};
ghost use Rattle.bounded_network.specs.Network.{arc_at};

use crate::step::{arc_count, arc_of};
use bounded_network::Network;
use std::alloc::{AllocError, Global};

/// The arcs at each node, as chains from the last arc to the first. A bound is one more than the place of an arc, and 0
/// where there is none.
#[derive(Drop)]
pub struct Chains {
    pub last: Vec<u32>,
    pub before_tail: Vec<u32>,
    pub before_head: Vec<u32>,
}

/// The chains of a network.
pub fn chains_of(alloc: Global, net: &Network) -> Result<Chains, AllocError>
    ensures { IfOk result (λ chains. AreChains net.now chains) }
{
    let count = arc_count(net);
    let mut last = vec![in alloc; 0u32; net.nodes() as usize]?;
    let mut before_tail = Vec::with_capacity(alloc, count as usize)?;
    let mut before_head = Vec::with_capacity(alloc, count as usize)?;
    for place in 0..count {
        let arc = arc_of(net, place);
        before_tail.push(last[arc.tail as usize])?;
        before_head.push(last[arc.head as usize])?;
        last[arc.tail as usize] = place + 1;
        last[arc.head as usize] = place + 1;
    }
    Ok(Chains {
        last,
        before_tail,
        before_head,
    })
}

/// One more than the place of the last arc at the node, or 0.
pub fn last_bound(net: &Network, chains: &Chains, node: u32) -> u32
    requires chains { AreChains net.now chains.now }
    requires node_in { node < net.now.nodes }
    ensures { IsBound net.now node (length net.now.arcs) result }
{
    chains.last[node as usize]
}

/// One more than the place of the last arc at the node before the arc at the place, which has the node for an end, or 0.
pub fn bound_before(net: &Network, chains: &Chains, node: u32, place: u32) -> u32
    requires chains { AreChains net.now chains.now }
    requires place_in { place < length net.now.arcs }
    requires at { ((arc_at net.now place).tail ≡ node) ⊎ ((arc_at net.now place).head ≡ node) }
    ensures { IsBound net.now node place result }
{
    if arc_of(net, place).tail == node {
        chains.before_tail[place as usize]
    } else {
        chains.before_head[place as usize]
    }
}
