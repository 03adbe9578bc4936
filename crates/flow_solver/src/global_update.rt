// Global updates of a phase (Goldberg 1997): all potentials fall as far as the excesses need to find their ways to deficits.
//
// The rank of a node says how often it would have to fall by epsilon. A step with room from one node to another adds nothing
// where its reduced cost is negative, and else as much as its start would have to fall until it is. A search backwards from the
// deficits, over buckets of nodes of equal rank (Dial 1969), finds the ranks, until all excesses are reached.
ghost use Rattle.std.specs.Prelude.{◌≡◌, ◌<◌, ◌≤◌, length, IfOk, OnOk, IfSome, All};
ghost use Rattle.flow_solver.specs.Coarse.{IsCoarse, AreRanks};
ghost use Rattle.residual_arcs.specs.Links.{AreLinks};
ghost use Rattle.flow_solver.specs.State.{IsWithin, most_cost};

use crate::coarse::{Coarse, relabelled, set_potential};
use crate::links::link_of;
use bounded_network::{MAX_COST, Network};
use residual_arcs::Links;
use std::alloc::{AllocError, Global};

// The greatest rank: nodes that are further have it too.
const LAST_RANK: u32 = 4095;

// The rank of a node that is not reached.
const UNRANKED: u32 = u32::MAX;

/// A node that waits in a bucket, and one more than the place of the next one there, or 0.
#[derive(Clone, Copy)]
pub struct Waiting {
    pub node: u32,
    pub next: usize,
}

/// The rank of each node, for each rank one more than the place of the first node that waits there, or 0, all that ever waited,
/// the rank that is settled now, and how many nodes with an excess aren't reached yet.
#[derive(Drop)]
pub struct Ranks {
    pub each: Vec<u32>,
    pub first: Vec<usize>,
    pub waiting: Vec<Waiting>,
    pub rank: u32,
    pub missing: u32,
}

// How often the start of a step with the reduced cost has to fall by epsilon until it is negative.
fn falls(reduced: i64, epsilon: i64) -> u32 {
    if reduced < 0 || epsilon < 1 {
        return 0;
    }
    let falls = (reduced as u64 / epsilon as u64).saturating_add(1);
    falls.min(LAST_RANK as u64) as u32
}

// Lets the node wait at the rank.
fn wait_at(net: &Network, ranks: &mut Ranks, node: u32, rank: u32) -> Result<(), AllocError>
    requires ranks { AreRanks net.now ranks.old }
    requires node_in { node < net.now.nodes }
    requires rank_in { rank ≤ 4095 }
    ensures { OnOk result (AreRanks net.now ranks.new) }
{
    let _nodes = net.nodes();
    let next = ranks.first[rank as usize];
    ranks.each[node as usize] = rank;
    ranks.waiting.push(Waiting { node, next })?;
    ranks.first[rank as usize] = ranks.waiting.len();
    Ok(())
}

// Takes the next node of the least rank from those that wait.
fn take_next(net: &Network, ranks: &mut Ranks) -> Option<u32>
    requires ranks { AreRanks net.now ranks.old }
    ensures ranks { AreRanks net.now ranks.new }
    ensures node { IfSome result (λ node. node < net.now.nodes) }
{
    for rank in ranks.rank..LAST_RANK + 1 {
        let first = ranks.first[rank as usize];
        if first > 0 && first <= ranks.waiting.len() {
            let waiting = ranks.waiting[first - 1];
            ranks.first[rank as usize] = waiting.next;
            ranks.rank = rank;
            return Some(waiting.node);
        }
    }
    None
}

// Reaches the node if it has a deficit, and counts it if it has an excess.
fn begin_at(net: &Network, ranks: &mut Ranks, node: u32, excess: i64) -> Result<(), AllocError>
    requires ranks { AreRanks net.now ranks.old }
    requires node_in { node < net.now.nodes }
    ensures { OnOk result (AreRanks net.now ranks.new) }
{
    if excess < 0 {
        return wait_at(net, ranks, node, 0);
    }
    if excess > 0 {
        ranks.missing = ranks.missing.saturating_add(1);
    }
    Ok(())
}

// The ranks where the nodes with a deficit alone are reached.
fn from_deficits(
    alloc: Global,
    net: &Network,
    links: &Links,
    coarse: &Coarse,
) -> Result<Ranks, AllocError>
    requires coarse { IsCoarse net.now links.now coarse.now }
    ensures { IfOk result (λ ranks. AreRanks net.now ranks) }
{
    let mut ranks = Ranks {
        each: vec![in alloc; UNRANKED; net.nodes() as usize]?,
        first: vec![in alloc; 0usize; LAST_RANK as usize + 1]?,
        waiting: Vec::new(alloc),
        rank: 0,
        missing: 0,
    };
    for node in 0..net.nodes() {
        begin_at(net, &mut ranks, node, coarse.excess[node as usize])?;
    }
    Ok(ranks)
}

// Reaches the end of the node's link at the place, if a step with room comes from there.
fn reach_over(
    net: &Network,
    links: &Links,
    coarse: &Coarse,
    ranks: &mut Ranks,
    node: u32,
    place: usize,
) -> Result<(), AllocError>
    requires coarse { IsCoarse net.now links.now coarse.now }
    requires links { AreLinks net.now links.now }
    requires ranks { AreRanks net.now ranks.old }
    requires node_in { node < net.now.nodes }
    requires place_in { place < length links.now.all.items }
    ensures { OnOk result (AreRanks net.now ranks.new) }
{
    let link = link_of(net, links, place);
    let had = ranks.each[link.to as usize];
    if had <= ranks.rank {
        return Ok(());
    }
    let tight = coarse.potentials[node as usize].saturating_add(link.cost);
    let reduced = coarse.potentials[link.to as usize].saturating_sub(tight);
    let rank = ranks
        .rank
        .saturating_add(falls(reduced, coarse.epsilon))
        .min(LAST_RANK);
    let twin = coarse.twins[place];
    if rank >= had || twin >= coarse.left.len() || coarse.left[twin] <= 0 {
        return Ok(());
    }
    wait_at(net, ranks, link.to, rank)
}

// Settles the node: reaches what steps lead to it from.
fn settle(
    net: &Network,
    links: &Links,
    coarse: &Coarse,
    ranks: &mut Ranks,
    node: u32,
) -> Result<(), AllocError>
    requires coarse { IsCoarse net.now links.now coarse.now }
    requires links { AreLinks net.now links.now }
    requires ranks { AreRanks net.now ranks.old }
    requires node_in { node < net.now.nodes }
    ensures { OnOk result (AreRanks net.now ranks.new) }
{
    if ranks.each[node as usize] < ranks.rank {
        return Ok(());
    }
    if coarse.excess[node as usize] > 0 {
        ranks.missing = ranks.missing.saturating_sub(1);
    }
    for place in links.starts[node as usize]..links.starts[node as usize + 1] {
        reach_over(net, links, coarse, ranks, node, place)?;
    }
    Ok(())
}

// The ranks of the nodes, as far as excesses are.
fn ranks_of(
    alloc: Global,
    net: &Network,
    links: &Links,
    coarse: &Coarse,
) -> Result<Ranks, AllocError>
    requires coarse { IsCoarse net.now links.now coarse.now }
    requires links { AreLinks net.now links.now }
    ensures { IfOk result (λ ranks. AreRanks net.now ranks) }
{
    let mut ranks = from_deficits(alloc, net, links, coarse)?;
    for _settled in 0..net.nodes() as usize + 2 * net.arcs().len() {
        if ranks.missing == 0 {
            break;
        }
        match take_next(net, &mut ranks) {
            Some(node) => settle(net, links, coarse, &mut ranks, node)?,
            None => break,
        }
    }
    Ok(ranks)
}

// A node's potential once it has fallen by its rank, or as far as the search came. Where some excesses can't find any way, what
// wasn't reached falls to the bottom, so that those rest there.
fn fallen(potential: i64, epsilon: i64, ranks: &Ranks, rank: u32) -> i64
    ensures { IsWithin most_cost result }
{
    if rank == UNRANKED && ranks.missing > 0 {
        return -MAX_COST;
    }
    let falls = rank.min(ranks.rank) as i64;
    relabelled(potential, epsilon.saturating_mul(falls))
}

/// Lowers all potentials as far as the excesses need.
pub fn update_globally(
    alloc: Global,
    net: &Network,
    links: &Links,
    coarse: &mut Coarse,
) -> Result<(), AllocError>
    requires coarse { IsCoarse net.now links.now coarse.old }
    requires links { AreLinks net.now links.now }
    ensures { OnOk result (IsCoarse net.now links.now coarse.new) }
{
    let ranks = ranks_of(alloc, net, links, coarse)?;
    for node in 0..net.nodes() {
        let potential = coarse.potentials[node as usize];
        let value = fallen(potential, coarse.epsilon, &ranks, ranks.each[node as usize]);
        set_potential(net, links, coarse, node, value);
    }
    coarse.relabels = 0;
    Ok(())
}
