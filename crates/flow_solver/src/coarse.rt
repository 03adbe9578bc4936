// A phase of cost scaling: its steps.
//
// Excesses are pushed over links with a negative reduced cost, and a node that has no such link is relabelled, to a
// potential lower by epsilon than it must be to have one. Nothing is proved of the amounts: those that would be too large
// stop at their bounds.
ghost use Rattle.std.specs.Prelude.{◌≡◌, ◌<◌, length, ℕ, IfOk, OnOk, All};
ghost use Rattle.bounded_network.specs.Network.{potential_at};
ghost use Rattle.flow_solver.specs.Coarse.{IsCoarse};
ghost use Rattle.flow_solver.specs.Costs.{IsGreatestCost};
ghost use Rattle.residual_arcs.specs.Links.{AreLinks};
ghost use Rattle.flow_solver.specs.State.{IsWithin, most_cost};

use crate::links::link_of;
use crate::twins::twins_of;
use bounded_network::{MAX_COST, Network};
use residual_arcs::{Links, arc_count, arc_of};
use std::alloc::{AllocError, Global};

/// For each link how much more it takes and the place of its twin, the excesses and potentials of a phase, for each node the
/// next of its links to push over, the nodes that have an excess, and how many were relabelled since the last global update.
#[derive(Drop)]
pub struct Coarse {
    pub epsilon: i64,
    pub left: Vec<i64>,
    pub twins: Vec<usize>,
    pub excess: Vec<i64>,
    pub potentials: Vec<i64>,
    pub next: Vec<usize>,
    pub active: Vec<u32>,
    pub relabels: usize,
}

/// The greatest magnitude of a cost.
pub fn greatest_cost(net: &Network) -> u64
    ensures { IsGreatestCost net.now result }
{
    let mut greatest: u64 = 0;
    for place in 0..arc_count(net) {
        greatest = arc_of(net, place).cost.unsigned_abs().max(greatest);
    }
    greatest
}

// How much more each link takes where each arc carries its floor.
fn lefts_at_floors(alloc: Global, net: &Network, links: &Links) -> Result<Vec<i64>, AllocError>
    requires links { AreLinks net.now links.now }
    ensures { IfOk result (λ left. length left.items ≡ length links.now.all.items) }
{
    let mut left = Vec::with_capacity(alloc, links.all.len())?;
    for place in 0..links.all.len() {
        let step = link_of(net, links, place).step;
        let arc = arc_of(net, step.arc);
        left.push(if step.forward {
            arc.room as i64 - arc.floor as i64
        } else {
            0
        })?;
    }
    Ok(left)
}

// The excess of each node where each arc carries its floor.
fn excess_at_floors(alloc: Global, net: &Network) -> Result<Vec<i64>, AllocError>
    ensures { IfOk result (λ excess. length excess.items ≡ net.now.nodes) }
{
    let mut excess = vec![in alloc; 0i64; net.nodes() as usize]?;
    for place in 0..arc_count(net) {
        let arc = arc_of(net, place);
        let floor = arc.floor as i64;
        excess[arc.tail as usize] = excess[arc.tail as usize].saturating_sub(floor);
        excess[arc.head as usize] = excess[arc.head as usize].saturating_add(floor);
    }
    Ok(excess)
}

/// Where each arc carries its floor, at the potentials.
pub fn coarse_at(
    alloc: Global,
    net: &Network,
    links: &Links,
    potentials: Vec<i64>,
) -> Result<Coarse, AllocError>
    requires links { AreLinks net.now links.now }
    requires long { length potentials.items ≡ net.now.nodes }
    requires small { (v : ℕ) → IsWithin most_cost (potential_at potentials.items v) }
    ensures { IfOk result (λ coarse. IsCoarse net.now links.now coarse) }
{
    let _nodes = net.nodes();
    Ok(Coarse {
        epsilon: MAX_COST,
        left: lefts_at_floors(alloc, net, links)?,
        twins: twins_of(alloc, net, links)?,
        excess: excess_at_floors(alloc, net)?,
        potentials,
        next: links.starts.as_slice().to_vec(alloc)?,
        active: Vec::new(alloc),
        relabels: 0,
    })
}

/// The potential of its node at which the link at the place is tight: its reduced cost is 0.
fn tight_potential(net: &Network, links: &Links, coarse: &Coarse, place: usize) -> i64
    requires coarse { IsCoarse net.now links.now coarse.now }
    requires links { AreLinks net.now links.now }
    requires place_in { place < length links.now.all.items }
{
    let link = link_of(net, links, place);
    coarse.potentials[link.to as usize].saturating_sub(link.cost)
}

// Moves the amount from the excess of a node to that of another, which is active once it has some.
fn give(
    net: &Network,
    links: &Links,
    coarse: &mut Coarse,
    from: u32,
    to: u32,
    amount: i64,
) -> Result<(), AllocError>
    requires coarse { IsCoarse net.now links.now coarse.old }
    requires from_in { from < net.now.nodes }
    requires to_in { to < net.now.nodes }
    ensures { OnOk result (IsCoarse net.now links.now coarse.new) }
{
    let had = coarse.excess[to as usize];
    let has = had.saturating_add(amount);
    coarse.excess[to as usize] = has;
    coarse.excess[from as usize] = coarse.excess[from as usize].saturating_sub(amount);
    if had <= 0 && has > 0 {
        coarse.active.push(to)?;
    }
    Ok(())
}

// Pushes the amount over the node's link at the place, if that takes it.
fn push_over(
    net: &Network,
    links: &Links,
    coarse: &mut Coarse,
    node: u32,
    place: usize,
    wanted: i64,
) -> Result<(), AllocError>
    requires coarse { IsCoarse net.now links.now coarse.old }
    requires links { AreLinks net.now links.now }
    requires node_in { node < net.now.nodes }
    requires place_in { place < length links.now.all.items }
    ensures { OnOk result (IsCoarse net.now links.now coarse.new) }
{
    let to = link_of(net, links, place).to;
    let left = coarse.left[place];
    let amount = left.min(wanted);
    coarse.left[place] = left.saturating_sub(amount);
    let twin = coarse.twins[place];
    if twin < coarse.left.len() {
        coarse.left[twin] = coarse.left[twin].saturating_add(amount);
    }
    give(net, links, coarse, node, to, amount)
}

// Pushes all that the node's link at the place takes, if its reduced cost is negative.
fn saturate(
    net: &Network,
    links: &Links,
    coarse: &mut Coarse,
    node: u32,
    place: usize,
) -> Result<(), AllocError>
    requires coarse { IsCoarse net.now links.now coarse.old }
    requires links { AreLinks net.now links.now }
    requires node_in { node < net.now.nodes }
    requires place_in { place < length links.now.all.items }
    ensures { OnOk result (IsCoarse net.now links.now coarse.new) }
{
    let tight = tight_potential(net, links, coarse, place);
    if coarse.left[place] <= 0 || tight <= coarse.potentials[node as usize] {
        return Ok(());
    }
    push_over(net, links, coarse, node, place, i64::MAX)
}

// Pushes all that the node's links of negative reduced cost take.
fn saturate_from(
    net: &Network,
    links: &Links,
    coarse: &mut Coarse,
    node: u32,
) -> Result<(), AllocError>
    requires coarse { IsCoarse net.now links.now coarse.old }
    requires links { AreLinks net.now links.now }
    requires node_in { node < net.now.nodes }
    ensures { OnOk result (IsCoarse net.now links.now coarse.new) }
{
    for place in links.starts[node as usize]..links.starts[node as usize + 1] {
        saturate(net, links, coarse, node, place)?;
    }
    Ok(())
}

// The nodes with an excess.
fn active_nodes(alloc: Global, net: &Network, excess: &[i64]) -> Result<Vec<u32>, AllocError>
    requires { length excess.now ≡ net.now.nodes }
    ensures { IfOk result (λ nodes. All (λ v. v < net.now.nodes) nodes.items) }
{
    let mut nodes = Vec::new(alloc);
    for node in 0..net.nodes() {
        if excess[node as usize] > 0 {
            nodes.push(node)?;
        }
    }
    Ok(nodes)
}

/// Begins a phase: what links of negative reduced cost take is pushed over them.
pub fn begin_phase(
    alloc: Global,
    net: &Network,
    links: &Links,
    coarse: &mut Coarse,
    epsilon: i64,
) -> Result<(), AllocError>
    requires coarse { IsCoarse net.now links.now coarse.old }
    requires links { AreLinks net.now links.now }
    ensures { OnOk result (IsCoarse net.now links.now coarse.new) }
{
    for node in 0..net.nodes() {
        saturate_from(net, links, coarse, node)?;
    }
    coarse.epsilon = epsilon;
    coarse.active = active_nodes(alloc, net, &coarse.excess)?;
    coarse.relabels = 0;
    Ok(())
}

// Pushes the node's excess over its link at the place, if that has room and a negative reduced cost. Where it has room and no
// negative one, says the potential at which it is tight, or the best if that is greater.
fn push_or_note(
    net: &Network,
    links: &Links,
    coarse: &mut Coarse,
    node: u32,
    place: usize,
    best: i64,
) -> Result<i64, AllocError>
    requires coarse { IsCoarse net.now links.now coarse.old }
    requires links { AreLinks net.now links.now }
    requires node_in { node < net.now.nodes }
    requires place_in { place < length links.now.all.items }
    ensures { OnOk result (IsCoarse net.now links.now coarse.new) }
{
    if coarse.left[place] <= 0 {
        return Ok(best);
    }
    let tight = tight_potential(net, links, coarse, place);
    if tight <= coarse.potentials[node as usize] {
        return Ok(best.max(tight));
    }
    let has = coarse.excess[node as usize];
    push_over(net, links, coarse, node, place, has)?;
    Ok(best)
}

// Pushes the node's excess over its links from the next on, until it has none or they are at their end. Of those with room
// whose reduced cost isn't negative, says the greatest potential at which one is tight.
fn push_excess(
    net: &Network,
    links: &Links,
    coarse: &mut Coarse,
    node: u32,
) -> Result<i64, AllocError>
    requires coarse { IsCoarse net.now links.now coarse.old }
    requires links { AreLinks net.now links.now }
    requires node_in { node < net.now.nodes }
    ensures { OnOk result (IsCoarse net.now links.now coarse.new) }
{
    let mut best = i64::MIN;
    for place in coarse.next[node as usize]..links.starts[node as usize + 1] {
        best = push_or_note(net, links, coarse, node, place, best)?;
        if coarse.excess[node as usize] <= 0 {
            coarse.next[node as usize] = place;
            return Ok(best);
        }
    }
    Ok(best)
}

// The greatest potential at which one of the node's links before the next, with room, is tight, or the best if that is greater.
fn best_before(net: &Network, links: &Links, coarse: &Coarse, node: u32, best: i64) -> i64
    requires coarse { IsCoarse net.now links.now coarse.now }
    requires links { AreLinks net.now links.now }
    requires node_in { node < net.now.nodes }
{
    let end = coarse.next[node as usize].min(links.starts[node as usize + 1]);
    let mut best = best;
    for place in links.starts[node as usize]..end {
        if coarse.left[place] > 0 {
            best = best.max(tight_potential(net, links, coarse, place));
        }
    }
    best
}

/// The best potential less epsilon, within the greatest cost.
pub fn relabelled(best: i64, epsilon: i64) -> i64
    ensures { IsWithin most_cost result }
{
    let wanted = best.saturating_sub(epsilon);
    if wanted < -MAX_COST {
        -MAX_COST
    } else if wanted > MAX_COST {
        MAX_COST
    } else {
        wanted
    }
}

/// Gives the node the potential, with all its links to push over again.
pub fn set_potential(net: &Network, links: &Links, coarse: &mut Coarse, node: u32, value: i64)
    requires coarse { IsCoarse net.now links.now coarse.old }
    requires links { AreLinks net.now links.now }
    requires node_in { node < net.now.nodes }
    requires small { IsWithin most_cost value }
    ensures { IsCoarse net.now links.now coarse.new }
{
    coarse.potentials[node as usize] = value;
    coarse.next[node as usize] = links.starts[node as usize];
}

// Relabels the node, so that it has a link of negative reduced cost. Where that would be below the least potential,
// it keeps its excess.
fn relabel(
    net: &Network,
    links: &Links,
    coarse: &mut Coarse,
    node: u32,
    best: i64,
) -> Result<(), AllocError>
    requires coarse { IsCoarse net.now links.now coarse.old }
    requires links { AreLinks net.now links.now }
    requires node_in { node < net.now.nodes }
    ensures { OnOk result (IsCoarse net.now links.now coarse.new) }
{
    let value = relabelled(best, coarse.epsilon);
    if value < coarse.potentials[node as usize] {
        set_potential(net, links, coarse, node, value);
        coarse.relabels = coarse.relabels.saturating_add(1);
        coarse.active.push(node)?;
    }
    Ok(())
}

/// Discharges the node: pushes its excess, and relabels it where some is left.
pub fn discharge(
    net: &Network,
    links: &Links,
    coarse: &mut Coarse,
    node: u32,
) -> Result<(), AllocError>
    requires coarse { IsCoarse net.now links.now coarse.old }
    requires links { AreLinks net.now links.now }
    requires node_in { node < net.now.nodes }
    ensures { OnOk result (IsCoarse net.now links.now coarse.new) }
{
    if coarse.excess[node as usize] <= 0 {
        return Ok(());
    }
    let best = push_excess(net, links, coarse, node)?;
    if coarse.excess[node as usize] > 0 {
        let best = best_before(net, links, coarse, node, best);
        relabel(net, links, coarse, node, best)?;
    }
    Ok(())
}
