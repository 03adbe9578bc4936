// The state that the solver starts from.
ghost use Rattle.std.specs.Prelude.{◌≡◌, ◌+◌, ◌*◌, ◌^◌, ◌<◌, ◌≤◌, length, ℕ, ℤ, ◌≤ℤ◌, ◌+ℤ◌, ◌-ℤ◌, slice_index, IfOk, neg_ℤ};
ghost use Rattle.bounded_network.specs.Network.{IsArc, IsNetwork, arc_at, potential_at, reduced_cost};
ghost use Rattle.bounded_network.specs.declared.network.TheConstants.{MAX_COST};
ghost use Rattle.flow_solver.specs.Calm.{IsCalm};
ghost use Rattle.flow_solver.specs.State.{IsWithin, Suits, AllSuit, AreExcesses, most_cost};

use crate::state::{State, shift};
use bounded_network::{Arc, Network};
use residual_arcs::{arc_count, arc_of};
use std::alloc::{AllocError, Global};

// The room where the reduced cost is negative, and else the floor.
fn first_amount(arc: Arc, tail: i64, head: i64) -> u64
    requires bounds { arc.floor ≤ arc.room }
    requires cost_low { neg_ℤ MAX_COST ≤ℤ arc.cost }
    requires cost_high { arc.cost ≤ℤ MAX_COST }
    requires tail_small { IsWithin most_cost tail }
    requires head_small { IsWithin most_cost head }
    ensures { Suits arc ((arc.cost +ℤ tail) -ℤ head) result }
{
    if arc.cost + tail - head < 0 {
        arc.room
    } else {
        arc.floor
    }
}

// The amount that the arc at the place starts with.
fn amount_from(net: &Network, potentials: &[i64], place: u32) -> u64
    requires place_in { place < length net.now.arcs }
    requires long { length potentials.now ≡ net.now.nodes }
    requires small { (v : ℕ) → v < net.now.nodes → IsWithin most_cost (potential_at potentials.now v) }
    ensures { Suits (arc_at net.now place) (reduced_cost net.now potentials.now place) result }
{
    let arc = arc_of(net, place);
    first_amount(
        arc,
        potentials[arc.tail as usize],
        potentials[arc.head as usize],
    )
}

// Amounts at which no arc has a negative reduced cost that it could follow.
fn first_flow(alloc: Global, net: &Network, potentials: &[i64]) -> Result<Vec<u64>, AllocError>
    requires long { length potentials.now ≡ net.now.nodes }
    requires small { (v : ℕ) → v < net.now.nodes → IsWithin most_cost (potential_at potentials.now v) }
    ensures { IfOk result (λ flow. AllSuit net.now flow.items potentials.now) }
{
    let count = arc_count(net);
    let mut flow = Vec::with_capacity(alloc, count as usize)?;
    for place in 0..count {
        flow.push(amount_from(net, potentials, place))?;
    }
    Ok(flow)
}

// The excess of each node.
fn first_excess(alloc: Global, net: &Network, flow: &[u64]) -> Result<Vec<i128>, AllocError>
    requires long { length flow.now ≡ length net.now.arcs }
    requires rooms { (a : ℕ) → a < length net.now.arcs → slice_index flow.now a ≤ (arc_at net.now a).room }
    ensures { IfOk result (λ excess. AreExcesses net.now flow.now excess.items) }
{
    let mut excess = vec![in alloc; 0i128; net.nodes() as usize]?;
    for place in 0..arc_count(net) {
        let arc = arc_of(net, place);
        shift(&mut excess, arc.tail, arc.head, flow[place as usize]);
    }
    Ok(excess)
}

/// The state at the potentials, with each arc at its room or its floor.
pub fn start_at<'a>(
    alloc: Global,
    net: &'a Network,
    potentials: Vec<i64>,
) -> Result<State<'a>, AllocError>
    requires long { length potentials.items ≡ net.now.nodes }
    requires small { (v : ℕ) → v < net.now.nodes → IsWithin most_cost (potential_at potentials.items v) }
    ensures network { IfOk result (λ state. state.network.now ≡ net.now) }
    ensures potentials { IfOk result (λ state. state.potentials.items ≡ potentials.items) }
    ensures calm { IfOk result IsCalm }
{
    let _nodes = net.nodes();
    let flow = first_flow(alloc, net, &potentials)?;
    let excess = first_excess(alloc, net, &flow)?;
    Ok(State {
        network: net,
        flow,
        excess,
        potentials,
    })
}
