// The search for the nearest node with a deficit.
ghost use Rattle.std.specs.Prelude.{◌≡◌, ◌≢◌, ◌+◌, ◌-◌, ◌^◌, ◌<◌, ◌≤◌, ◌⊎◌, [], ◌∷◌, ◌++◌, length, ℕ, ℤ, pos, ◌+ℤ◌, ◌-ℤ◌, ◌≤ℤ◌, ◌<ℤ◌, IfOk, IfSome, IfNone, OnOk, IsTrue, Bool, true, false, slice_set, slice_index};
ghost use Rattle.std.specs.Bool.{OnTrue, OnFalse};
ghost use Rattle.std.specs.BinaryHeap.{heap_items, heap_len};
ghost use Rattle.bounded_network.specs.Network.{NetworkValue, IsNetwork, arc_at, potential_at};
ghost use Rattle.residual_arcs.specs.Links.{AreLinks, IsLink, start_at};
ghost use Rattle.flow_solver.specs.Queue.{Waits};
ghost use Rattle.flow_solver.specs.State.{IsWithin, excess_at, most_cost};
ghost use Rattle.residual_arcs.specs.Step.{start_of, end_of, step_cost, left_on};
ghost use Rattle.flow_solver.specs.Step.{step_reduced};
ghost use Rattle.flow_solver.specs.Search.{IsSearch, IsRelaxed, IsRelaxedFrom, Relaxes, IsReach, SameTree, IsFound, IsClosed, distance_at, reach_at, is_settled};

use crate::queue::{Queue, pop, push};
use crate::state::{State, left_at};
use residual_arcs::{Link, Links, Step};
use std::alloc::AllocError;

/// The distance of a node that is not reached.
pub const UNREACHED: u64 = u64::MAX;

/// How a node is reached: from the node at a place of the tree, by a step, and how much can be carried on the path.
#[derive(Clone, Copy)]
pub struct Reach {
    pub node: u32,
    pub from: u32,
    pub step: Step,
    pub width: u64,
}

/// A search from a source: the settled nodes as a tree, each with its distance by reduced costs, and the nodes that wait.
#[derive(Drop)]
pub struct Search {
    pub source: u32,
    pub node: u32,
    pub tree: Vec<Reach>,
    pub reaches: Vec<Reach>,
    pub distances: Vec<u64>,
    pub settled: Vec<bool>,
    pub queue: Queue,
}

// The reduced cost of a step from its cost and the potentials at its ends.
fn reduced(cost: i64, from: i64, to: i64) -> i64
    requires cost_small { IsWithin most_cost cost }
    requires from_small { IsWithin (2 ^ 52) from }
    requires to_small { IsWithin (2 ^ 52) to }
    ensures { result ≡ (cost +ℤ from) -ℤ to }
{
    cost + from - to
}

// The reduced cost of the link's step, from the node that was settled last.
fn reduced_over(state: &State<'_>, search: &Search, link: Link) -> i64
    requires node_in { search.now.node < state.now.network.now.nodes }
    requires link { IsLink state.now.network.now link }
    requires starts { start_at state.now.network.now link ≡ search.now.node }
    ensures { result ≡ step_reduced (arc_at state.now.network.now link.step.arc) link.step.forward state.now.potentials.items }
{
    let from = state.potentials[search.node as usize];
    let to = state.potentials[link.to as usize];
    reduced(link.cost, from, to)
}

// The distance of the link's end by way of its step, from the node that was settled last.
fn over(state: &State<'_>, search: &Search, link: Link, reduced: u64) -> u64
    requires search { IsSearch state.now search.now }
    requires link { IsLink state.now.network.now link }
    requires starts { start_at state.now.network.now link ≡ search.now.node }
    requires reduced { pos reduced ≡ step_reduced (arc_at state.now.network.now link.step.arc) link.step.forward state.now.potentials.items }
    ensures { pos result ≡ pos (distance_at search.now.distances.items search.now.node) +ℤ step_reduced (arc_at state.now.network.now link.step.arc) link.step.forward state.now.potentials.items }
{
    search.distances[search.node as usize] + reduced
}

// Notes that the node is reached at the distance.
fn note(search: &mut Search, to: u32, distance: u64, reach: Reach) -> Result<(), AllocError>
    requires distances_in { to < length search.old.distances.items }
    requires reaches_in { to < length search.old.reaches.items }
    ensures same { OnOk result (SameTree search.old search.new) }
    ensures distances { OnOk result (search.new.distances.items ≡ slice_set search.old.distances.items to distance) }
    ensures reaches { OnOk result (search.new.reaches.items ≡ slice_set search.old.reaches.items to reach) }
    ensures added { OnOk result (Waits (heap_items search.new.queue.waiting) distance to) }
    ensures kept { OnOk result ((d v : ℕ) → Waits (heap_items search.old.queue.waiting) d v → Waits (heap_items search.new.queue.waiting) d v) }
    ensures only { OnOk result ((d v : ℕ) → Waits (heap_items search.new.queue.waiting) d v → Waits (heap_items search.old.queue.waiting) d v ⊎ ((d ≡ distance) × (v ≡ to))) }
{
    search.distances[to as usize] = distance;
    search.reaches[to as usize] = reach;
    push(&mut search.queue, distance, to)
}

// How the step's end is reached by the step.
fn by(search: &Search, step: Step, to: u32, left: u64) -> Reach
    requires some { 0 < length search.now.tree.items }
    requires few { length search.now.tree.items < 2 ^ 32 }
    ensures node { result.node ≡ to }
    ensures from { result.from ≡ length search.now.tree.items - 1 }
    ensures step { result.step ≡ step }
    ensures left { result.width ≤ left }
    ensures narrow { result.width ≤ (reach_at search.now.tree.items (length search.now.tree.items - 1)).width }
    ensures width { 0 < left → 0 < (reach_at search.now.tree.items (length search.now.tree.items - 1)).width → 0 < result.width }
{
    let place = search.tree.len() - 1;
    Reach {
        node: to,
        from: place as u32,
        step,
        width: search.tree[place].width.min(left),
    }
}

// Notes that the link's end is reached by its step at the distance, if it isn't reached nearer and something is left on the
// step. That is asked last, since most steps lead to no nearer node.
fn reach_over(
    state: &State<'_>,
    search: &mut Search,
    link: Link,
    distance: u64,
) -> Result<(), AllocError>
    requires search { IsSearch state.now search.old }
    requires link { IsLink state.now.network.now link }
    requires starts { start_at state.now.network.now link ≡ search.old.node }
    requires distance { pos distance ≡ pos (distance_at search.old.distances.items search.old.node) +ℤ step_reduced (arc_at state.now.network.now link.step.arc) link.step.forward state.now.potentials.items }
    ensures relaxes { OnOk result (Relaxes state.now search.old search.new) }
    ensures relaxed { OnOk result (IsRelaxed state.now search.new.distances.items search.old.node link.step.arc link.step.forward) }
{
    if distance >= search.distances[link.to as usize] {
        return Ok(());
    }
    let left = left_at(state, link.step);
    if left == 0 {
        return Ok(());
    }
    let reach = by(search, link.step, link.to, left);
    note(search, link.to, distance, reach)?;
    Ok(())
}

// Relaxes the link's step, from the node that was settled last. Where the reduced cost is negative, nothing is left on it.
fn relax(state: &State<'_>, search: &mut Search, link: Link) -> Result<(), AllocError>
    requires search { IsSearch state.now search.old }
    requires link { IsLink state.now.network.now link }
    requires starts { start_at state.now.network.now link ≡ search.old.node }
    ensures relaxes { OnOk result (Relaxes state.now search.old search.new) }
    ensures relaxed { OnOk result (IsRelaxed state.now search.new.distances.items search.old.node link.step.arc link.step.forward) }
{
    let reduced = reduced_over(state, search, link);
    if reduced < 0 {
        return Ok(());
    }
    let distance = over(state, search, link, reduced as u64);
    reach_over(state, search, link, distance)
}

// Relaxes all steps from the node that was settled last.
fn relax_all(links: &Links, state: &State<'_>, search: &mut Search) -> Result<(), AllocError>
    requires links { AreLinks state.now.network.now links.now }
    requires search { IsSearch state.now search.old }
    ensures same { OnOk result (SameTree search.old search.new) }
    ensures search { OnOk result (IsSearch state.now search.new) }
    ensures relaxed { OnOk result (IsRelaxedFrom state.now search.new.distances.items search.old.node) }
{
    let node = search.node as usize;
    for place in links.starts[node]..links.starts[node + 1] {
        relax(state, search, links.all[place])?;
    }
    Ok(())
}

// The nearest of the nodes that wait and aren't settled. Settled ones leave the queue.
fn nearest(queue: &mut Queue, settled: &[bool]) -> Option<(u64, u32)>
    requires { (d v : ℕ) → Waits (heap_items queue.old.waiting) d v → v < length settled.now }
    ensures waited { IfSome result (λ x. Waits (heap_items queue.old.waiting) x.0 x.1) }
    ensures unsettled { IfSome result (λ x. is_settled settled.now x.1 ≡ false) }
    ensures only { (d v : ℕ) → Waits (heap_items queue.new.waiting) d v → Waits (heap_items queue.old.waiting) d v }
    ensures kept { IfSome result (λ x. (d v : ℕ) → Waits (heap_items queue.old.waiting) d v → is_settled settled.now v ≡ false → Waits (heap_items queue.new.waiting) d v ⊎ ((d ≡ x.0) × (v ≡ x.1))) }
    ensures nearest { IfSome result (λ x. (d v : ℕ) → Waits (heap_items queue.old.waiting) d v → is_settled settled.now v ≡ false → x.0 ≤ d) }
    ensures none { IfNone result ((d v : ℕ) → Waits (heap_items queue.old.waiting) d v → is_settled settled.now v ≡ true) }
{
    while let Some((distance, node)) = pop(queue) {
        let done = settled[node as usize];
        if !done {
            return Some((distance, node));
        }
    }
    None
}

// Puts the node into the tree.
fn settle(search: &mut Search, node: u32) -> Result<(), AllocError>
    requires settled_in { node < length search.old.settled.items }
    requires reaches_in { node < length search.old.reaches.items }
    ensures source { OnOk result (search.new.source ≡ search.old.source) }
    ensures node { OnOk result (search.new.node ≡ node) }
    ensures tree { OnOk result (search.new.tree.items ≡ search.old.tree.items ++ reach_at search.old.reaches.items node ∷ []) }
    ensures settled { OnOk result (search.new.settled.items ≡ slice_set search.old.settled.items node true) }
    ensures reaches { OnOk result (search.new.reaches.items ≡ search.old.reaches.items) }
    ensures distances { OnOk result (search.new.distances.items ≡ search.old.distances.items) }
    ensures queue { OnOk result (heap_items search.new.queue.waiting ≡ heap_items search.old.queue.waiting) }
{
    let reach = search.reaches[node as usize];
    search.tree.push(reach)?;
    search.settled[node as usize] = true;
    search.node = node;
    Ok(())
}

/// As much of an excess as fits.
pub fn width_of(excess: i128) -> u64
    requires { pos 0 <ℤ excess }
    ensures some { 0 < result }
    ensures within { pos result ≤ℤ excess }
{
    if excess < u64::MAX as i128 {
        excess as u64
    } else {
        u64::MAX
    }
}

/// As much of an excess as fits, 0 where there is none.
pub fn amount_of(excess: i128) -> u64
    ensures { (result ≡ 0) ⊎ (pos result ≤ℤ excess) }
{
    if excess > 0 { width_of(excess) } else { 0 }
}

/// Settles nodes until one has a deficit, which is then settled last and gives `true`, or until nothing waits.
pub fn run(links: &Links, state: &State<'_>, search: &mut Search) -> Result<bool, AllocError>
    requires links { AreLinks state.now.network.now links.now }
    requires search { IsSearch state.now search.old }
    requires calm { pos 0 ≤ℤ excess_at state.now.excess.items search.old.node }
    ensures source { OnOk result (search.new.source ≡ search.old.source) }
    ensures found { IfOk result (λ found. OnTrue found (IsFound state.now search.new)) }
    ensures closed { IfOk result (λ found. OnFalse found (IsClosed state.now search.new.source search.new.settled.items)) }
{
    relax_all(links, state, search)?;
    while let Some((_, node)) = nearest(&mut search.queue, &search.settled) {
        settle(search, node)?;
        if state.excess[node as usize] < 0 {
            return Ok(true);
        }
        relax_all(links, state, search)?;
    }
    Ok(false)
}
