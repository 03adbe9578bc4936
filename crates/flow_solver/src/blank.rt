// A search before it begins, and once it is done with. Only what it touched is cleared.
ghost use Rattle.std.specs.Prelude.{◌≡◌, ◌<◌, ◌≤◌, [], length, ℕ, ℤ, pos, ◌≤ℤ◌, ◌<ℤ◌, IfOk, OnOk};
ghost use Rattle.std.specs.BinaryHeap.{heap_items};
ghost use Rattle.bounded_network.specs.Network.{IsNetwork};
ghost use Rattle.flow_solver.specs.Queue.{Waits};
ghost use Rattle.flow_solver.specs.Search.{IsBlank, IsClearable, IsCleared, IsSearch, reach_at};
ghost use Rattle.flow_solver.specs.State.{excess_at};

use crate::queue::{self, Queue, empty, waiting};
use crate::search::{Reach, Search, UNREACHED, width_of};
use crate::state::State;
use bounded_network::Network;
use residual_arcs::Step;
use std::alloc::{AllocError, Global};

// How no node is reached.
const NOWHERE: Reach = Reach {
    node: 0,
    from: 0,
    step: Step {
        arc: 0,
        forward: true,
    },
    width: 0,
};

/// A search that has not begun.
pub fn blank(alloc: Global, net: &Network) -> Result<Search, AllocError>
    ensures { IfOk result (λ search. IsBlank net.now search) }
{
    let nodes = net.nodes() as usize;
    let reaches = vec![in alloc; NOWHERE; nodes]?;
    let distances = vec![in alloc; UNREACHED; nodes]?;
    let settled = vec![in alloc; false; nodes]?;
    Ok(Search {
        source: 0,
        node: 0,
        tree: Vec::new(alloc),
        reaches,
        distances,
        settled,
        queue: empty(alloc),
    })
}

/// Begins a search: its source alone is settled.
pub fn set_out(state: &State<'_>, search: &mut Search, source: u32) -> Result<(), AllocError>
    requires blank { IsBlank state.now.network.now search.old }
    requires source_in { source < state.now.network.now.nodes }
    requires rich { pos 0 <ℤ excess_at state.now.excess.items source }
    ensures search { OnOk result (IsSearch state.now search.new) }
    ensures source { OnOk result (search.new.source ≡ source) }
    ensures node { OnOk result (search.new.node ≡ source) }
{
    search.tree.push(Reach {
        node: source,
        from: 0,
        step: NOWHERE.step,
        width: width_of(state.excess[source as usize]),
    })?;
    search.distances[source as usize] = 0;
    search.settled[source as usize] = true;
    search.source = source;
    search.node = source;
    Ok(())
}

// Clears a node.
fn forget(distances: &mut Vec<u64>, settled: &mut Vec<bool>, node: u32)
    requires distances_in { node < length distances.old.items }
    requires settled_in { node < length settled.old.items }
    ensures distances_long { length distances.new.items ≡ length distances.old.items }
    ensures settled_long { length settled.new.items ≡ length settled.old.items }
    ensures cleared { IsCleared distances.new.items settled.new.items node }
    ensures stays { (v : ℕ) → IsCleared distances.old.items settled.old.items v → IsCleared distances.new.items settled.new.items v }
{
    distances[node as usize] = UNREACHED;
    settled[node as usize] = false;
}

// Clears the nodes of the tree.
fn forget_tree(tree: &[Reach], distances: &mut Vec<u64>, settled: &mut Vec<bool>)
    requires distances_in { (i : ℕ) → i < length tree.now → (reach_at tree.now i).node < length distances.old.items }
    requires settled_in { length settled.old.items ≡ length distances.old.items }
    ensures distances_long { length distances.new.items ≡ length distances.old.items }
    ensures settled_long { length settled.new.items ≡ length settled.old.items }
    ensures cleared { (i : ℕ) → i < length tree.now → IsCleared distances.new.items settled.new.items (reach_at tree.now i).node }
    ensures stays { (v : ℕ) → IsCleared distances.old.items settled.old.items v → IsCleared distances.new.items settled.new.items v }
{
    for place in 0..tree.len() {
        forget(distances, settled, tree[place].node);
    }
}

// Clears the nodes that wait.
fn forget_waiting(queue: &Queue, distances: &mut Vec<u64>, settled: &mut Vec<bool>)
    requires distances_in { (d v : ℕ) → Waits (heap_items queue.now.waiting) d v → v < length distances.old.items }
    requires settled_in { length settled.old.items ≡ length distances.old.items }
    ensures distances_long { length distances.new.items ≡ length distances.old.items }
    ensures settled_long { length settled.new.items ≡ length settled.old.items }
    ensures cleared { (d v : ℕ) → Waits (heap_items queue.now.waiting) d v → IsCleared distances.new.items settled.new.items v }
    ensures stays { (v : ℕ) → IsCleared distances.old.items settled.old.items v → IsCleared distances.new.items settled.new.items v }
{
    let nodes = waiting(queue);
    for place in 0..nodes.len() {
        forget(distances, settled, nodes[place].1);
    }
}

/// Clears a search for the next one.
pub fn clear(net: &Network, search: &mut Search)
    requires { IsClearable net.now search.old }
    ensures { IsBlank net.now search.new }
{
    let _nodes = net.nodes();
    forget_tree(&search.tree, &mut search.distances, &mut search.settled);
    search.tree.clear();
    forget_waiting(&search.queue, &mut search.distances, &mut search.settled);
    queue::clear(&mut search.queue);
}
