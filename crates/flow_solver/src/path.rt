// Carrying an amount from a source to a node with a deficit.
ghost use Rattle.std.specs.Prelude.{◌≡◌, ◌≢◌, ◌-◌, ◌*◌, ◌^◌, ◌<◌, ◌≤◌, length, ℕ, ℤ, pos, ◌+ℤ◌, ◌-ℤ◌, ◌≤ℤ◌, ◌<ℤ◌};
ghost use Rattle.bounded_network.specs.Network.{IsNetwork, potential_at};
ghost use Rattle.flow_solver.specs.Search.{IsFound, reach_at, distance_at};
ghost use Rattle.flow_solver.specs.State.{IsWithin, IsShifted, excess_at};
ghost use Rattle.flow_solver.specs.Path.{IsPath};
ghost use Rattle.flow_solver.specs.Calm.{IsCalm};

use crate::search::{Reach, Search, width_of};
use crate::state::{State, carry};

// Carries the amount along the tree from its root to its last node.
fn carry_along(state: &mut State<'_>, tree: &[Reach], amount: u64)
    requires path { IsPath state.old tree.now amount }
    ensures network { state.new.network.now ≡ state.old.network.now }
    ensures shifted { IsShifted state.old.excess.items state.new.excess.items (reach_at tree.now 0).node (reach_at tree.now (length tree.now - 1)).node amount }
    ensures potentials { state.new.potentials.items ≡ state.old.potentials.items }
    ensures wide { amount ≤ (reach_at tree.now 0).width }
{
    let mut place = tree.len() - 1;
    while place > 0 {
        let reach = tree[place];
        carry(state, reach.step, amount);
        place = reach.from as usize;
    }
}

// A potential lowered by the amount.
fn lower(potential: i64, amount: u64) -> i64
    requires small { IsWithin (2 ^ 60) potential }
    requires little { amount < 2 ^ 61 }
    ensures { result ≡ potential -ℤ pos amount }
{
    potential - amount as i64
}

// Lowers the potential of each node of the tree by what its distance is short of the depth.
fn update_tree(potentials: &mut [i64], distances: &[u64], tree: &[Reach], depth: u64)
    requires nodes { (i : ℕ) → i < length tree.now → (reach_at tree.now i).node < length potentials.old }
    requires long { length distances.now ≡ length potentials.old }
    requires separate { (i j : ℕ) → i < j → j < length tree.now → (reach_at tree.now i).node ≢ (reach_at tree.now j).node }
    requires small { (v : ℕ) → IsWithin (2 ^ 60) (potential_at potentials.old v) }
    requires shallow { depth < 2 ^ 61 }
    ensures long { length potentials.new ≡ length potentials.old }
    ensures updated { (i : ℕ) → i < length tree.now → potential_at potentials.new (reach_at tree.now i).node ≡ potential_at potentials.old (reach_at tree.now i).node -ℤ pos (depth - distance_at distances.now (reach_at tree.now i).node) }
    ensures rest { (v : ℕ) → ((i : ℕ) → i < length tree.now → (reach_at tree.now i).node ≢ v) → potential_at potentials.new v ≡ potential_at potentials.old v }
{
    for place in 0..tree.len() {
        let node = tree[place].node as usize;
        let value = lower(potentials[node], depth.saturating_sub(distances[node]));
        potentials[node] = value;
    }
}

// Lowers the potentials of the settled nodes, so that the steps of the tree have reduced cost 0.
fn update_potentials(state: &mut State<'_>, search: &Search)
    requires calm { IsCalm state.old }
    requires found { IsFound state.old search.now }
    ensures network { state.new.network.now ≡ state.old.network.now }
    ensures calm { IsCalm state.new }
    ensures flow { state.new.flow.items ≡ state.old.flow.items }
    ensures excess { state.new.excess.items ≡ state.old.excess.items }
    ensures path { (amount : ℕ) → amount ≤ (reach_at search.now.tree.items (length search.now.tree.items - 1)).width → IsPath state.new search.now.tree.items amount }
{
    let depth = search.distances[search.node as usize];
    update_tree(
        &mut state.potentials,
        &search.distances,
        &search.tree,
        depth,
    );
}

/// How large a deficit is, as much of it as fits.
pub fn deficit_of(excess: i128) -> u64
    requires deficit { excess <ℤ pos 0 }
    requires small { IsWithin (2 ^ 100) excess }
    ensures some { 0 < result }
    ensures within { (excess +ℤ pos result) ≤ℤ pos 0 }
{
    width_of(-excess)
}

/// Carries as much as it can from the search's source to the node that it found.
pub fn augment(state: &mut State<'_>, search: &Search)
    requires calm { IsCalm state.old }
    requires found { IsFound state.old search.now }
    ensures network { state.new.network.now ≡ state.old.network.now }
    ensures calm { IsCalm state.new }
    ensures decreases { excess_at state.new.excess.items search.now.source <ℤ excess_at state.old.excess.items search.now.source }
    ensures rich { pos 0 ≤ℤ excess_at state.new.excess.items search.now.source }
    ensures others { (v : ℕ) → excess_at state.old.excess.items v ≤ℤ pos 0 → excess_at state.new.excess.items v ≤ℤ pos 0 }
{
    update_potentials(state, search);
    let deficit = deficit_of(state.excess[search.node as usize]);
    let amount = search.tree[search.tree.len() - 1].width.min(deficit);
    carry_along(state, &search.tree, amount);
}
