// Carrying away what a source has too much.
ghost use Rattle.std.specs.Prelude.{◌≡◌, ◌<◌, length, ℕ, ℤ, false, pos, ◌≤ℤ◌, ◌<ℤ◌, Ok, IfOk, IfSome, IfNone, IsNone};
ghost use Rattle.bounded_network.specs.Network.{AreViolated};
ghost use Rattle.flow_solver.specs.declared.drain.Outcome.TheVariants.{Drained, Stuck, GivenUp};
ghost use Rattle.residual_arcs.specs.Links.{AreLinks};
ghost use Rattle.flow_solver.specs.Search.{IsBlank, reach_at};
ghost use Rattle.flow_solver.specs.State.{excess_at};
ghost use Rattle.flow_solver.specs.Calm.{IsCalm};

use crate::blank::{clear, set_out};
use crate::path::augment;
use crate::search::{Reach, Search, run};
use crate::state::State;
use bounded_network::Network;
use residual_arcs::{Links, degree_of};
use std::alloc::AllocError;

// The number of links at the nodes of the tree but the last, whose arcs the search doesn't go over.
fn arcs_at(net: &Network, links: &Links, tree: &[Reach]) -> usize
    requires links { AreLinks net.now links.now }
    requires nodes { (i : ℕ) → i < length tree.now → (reach_at tree.now i).node < net.now.nodes }
{
    let mut count: usize = 0;
    for place in 0..tree.len().saturating_sub(1) {
        count = count.saturating_add(degree_of(net, links, tree[place].node));
    }
    count
}

/// Carries as much as one path takes from the source to the nearest node with a deficit, and says how many links
/// the search went over. Nothing is carried where no such node is reached: the settled nodes then can't get rid of the excess.
pub fn carry_once(
    links: &Links,
    state: &mut State<'_>,
    search: &mut Search,
    source: u32,
) -> Result<Option<usize>, AllocError>
    requires calm { IsCalm state.old }
    requires links { AreLinks state.old.network.now links.now }
    requires blank { IsBlank state.old.network.now search.old }
    requires source_in { source < state.old.network.now.nodes }
    requires rich { pos 0 <ℤ excess_at state.old.excess.items source }
    ensures network { state.new.network.now ≡ state.old.network.now }
    ensures calm { IsCalm state.new }
    ensures others { (v : ℕ) → excess_at state.old.excess.items v ≤ℤ pos 0 → excess_at state.new.excess.items v ≤ℤ pos 0 }
    ensures blank { IfOk result (λ scanned. IfSome scanned (λ count. IsBlank state.old.network.now search.new)) }
    ensures decreases { IfOk result (λ scanned. IfSome scanned (λ count. excess_at state.new.excess.items source <ℤ excess_at state.old.excess.items source)) }
    ensures rich { IfOk result (λ scanned. IfSome scanned (λ count. pos 0 ≤ℤ excess_at state.new.excess.items source)) }
    ensures violated { IfOk result (λ scanned. IfNone scanned (AreViolated state.old.network.now search.new.settled.items)) }
    ensures long { IfOk result (λ scanned. IfNone scanned (length search.new.settled.items ≡ state.old.network.now.nodes)) }
{
    let network = state.network;
    set_out(state, search, source)?;
    let found = run(links, state, search)?;
    if !found {
        return Ok(None);
    }
    let scanned = arcs_at(network, links, &search.tree);
    augment(state, search);
    clear(network, search);
    Ok(Some(scanned))
}

/// What came of an excess.
#[derive(Clone, Copy)]
pub enum Outcome {
    /// Nothing is left of it.
    Drained,
    /// The settled nodes can't get rid of it.
    Stuck,
    /// The patience is at its end.
    GivenUp,
}

// Takes what was gone over from the patience, and says whether that is at its end.
fn is_spent(patience: &mut Option<usize>, scanned: usize) -> bool
    ensures never { IsNone patience.old → (result ≡ false) × IsNone patience.new }
{
    match patience {
        Some(left) => {
            *left = left.saturating_sub(scanned);
            *left == 0
        }
        None => false,
    }
}

/// Carries away what the source has too much, for as long as the patience lasts: so many links may be gone over, or
/// any number where it is `None`.
pub fn drain(
    links: &Links,
    state: &mut State<'_>,
    search: &mut Search,
    source: u32,
    patience: &mut Option<usize>,
) -> Result<Outcome, AllocError>
    requires calm { IsCalm state.old }
    requires links { AreLinks state.old.network.now links.now }
    requires blank { IsBlank state.old.network.now search.old }
    requires source_in { source < state.old.network.now.nodes }
    ensures network { state.new.network.now ≡ state.old.network.now }
    ensures calm { IsCalm state.new }
    ensures others { (v : ℕ) → excess_at state.old.excess.items v ≤ℤ pos 0 → excess_at state.new.excess.items v ≤ℤ pos 0 }
    ensures blank { result ≡ Ok Drained → IsBlank state.old.network.now search.new }
    ensures drained { result ≡ Ok Drained → excess_at state.new.excess.items source ≤ℤ pos 0 }
    ensures violated { result ≡ Ok Stuck → AreViolated state.old.network.now search.new.settled.items }
    ensures long { result ≡ Ok Stuck → length search.new.settled.items ≡ state.old.network.now.nodes }
    ensures patient { IsNone patience.old → IsNone patience.new × ¬ (result ≡ Ok GivenUp) }
{
    'draining: while state.excess[source as usize] > 0 {
        let Some(scanned) = carry_once(links, state, search, source)? else {
            return Ok(Outcome::Stuck);
        };
        let spent = is_spent(patience, scanned);
        if spent {
            return Ok(Outcome::GivenUp);
        }
    }
    Ok(Outcome::Drained)
}
