// The state of the solver.
ghost use Rattle.std.specs.Prelude.{◌≡◌, ◌+◌, ◌*◌, ◌^◌, ◌<◌, ◌≤◌, ◌==◌, length, ℕ, ℤ, pos, negsuc, ◌≤ℤ◌, ◌+ℤ◌, ◌-ℤ◌, slice_index, slice_set, IfOk};
ghost use Rattle.std.proofs.Props.{props};
ghost use Rattle.bounded_network.specs.Network.{NetworkValue, IsNetwork, arc_at, potential_at};
ghost use Rattle.flow_solver.specs.State.{IsWithin, excess_at, IsState, IsShifted};
ghost use Rattle.residual_arcs.specs.Step.{start_of, end_of, left_on, carried};
ghost use Rattle.flow_solver.specs.Step.{step_reduced};

use bounded_network::Network;
use residual_arcs::{Step, arc_of, carry_on, end, left, start};

/// The state of the search in a network: an amount for each arc, the excess of each node, what enters it less what leaves it,
/// and a potential for each node. Its type keeps that the amounts are within their bounds, that the excesses are exact, and that
/// no step that can carry more has a negative reduced cost.
#[derive(Drop)]
pub struct State<'a> {
    pub network: &'a Network,
    pub flow: Vec<u64>,
    pub excess: Vec<i128>,
    pub potentials: Vec<i64>,
    ghost good: { IsNetwork network.now } by { Prim.hlevel props },
    ghost kept: { IsState network.now flow.items excess.items potentials.items } by { Prim.hlevel props },
}

// What is left of an excess when the amount is gone.
fn less(excess: i128, amount: u64) -> i128
    requires { IsWithin (2 ^ 100) excess }
    ensures { result ≡ excess -ℤ pos amount }
{
    excess - amount as i128
}

// An excess with the amount added.
fn more(excess: i128, amount: u64) -> i128
    requires { IsWithin (2 ^ 101) excess }
    ensures { result ≡ excess +ℤ pos amount }
{
    excess + amount as i128
}

/// Moves the amount from one excess to another.
pub fn shift(excess: &mut [i128], from: u32, to: u32, amount: u64)
    requires from_in { from < length excess.old }
    requires to_in { to < length excess.old }
    requires within { (v : ℕ) → IsWithin (2 ^ 100) (excess_at excess.old v) }
    ensures shifted { IsShifted excess.old excess.new from to amount }
    ensures long { length excess.new ≡ length excess.old }
{
    excess[from as usize] = less(excess[from as usize], amount);
    excess[to as usize] = more(excess[to as usize], amount);
}

/// How much more the step takes.
pub fn left_at(state: &State<'_>, step: Step) -> u64
    requires arc_in { step.arc < length state.now.network.now.arcs }
    ensures { result ≡ left_on (arc_at state.now.network.now step.arc) (slice_index state.now.flow.items step.arc) step.forward }
{
    left(
        arc_of(state.network, step.arc),
        state.flow[step.arc as usize],
        step.forward,
    )
}

/// Carries the amount over the step.
pub fn carry(state: &mut State<'_>, step: Step, amount: u64)
    requires arc_in { step.arc < length state.old.network.now.arcs }
    requires fits { amount ≤ left_on (arc_at state.old.network.now step.arc) (slice_index state.old.flow.items step.arc) step.forward }
    requires tight { step_reduced (arc_at state.old.network.now step.arc) step.forward state.old.potentials.items ≡ pos 0 }
    ensures network { state.new.network.now ≡ state.old.network.now }
    ensures shifted { IsShifted state.old.excess.items state.new.excess.items (start_of (arc_at state.old.network.now step.arc) step.forward) (end_of (arc_at state.old.network.now step.arc) step.forward) amount }
    ensures flow { state.new.flow.items ≡ slice_set state.old.flow.items step.arc (carried (slice_index state.old.flow.items step.arc) step.forward amount) }
    ensures potentials { state.new.potentials.items ≡ state.old.potentials.items }
{
    let arc = arc_of(state.network, step.arc);
    let had = state.flow[step.arc as usize];
    state.flow[step.arc as usize] = carry_on(arc, had, step.forward, amount);
    shift(
        &mut state.excess,
        start(arc, step.forward),
        end(arc, step.forward),
        amount,
    );
}
