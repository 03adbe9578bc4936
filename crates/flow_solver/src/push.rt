// A push over one step.
ghost use Rattle.std.specs.Prelude.{◌≡◌, ◌^◌, ◌<◌, ◌↔◌, length, ℤ, pos, ◌+ℤ◌, ◌-ℤ◌, IsTrue};
ghost use Rattle.bounded_network.specs.Network.{arc_at};
ghost use Rattle.flow_solver.specs.Calm.{IsCalm};
ghost use Rattle.flow_solver.specs.State.{IsWithin, most_cost};
ghost use Rattle.flow_solver.specs.Step.{step_reduced};

use crate::search::amount_of;
use crate::state::{State, carry, left_at};
use residual_arcs::{Step, arc_of, cost, end, start};

/// Whether a step at the cost, between nodes at the potentials, has reduced cost 0.
pub fn cancels(cost: i64, from: i64, to: i64) -> bool
    requires cost_small { IsWithin most_cost cost }
    requires from_small { IsWithin (2 ^ 52) from }
    requires to_small { IsWithin (2 ^ 52) to }
    ensures { IsTrue result ↔ ((cost +ℤ from) -ℤ to ≡ pos 0) }
{
    cost + from - to == 0
}

// Whether the step has reduced cost 0.
fn is_tight(state: &State<'_>, step: Step) -> bool
    requires arc_in { step.arc < length state.now.network.now.arcs }
    ensures { IsTrue result ↔ (step_reduced (arc_at state.now.network.now step.arc) step.forward state.now.potentials.items ≡ pos 0) }
{
    let arc = arc_of(state.network, step.arc);
    let from = state.potentials[start(arc, step.forward) as usize];
    let to = state.potentials[end(arc, step.forward) as usize];
    cancels(cost(arc, step.forward), from, to)
}

/// Carries as much of the amount as it can over the step: no more than that takes, and no more than its start has too much.
/// Nothing goes over a step whose reduced cost isn't 0.
pub fn push_over(state: &mut State<'_>, step: Step, wanted: u64)
    requires arc_in { step.arc < length state.old.network.now.arcs }
    requires calm { IsCalm state.old }
    ensures network { state.new.network.now ≡ state.old.network.now }
    ensures calm { IsCalm state.new }
{
    let tight = is_tight(state, step);
    if !tight {
        return;
    }
    let arc = arc_of(state.network, step.arc);
    let has = amount_of(state.excess[start(arc, step.forward) as usize]);
    let takes = left_at(state, step);
    let amount = wanted.min(takes).min(has);
    carry(state, step, amount);
}
