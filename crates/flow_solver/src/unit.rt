// The unit of the costs: what divides them all. Some best potentials are whole multiples of it, so that near ones are rounded.
ghost use Rattle.std.specs.Prelude.{◌≡◌, length, ℕ};
ghost use Rattle.std.specs.Int.{IsGcd};
ghost use Rattle.bounded_network.specs.Network.{potential_at};
ghost use Rattle.flow_solver.specs.Costs.{IsUnit};
ghost use Rattle.flow_solver.specs.State.{IsWithin, most_cost};

use bounded_network::{MAX_COST, Network};
use residual_arcs::{arc_count, arc_of};

// How far apart the least and the greatest potential can be.
const SPAN: u64 = 2 * MAX_COST as u64;

// The greatest common divisor of the two numbers (Euclid).
fn common(first: u64, second: u64) -> u64
    ensures { IsGcd first second result }
{
    let mut divisor = first;
    let mut rest = second;
    while rest > 0 {
        let next = divisor % rest;
        divisor = rest;
        rest = next;
    }
    divisor
}

/// What divides all costs, 0 where they are all 0.
pub fn unit_of(net: &Network) -> u64
    ensures { IsUnit net.now result }
{
    let mut unit: u64 = 0;
    for place in 0..arc_count(net) {
        unit = common(arc_of(net, place).cost.unsigned_abs(), unit);
    }
    unit
}

// The multiple of the unit, counted from the least potential, that is nearest.
fn rounded(potential: i64, unit: u64) -> i64
    ensures { IsWithin most_cost result }
{
    let unit = unit.max(1);
    let above = potential.saturating_add(MAX_COST).max(0) as u64;
    let units = above.saturating_add(unit / 2) / unit;
    units.saturating_mul(unit).min(SPAN) as i64 - MAX_COST
}

/// Rounds all potentials to the unit.
pub fn round_all(potentials: &mut Vec<i64>, unit: u64)
    requires small { (v : ℕ) → IsWithin most_cost (potential_at potentials.old.items v) }
    ensures long { length potentials.new.items ≡ length potentials.old.items }
    ensures small { (v : ℕ) → IsWithin most_cost (potential_at potentials.new.items v) }
{
    for node in 0..potentials.len() {
        let value = rounded(potentials[node], unit);
        potentials[node] = value;
    }
}
