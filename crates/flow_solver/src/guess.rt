// Potentials to start from. Any are right: these make few paths do.
ghost use Rattle.std.specs.Prelude.{◌≡◌, ◌<◌, ◌≤◌, length, ℕ, ℤ, pos, negsuc, ◌≤ℤ◌, IfOk};
ghost use Rattle.bounded_network.specs.Network.{IsNetwork, potential_at};
ghost use Rattle.flow_solver.specs.State.{IsWithin, most_cost};

use bounded_network::{MAX_COST, Network};
use residual_arcs::{arc_count, arc_of};
use std::alloc::{AllocError, Global};

// How often all arcs are gone over.
const ROUNDS: u32 = 3;

// The potential of an arc's tail, raised until the arc's reduced cost isn't negative, but not past the greatest cost.
fn raised(tail: i64, head: i64, cost: i64) -> i64
    requires tail_small { IsWithin most_cost tail }
    requires head_small { IsWithin most_cost head }
    requires cost_small { IsWithin most_cost cost }
    ensures { IsWithin most_cost result }
{
    let wanted = head - cost;
    if wanted <= tail {
        tail
    } else if wanted < MAX_COST {
        wanted
    } else {
        MAX_COST
    }
}

// Raises the potential of the tail of each arc that can carry more or less.
fn raise_all(net: &Network, potentials: &mut Vec<i64>)
    requires long { length potentials.old.items ≡ net.now.nodes }
    requires small { (v : ℕ) → IsWithin most_cost (potential_at potentials.old.items v) }
    ensures long { length potentials.new.items ≡ net.now.nodes }
    ensures small { (v : ℕ) → IsWithin most_cost (potential_at potentials.new.items v) }
{
    for place in 0..arc_count(net) {
        let arc = arc_of(net, place);
        if arc.floor < arc.room {
            let value = raised(
                potentials[arc.tail as usize],
                potentials[arc.head as usize],
                arc.cost,
            );
            potentials[arc.tail as usize] = value;
        }
    }
}

/// Potentials of at most the greatest cost.
pub fn first_potentials(alloc: Global, net: &Network) -> Result<Vec<i64>, AllocError>
    ensures long { IfOk result (λ potentials. length potentials.items ≡ net.now.nodes) }
    ensures small { IfOk result (λ potentials. (v : ℕ) → IsWithin most_cost (potential_at potentials.items v)) }
{
    let mut potentials = vec![in alloc; 0i64; net.nodes() as usize]?;
    for _round in 0..ROUNDS {
        raise_all(net, &mut potentials);
    }
    Ok(potentials)
}
