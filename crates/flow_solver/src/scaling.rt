// Potentials near those of a best circulation, for networks where the paths from the first potentials would be long.
//
// Cost scaling (Goldberg and Tarjan 1990): epsilon shrinks from phase to phase, and each phase makes all excesses find their
// ways over links with a negative reduced cost. Only the potentials are kept, and any are right to start from.
ghost use Rattle.std.specs.Prelude.{◌≡◌, length, ℕ, IfOk, OnOk};
ghost use Rattle.bounded_network.specs.Network.{potential_at};
ghost use Rattle.flow_solver.specs.Coarse.{IsCoarse};
ghost use Rattle.residual_arcs.specs.Links.{AreLinks};
ghost use Rattle.flow_solver.specs.State.{IsWithin, most_cost};

use crate::coarse::{Coarse, begin_phase, coarse_at, discharge, greatest_cost};
use crate::global_update::update_globally;
use crate::guess::first_potentials;
use crate::refinement::refine;
use crate::unit::{round_all, unit_of};
use bounded_network::{MAX_COST, Network};
use residual_arcs::Links;
use std::alloc::{AllocError, Global};

// How many phases there are.
const PHASES: u32 = 7;

// How far epsilon shrinks from phase to phase.
const SHRINKING: i64 = 8;

// What part of the greatest cost the first epsilon is.
const COARSEST: u64 = 16;

// How many nodes a phase may discharge, for each node and arc.
const EFFORT: usize = 64;

// Updates globally once half as many nodes were relabelled as there are.
fn update_if_due(
    alloc: Global,
    net: &Network,
    links: &Links,
    coarse: &mut Coarse,
) -> Result<(), AllocError>
    requires coarse { IsCoarse net.now links.now coarse.old }
    requires links { AreLinks net.now links.now }
    ensures { OnOk result (IsCoarse net.now links.now coarse.new) }
{
    if coarse.relabels < net.nodes() as usize / 2 {
        return Ok(());
    }
    update_globally(alloc, net, links, coarse)
}

// Discharges the node that became active last, until none is active or the effort is spent: what it touches is near in memory.
fn discharge_all(
    alloc: Global,
    net: &Network,
    links: &Links,
    coarse: &mut Coarse,
) -> Result<(), AllocError>
    requires coarse { IsCoarse net.now links.now coarse.old }
    requires links { AreLinks net.now links.now }
    ensures { OnOk result (IsCoarse net.now links.now coarse.new) }
{
    update_globally(alloc, net, links, coarse)?;
    for _discharge in 0..EFFORT * (net.nodes() as usize + net.arcs().len()) {
        let Some(node) = coarse.active.pop() else {
            return Ok(());
        };
        discharge(net, links, coarse, node)?;
        update_if_due(alloc, net, links, coarse)?;
    }
    Ok(())
}

// What all phases come to. The last is one with an epsilon of at most the finest.
fn all_phases(
    alloc: Global,
    net: &Network,
    links: &Links,
    finest: u64,
) -> Result<Coarse, AllocError>
    requires links { AreLinks net.now links.now }
    ensures { IfOk result (λ coarse. IsCoarse net.now links.now coarse) }
{
    let mut coarse = coarse_at(alloc, net, links, first_potentials(alloc, net)?)?;
    let mut epsilon = (greatest_cost(net).min(MAX_COST as u64) / COARSEST) as i64;
    for _phase in 0..PHASES {
        begin_phase(alloc, net, links, &mut coarse, epsilon.max(1))?;
        discharge_all(alloc, net, links, &mut coarse)?;
        if !coarse.active.is_empty() || epsilon <= 1 || epsilon as u64 <= finest {
            return Ok(coarse);
        }
        epsilon /= SHRINKING;
    }
    Ok(coarse)
}

/// Potentials of at most the greatest cost, near those of a best circulation where there is one. They are rounded to the unit
/// of the costs, so that where few costs differ many steps have reduced cost 0.
pub fn coarse_potentials(
    alloc: Global,
    net: &Network,
    links: &Links,
) -> Result<Vec<i64>, AllocError>
    requires links { AreLinks net.now links.now }
    ensures long { IfOk result (λ potentials. length potentials.items ≡ net.now.nodes) }
    ensures small { IfOk result (λ potentials. (v : ℕ) → IsWithin most_cost (potential_at potentials.items v)) }
{
    let unit = unit_of(net);
    let mut coarse = all_phases(alloc, net, links, unit)?;
    round_all(&mut coarse.potentials, unit);
    refine(alloc, net, links, &mut coarse)?;
    Ok(coarse.potentials)
}
