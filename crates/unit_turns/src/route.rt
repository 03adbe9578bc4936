// The steps of the way round: over the arc, and back by both sides.
ghost use Rattle.std.specs.Prelude.{◌≡◌, ◌<◌, length, OnOk, true, false, slice_index};
ghost use Rattle.bounded_network.specs.Network.{arc_at};
ghost use Rattle.residual_arcs.specs.Step.{start_of, end_of, left_on};
ghost use Rattle.unit_turns.specs.Side.{IsSide, AreApart, IsMeeting, reach_at};
ghost use Rattle.unit_turns.specs.Paths.{AreAside, HasPath};
ghost use Rattle.unit_turns.specs.Steps.{AreFree, IsWay};

use crate::scanning::Meeting;
use crate::side::{Aim, Side, taken};
use bounded_network::Network;
use residual_arcs::Step;
use std::alloc::AllocError;

// Adds the steps between the root and the node at the place. The amounts stay: the clauses alone speak of them.
fn add_path(
    net: &Network,
    flow: &[u64],
    aim: Aim,
    side: &Side,
    place: u32,
    steps: &mut Vec<Step>,
) -> Result<(), AllocError>
    requires side { IsSide net.now flow.now aim side.now }
    requires place_in { place < length side.now.reaches.items }
    requires free { AreFree net.now flow.now steps.old.items }
    requires aside { AreAside side.now steps.old.items }
    ensures { OnOk result (HasPath net.now flow.now aim side.now 0 place steps.old.items steps.new.items) }
{
    let _nodes = net.nodes();
    let mut at = place as usize;
    while at > 0 {
        let reach = side.reaches[at];
        steps.push(taken(reach.step, aim.ahead))?;
        at = reach.from as usize;
    }
    Ok(())
}

/// The step, and the steps that take its unit back from its end to its start. The amounts stay.
pub fn way_round(
    net: &Network,
    flow: &[u64],
    step: Step,
    ahead: &Side,
    behind: &Side,
    meeting: Meeting,
    steps: &mut Vec<Step>,
) -> Result<(), AllocError>
    requires arc_in { step.arc < length net.now.arcs }
    requires some { 0 < left_on (arc_at net.now step.arc) (slice_index flow.now step.arc) step.forward }
    requires ahead { IsSide net.now flow.now (record { ahead = true; avoid = step.arc }) ahead.now }
    requires behind { IsSide net.now flow.now (record { ahead = false; avoid = step.arc }) behind.now }
    requires apart { AreApart ahead.now behind.now }
    requires ahead_root { (reach_at ahead.now 0).node ≡ end_of (arc_at net.now step.arc) step.forward }
    requires behind_root { (reach_at behind.now 0).node ≡ start_of (arc_at net.now step.arc) step.forward }
    requires meeting { IsMeeting net.now flow.now (record { ahead = true; avoid = step.arc }) ahead.now behind.now meeting }
    ensures { OnOk result (IsWay net.now flow.now step steps.new.items) }
{
    let onward = Aim {
        ahead: true,
        avoid: step.arc,
    };
    let back = Aim {
        ahead: false,
        avoid: step.arc,
    };
    steps.clear();
    steps.push(step)?;
    add_path(net, flow, onward, ahead, meeting.from, steps)?;
    steps.push(meeting.step)?;
    add_path(net, flow, back, behind, meeting.to, steps)?;
    Ok(())
}
