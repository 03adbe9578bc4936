// A turn: a unit over one arc, and back along a path.
ghost use Rattle.std.specs.Prelude.{◌≡◌, ◌≢◌, ◌<◌, length, List, ℕ, Bool, true, false, IfOk, OnOk, OnErr, slice_index, ◌↔◌};
ghost use Rattle.std.specs.Bool.{OnTrue, OnFalse};
ghost use Rattle.bounded_network.specs.Network.{IsNetwork, IsCirculation, AreViolated, arc_at};
ghost use Rattle.residual_arcs.specs.Step.{start_of, end_of, left_on, carried};
ghost use Rattle.unit_turns.specs.Fixed.{with_fixed};
ghost use Rattle.unit_turns.specs.Over.{AreLinksOver};
ghost use Rattle.unit_turns.specs.Side.{IsBlank, AreNumbered, IsSide, reach_at, place_of};
ghost use Rattle.unit_turns.specs.Steps.{AreFree, AreTaken, IsWay, step_at};
ghost use Rattle.unit_turns.specs.declared.side.Aim.{Aim};

use crate::carrying::carry_round;
use crate::route::way_round;
use crate::scanning::search;
use crate::side::{Reach, Side, add, clear};
use bounded_network::Network;
use residual_arcs::{Links, Step, arc_of, end, start};
use std::alloc::AllocError;

// Begins a side: its root alone is reached.
fn set_out(net: &Network, side: &mut Side, root: u32) -> Result<(), AllocError>
    requires blank { IsBlank net.now side.old }
    requires root_in { root < net.now.nodes }
    ensures numbered { AreNumbered net.now side.new }
    ensures side { OnOk result ((flow : List ℕ) (aim : Aim) → IsSide net.now flow aim side.new) }
    ensures root { OnOk result ((reach_at side.new 0).node ≡ root) }
    ensures alone { OnOk result ((v : ℕ) → 0 < place_of side.new v → v ≡ root) }
{
    let _nodes = net.nodes();
    let reach = Reach {
        node: root,
        from: 0,
        step: Step {
            arc: 0,
            forward: true,
        },
    };
    add(side, reach)?;
    Ok(())
}

// Finds the way back from the step's end to its start. Where there is none, the network with the arc held is violated.
fn find_way(
    net: &Network,
    links: &Links,
    flow: &[u64],
    ahead: &mut Side,
    behind: &mut Side,
    step: Step,
    steps: &mut Vec<Step>,
) -> Result<bool, AllocError>
    requires circulation { IsCirculation net.now flow.now }
    requires links { AreLinksOver net.now links.now }
    requires arc_in { step.arc < length net.now.arcs }
    requires ends_differ { (arc_at net.now step.arc).tail ≢ (arc_at net.now step.arc).head }
    requires some { 0 < left_on (arc_at net.now step.arc) (slice_index flow.now step.arc) step.forward }
    requires ahead { IsBlank net.now ahead.old }
    requires behind { IsBlank net.now behind.old }
    ensures ahead { AreNumbered net.now ahead.new }
    ensures behind { AreNumbered net.now behind.new }
    ensures way { IfOk result (λ found. OnTrue found (IsWay net.now flow.now step steps.new.items)) }
    ensures none { IfOk result (λ found. OnFalse found ((marks : List Bool) × AreViolated (with_fixed net.now step.arc (carried (slice_index flow.now step.arc) step.forward 1)) marks)) }
{
    let arc = arc_of(net, step.arc);
    set_out(net, ahead, end(arc, step.forward))?;
    set_out(net, behind, start(arc, step.forward))?;
    let found = search(net, links, flow, step.arc, ahead, behind)?;
    match found {
        Some(meeting) => {
            way_round(net, flow, step, ahead, behind, meeting, steps)?;
            Ok(true)
        }
        None => Ok(false),
    }
}

/// Carries a unit over the step, and back along a path of other steps, all of which `steps` then lists, the step first. It
/// answers `false` and changes nothing where there is no path: then no circulation has this unit more, or less, on the arc.
///
/// The network may be one whose bounds were narrowed since the links were made. The two sides are blank again in any case,
/// so that no turn touches more of them than it searches. Where memory is wanting, the flow is as it was. What `steps` holds
/// then, or where the answer is `false`, says nothing.
pub fn turn(
    net: &Network,
    links: &Links,
    flow: &mut [u64],
    ahead: &mut Side,
    behind: &mut Side,
    step: Step,
    steps: &mut Vec<Step>,
) -> Result<bool, AllocError>
    requires circulation { IsCirculation net.now flow.old }
    requires links { AreLinksOver net.now links.now }
    requires arc_in { step.arc < length net.now.arcs }
    requires ends_differ { (arc_at net.now step.arc).tail ≢ (arc_at net.now step.arc).head }
    requires some { 0 < left_on (arc_at net.now step.arc) (slice_index flow.old step.arc) step.forward }
    requires ahead { IsBlank net.now ahead.old }
    requires behind { IsBlank net.now behind.old }
    ensures circulation { IsCirculation net.now flow.new }
    ensures turned { IfOk result (λ turned. OnTrue turned (slice_index flow.new step.arc ≡ carried (slice_index flow.old step.arc) step.forward 1)) }
    ensures taken { IfOk result (λ turned. OnTrue turned (AreTaken net.now flow.old flow.new steps.new.items)) }
    ensures free { IfOk result (λ turned. OnTrue turned (AreFree net.now flow.old steps.new.items)) }
    ensures first { IfOk result (λ turned. OnTrue turned ((0 < length steps.new.items) × (step_at steps.new.items 0 ≡ step))) }
    ensures violated { IfOk result (λ turned. OnFalse turned ((marks : List Bool) × AreViolated (with_fixed net.now step.arc (carried (slice_index flow.old step.arc) step.forward 1)) marks)) }
    ensures unturned { IfOk result (λ turned. OnFalse turned (flow.new ≡ flow.old)) }
    ensures kept { OnErr result (flow.new ≡ flow.old) }
    ensures ahead { IsBlank net.now ahead.new }
    ensures behind { IsBlank net.now behind.new }
{
    let found = find_way(net, links, flow, ahead, behind, step, steps);
    clear(net, ahead);
    clear(net, behind);
    let turned = found?;
    if turned {
        carry_round(net, flow, steps);
    }
    Ok(turned)
}
