// The search for a step that leads from the one side to the other.
ghost use Rattle.std.specs.Prelude.{◌≡◌, ◌-◌, ◌<◌, length, ℕ, IfOk, IfSome, IfNone, IsTrue, ◌↔◌, ◌⊎◌, true, false, not};
ghost use Rattle.bounded_network.specs.Network.{IsNetwork, IsCirculation, arc_at};
ghost use Rattle.residual_arcs.specs.Step.{start_of, end_of};
ghost use Rattle.unit_turns.specs.Over.{AreLinksOver};
ghost use Rattle.unit_turns.specs.Side.{AreNumbered, IsSide, IsOpen, AreApart, IsGrown, IsScanned, IsEnded, IsMeeting, reach_at, place_of};

use crate::side::{Aim, Reach, Side, add, taken};
use bounded_network::Network;
use residual_arcs::{Link, Links, Step, arc_of, left};
use std::alloc::AllocError;

/// A step from a place of one side to a place of the other.
#[derive(Clone, Copy)]
pub struct Meeting {
    pub from: u32,
    pub step: Step,
    pub to: u32,
}

// Whether the path may take the step.
fn is_open(net: &Network, flow: &[u64], aim: Aim, step: Step) -> bool
    requires round { IsCirculation net.now flow.now }
    requires arc_in { step.arc < length net.now.arcs }
    ensures { IsTrue result ↔ IsOpen net.now flow.now aim step.arc step.forward }
{
    let taken = taken(step, aim.ahead);
    let room = left(
        arc_of(net, step.arc),
        flow[step.arc as usize],
        taken.forward,
    );
    step.arc != aim.avoid && room > 0
}

// Adds the link's end to the side, unless it is there, or its step isn't open. Where the other side has the end, they meet.
fn follow(
    net: &Network,
    flow: &[u64],
    aim: Aim,
    side: &mut Side,
    other: &Side,
    from: u32,
    link: Link,
) -> Result<Option<Meeting>, AllocError>
    requires round { IsCirculation net.now flow.now }
    requires side { IsSide net.now flow.now aim side.old }
    requires other { AreNumbered net.now other.now }
    requires apart { AreApart side.old other.now }
    requires from { from < length side.old.reaches.items }
    requires arc { link.step.arc < length net.now.arcs }
    requires starts { start_of (arc_at net.now link.step.arc) link.step.forward ≡ (reach_at side.old from).node }
    requires ends { link.to ≡ end_of (arc_at net.now link.step.arc) link.step.forward }
    ensures side { IsSide net.now flow.now aim side.new }
    ensures grown { IsGrown side.old side.new }
    ensures apart { AreApart side.new other.now }
    ensures met { IfOk result (λ found. IfSome found (λ meeting. IsMeeting net.now flow.now aim side.new other.now meeting)) }
    ensures followed { IfOk result (λ found. IfNone found (IsOpen net.now flow.now aim link.step.arc link.step.forward → 0 < place_of side.new link.to)) }
{
    let _arc = arc_of(net, link.step.arc);
    if !is_open(net, flow, aim, link.step) {
        return Ok(None);
    }
    let across = other.places[link.to as usize];
    if across > 0 {
        return Ok(Some(Meeting {
            from,
            step: link.step,
            to: across - 1,
        }));
    }
    if side.places[link.to as usize] == 0 {
        add(
            side,
            Reach {
                node: link.to,
                from,
                step: link.step,
            },
        )?;
    }
    Ok(None)
}

// Adds the ends of the open steps from the node at the place, until one leads to the other side.
fn scan(
    net: &Network,
    links: &Links,
    flow: &[u64],
    aim: Aim,
    side: &mut Side,
    other: &Side,
    from: u32,
) -> Result<Option<Meeting>, AllocError>
    requires round { IsCirculation net.now flow.now }
    requires links { AreLinksOver net.now links.now }
    requires side { IsSide net.now flow.now aim side.old }
    requires other { AreNumbered net.now other.now }
    requires apart { AreApart side.old other.now }
    requires from { from < length side.old.reaches.items }
    ensures side { IsSide net.now flow.now aim side.new }
    ensures grown { IsGrown side.old side.new }
    ensures apart { AreApart side.new other.now }
    ensures met { IfOk result (λ found. IfSome found (λ meeting. IsMeeting net.now flow.now aim side.new other.now meeting)) }
    ensures scanned { IfOk result (λ found. IfNone found (IsScanned net.now flow.now aim side.new (reach_at side.old from).node)) }
{
    let _nodes = net.nodes();
    let node = side.reaches[from as usize].node as usize;
    for place in links.starts[node]..links.starts[node + 1] {
        let found = follow(net, flow, aim, side, other, from, links.all[place])?;
        if let Some(meeting) = found {
            return Ok(Some(meeting));
        }
    }
    Ok(None)
}

/// Searches from both sides, one node of each in turn, until an open step leads from the side ahead to the one behind, or
/// one of them comes to its end.
pub fn search(
    net: &Network,
    links: &Links,
    flow: &[u64],
    avoid: u32,
    ahead: &mut Side,
    behind: &mut Side,
) -> Result<Option<Meeting>, AllocError>
    requires round { IsCirculation net.now flow.now }
    requires links { AreLinksOver net.now links.now }
    requires ahead { IsSide net.now flow.now (record { ahead = true; avoid = avoid }) ahead.old }
    requires behind { IsSide net.now flow.now (record { ahead = false; avoid = avoid }) behind.old }
    requires apart { AreApart ahead.old behind.old }
    ensures ahead { IsSide net.now flow.now (record { ahead = true; avoid = avoid }) ahead.new }
    ensures behind { IsSide net.now flow.now (record { ahead = false; avoid = avoid }) behind.new }
    ensures apart { AreApart ahead.new behind.new }
    ensures ahead_root { reach_at ahead.new 0 ≡ reach_at ahead.old 0 }
    ensures behind_root { reach_at behind.new 0 ≡ reach_at behind.old 0 }
    ensures met { IfOk result (λ found. IfSome found (λ meeting. IsMeeting net.now flow.now (record { ahead = true; avoid = avoid }) ahead.new behind.new meeting)) }
    ensures ended { IfOk result (λ found. IfNone found (IsEnded net.now flow.now (record { ahead = true; avoid = avoid }) ahead.new ⊎ IsEnded net.now flow.now (record { ahead = false; avoid = avoid }) behind.new)) }
{
    let _nodes = net.nodes();
    let mut next = 0u32;
    while (next as usize) < ahead.reaches.len().min(behind.reaches.len()) {
        let onward = Aim { ahead: true, avoid };
        let found = scan(net, links, flow, onward, ahead, behind, next)?;
        if let Some(meeting) = found {
            return Ok(Some(meeting));
        }
        let back = Aim {
            ahead: false,
            avoid,
        };
        let found = scan(net, links, flow, back, behind, ahead, next)?;
        if let Some(meeting) = found {
            return Ok(Some(turned(meeting)));
        }
        next += 1;
    }
    Ok(None)
}

// A meeting as the other side sees it.
fn turned(meeting: Meeting) -> Meeting
    ensures from { result.from ≡ meeting.to }
    ensures to { result.to ≡ meeting.from }
    ensures arc { result.step.arc ≡ meeting.step.arc }
    ensures forward { result.step.forward ≡ not meeting.step.forward }
{
    Meeting {
        from: meeting.to,
        step: taken(meeting.step, false),
        to: meeting.from,
    }
}
