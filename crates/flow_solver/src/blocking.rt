// Blocking passes over the steps of reduced cost 0 (Dinic 1970): they carry most excesses away before the first search.
//
// A pass goes over the nodes with an excess. From each it walks down the levels, and at a deficit pushes along the walk.
// Each step of a push keeps the state by itself, so that nothing is proved of the walk.
ghost use Rattle.std.specs.Prelude.{◌≡◌, ◌<◌, length, IfOk, OnOk, IfSome, IsTrue, All};
ghost use Rattle.flow_solver.specs.Blocking.{AreLevels, Descends, IsWalkStep, IsWalk};
ghost use Rattle.flow_solver.specs.Links.{IsLinkWithin};
ghost use Rattle.residual_arcs.specs.Links.{AreLinks};
ghost use Rattle.flow_solver.specs.Calm.{IsCalm};

use crate::levels::{NO_LEVEL, is_admissible, levels_of};
use crate::links::link_of;
use crate::path::deficit_of;
use crate::push::push_over;
use crate::search::amount_of;
use crate::state::{State, left_at};
use bounded_network::Network;
use residual_arcs::{Link, Links, Step};
use std::alloc::{AllocError, Global};

// How many passes there are at most.
const PASSES: u32 = 64;

/// A step that the walk took from a node.
#[derive(Clone, Copy)]
pub struct WalkStep {
    pub node: u32,
    pub step: Step,
}

/// The levels, for each node the next of its links to follow, and the steps of the walk from its source.
#[derive(Drop)]
pub struct Walk {
    pub levels: Vec<u32>,
    pub next: Vec<usize>,
    pub steps: Vec<WalkStep>,
}

// Whether one level is right below the other.
fn is_below(lower: u32, upper: u32) -> bool {
    lower < upper && lower + 1 == upper
}

// Whether the walk can go on over the node's link.
fn leads_down(state: &State<'_>, walk: &Walk, node: u32, link: Link) -> bool
    requires walk { IsWalk state.now.network.now walk.now }
    requires node_in { node < state.now.network.now.nodes }
    requires link { IsLinkWithin state.now.network.now link }
    ensures { IsTrue result → Descends state.now node link }
{
    is_below(walk.levels[link.to as usize], walk.levels[node as usize])
        && is_admissible(state, node, link)
        && left_at(state, link.step) > 0
}

// The link of the node over which the walk goes on.
fn descending_link(links: &Links, state: &State<'_>, walk: &mut Walk, node: u32) -> Option<Link>
    requires links { AreLinks state.now.network.now links.now }
    requires walk { IsWalk state.now.network.now walk.old }
    requires node_in { node < state.now.network.now.nodes }
    ensures walk { IsWalk state.now.network.now walk.new }
    ensures link { IfSome result (λ link. IsLinkWithin state.now.network.now link) }
    ensures descends { IfSome result (λ link. Descends state.now node link) }
{
    let end = links.starts[node as usize + 1];
    for place in walk.next[node as usize]..end {
        let link = link_of(state.network, links, place);
        let found = leads_down(state, walk, node, link);
        if found {
            walk.next[node as usize] = place;
            return Some(link);
        }
    }
    walk.next[node as usize] = end;
    None
}

// Goes one step back, from a node that leads nowhere. There is none at the source.
fn step_back(net: &Network, walk: &mut Walk, node: u32) -> Option<u32>
    requires walk { IsWalk net.now walk.old }
    requires node_in { node < net.now.nodes }
    ensures walk { IsWalk net.now walk.new }
    ensures node { IfSome result (λ back. back < net.now.nodes) }
{
    walk.levels[node as usize] = NO_LEVEL;
    match walk.steps.pop() {
        Some(back) => Some(back.node),
        None => None,
    }
}

// Goes one step on from the node, or back. Where it then is, or `None` if the source leads nowhere.
fn go_on(
    links: &Links,
    state: &State<'_>,
    walk: &mut Walk,
    node: u32,
) -> Result<Option<u32>, AllocError>
    requires links { AreLinks state.now.network.now links.now }
    requires walk { IsWalk state.now.network.now walk.old }
    requires node_in { node < state.now.network.now.nodes }
    ensures walk { OnOk result (IsWalk state.now.network.now walk.new) }
    ensures node { IfOk result (λ next. IfSome next (λ node. node < state.now.network.now.nodes)) }
{
    match descending_link(links, state, walk, node) {
        Some(link) => {
            walk.steps.push(WalkStep {
                node,
                step: link.step,
            })?;
            Ok(Some(link.to))
        }
        None => Ok(step_back(state.network, walk, node)),
    }
}

// The least of the amount and what each step takes.
fn width_along(state: &State<'_>, walk: &Walk, most: u64) -> u64
    requires walk { IsWalk state.now.network.now walk.now }
{
    let mut width = most;
    for place in 0..walk.steps.len() {
        width = width.min(left_at(state, walk.steps[place].step));
    }
    width
}

// Pushes the amount along the walk.
fn push_along(state: &mut State<'_>, walk: &Walk, amount: u64)
    requires calm { IsCalm state.old }
    requires walk { IsWalk state.old.network.now walk.now }
    ensures network { state.new.network.now ≡ state.old.network.now }
    ensures calm { IsCalm state.new }
{
    for place in 0..walk.steps.len() {
        push_over(state, walk.steps[place].step, amount);
    }
}

// What can go from the source to the node with a deficit, as far as the two say.
fn most_between(state: &State<'_>, source: u32, node: u32) -> u64
    requires source_in { source < state.now.network.now.nodes }
    requires node_in { node < state.now.network.now.nodes }
{
    let lacks = state.excess[node as usize];
    if lacks < 0 {
        amount_of(state.excess[source as usize]).min(deficit_of(lacks))
    } else {
        0
    }
}

// Pushes what it can along the walk from the source to the node, if that has a deficit. Says whether it has one.
fn push_to(state: &mut State<'_>, walk: &Walk, source: u32, node: u32) -> bool
    requires calm { IsCalm state.old }
    requires walk { IsWalk state.old.network.now walk.now }
    requires source_in { source < state.old.network.now.nodes }
    requires node_in { node < state.old.network.now.nodes }
    ensures network { state.new.network.now ≡ state.old.network.now }
    ensures calm { IsCalm state.new }
{
    let most = most_between(state, source, node);
    if most == 0 {
        return false;
    }
    let amount = width_along(state, walk, most);
    push_along(state, walk, amount);
    true
}

// Walks from the source to deficits, as often as it has an excess and a way. Says whether it came to one.
fn walk_from(
    links: &Links,
    state: &mut State<'_>,
    walk: &mut Walk,
    source: u32,
) -> Result<bool, AllocError>
    requires calm { IsCalm state.old }
    requires links { AreLinks state.old.network.now links.now }
    requires walk { IsWalk state.old.network.now walk.old }
    requires source_in { source < state.old.network.now.nodes }
    ensures network { state.new.network.now ≡ state.old.network.now }
    ensures calm { IsCalm state.new }
    ensures walk { OnOk result (IsWalk state.old.network.now walk.new) }
{
    let mut arrived = false;
    let mut node = source;
    walk.steps.clear();
    for _move in 0..2 * (state.network.nodes() as usize + state.network.arcs().len()) {
        let pushed = push_to(state, walk, source, node);
        if pushed {
            walk.steps.clear();
            arrived = true;
            node = source;
        }
        if state.excess[source as usize] <= 0 {
            return Ok(arrived);
        }
        match go_on(links, state, walk, node)? {
            Some(next) => node = next,
            None => return Ok(arrived),
        }
    }
    Ok(arrived)
}

// A walk that has not begun.
fn walk_at(alloc: Global, links: &Links, state: &State<'_>) -> Result<Walk, AllocError>
    requires links { AreLinks state.now.network.now links.now }
    ensures { IfOk result (λ walk. IsWalk state.now.network.now walk) }
{
    let levels = levels_of(alloc, links, state)?;
    Ok(Walk {
        levels: levels.each,
        next: links.starts.as_slice().to_vec(alloc)?,
        steps: Vec::new(alloc),
    })
}

// One pass. Says whether it pushed anything.
fn pass(alloc: Global, links: &Links, state: &mut State<'_>) -> Result<bool, AllocError>
    requires calm { IsCalm state.old }
    requires links { AreLinks state.old.network.now links.now }
    ensures network { state.new.network.now ≡ state.old.network.now }
    ensures calm { IsCalm state.new }
{
    let mut walk = walk_at(alloc, links, state)?;
    let mut pushed = false;
    for source in 0..state.network.nodes() {
        let arrived = walk_from(links, state, &mut walk, source)?;
        pushed = pushed || arrived;
    }
    Ok(pushed)
}

/// Carries away what steps of reduced cost 0 can, pass after pass, until one pushes nothing.
pub fn block(alloc: Global, links: &Links, state: &mut State<'_>) -> Result<(), AllocError>
    requires calm { IsCalm state.old }
    requires links { AreLinks state.old.network.now links.now }
    ensures network { state.new.network.now ≡ state.old.network.now }
    ensures calm { IsCalm state.new }
{
    for _pass in 0..PASSES {
        let pushed = pass(alloc, links, state)?;
        if !pushed {
            break;
        }
    }
    Ok(())
}
