// Price refinement (Goldberg 1997): the potentials of a phase are made right for its amounts, where these are best ones.
//
// A step with room and a negative reduced cost lowers the potential at its end until it is tight, and the end's steps are looked
// at again: this is Bellman's and Ford's search for shortest paths from the potentials there are.
ghost use Rattle.std.specs.Prelude.{◌≡◌, ◌<◌, length, IfOk, OnOk, All};
ghost use Rattle.flow_solver.specs.Coarse.{IsCoarse};
ghost use Rattle.residual_arcs.specs.Links.{AreLinks};
ghost use Rattle.flow_solver.specs.State.{IsWithin, most_cost};

use crate::coarse::{Coarse, relabelled, set_potential};
use crate::links::link_of;
use bounded_network::Network;
use residual_arcs::Links;
use std::alloc::{AllocError, Global};
use std::mem;

// How many rounds there are at most: where the amounts aren't best, they would never end.
const ROUNDS: u32 = 32;

// Gives the node the potential, and has its links looked at.
fn lower_to(
    net: &Network,
    links: &Links,
    coarse: &mut Coarse,
    node: u32,
    value: i64,
) -> Result<(), AllocError>
    requires coarse { IsCoarse net.now links.now coarse.old }
    requires links { AreLinks net.now links.now }
    requires node_in { node < net.now.nodes }
    requires small { IsWithin most_cost value }
    ensures { OnOk result (IsCoarse net.now links.now coarse.new) }
{
    set_potential(net, links, coarse, node, value);
    coarse.active.push(node)?;
    Ok(())
}

// Lowers the potential at the end of the node's link at the place, if that has room and a negative reduced cost.
fn lower_over(
    net: &Network,
    links: &Links,
    coarse: &mut Coarse,
    node: u32,
    place: usize,
) -> Result<(), AllocError>
    requires coarse { IsCoarse net.now links.now coarse.old }
    requires links { AreLinks net.now links.now }
    requires node_in { node < net.now.nodes }
    requires place_in { place < length links.now.all.items }
    ensures { OnOk result (IsCoarse net.now links.now coarse.new) }
{
    let link = link_of(net, links, place);
    let value = relabelled(coarse.potentials[node as usize], -link.cost);
    if coarse.left[place] > 0 && value < coarse.potentials[link.to as usize] {
        lower_to(net, links, coarse, link.to, value)?;
    }
    Ok(())
}

// Looks at all links of the node.
fn lower_from(
    net: &Network,
    links: &Links,
    coarse: &mut Coarse,
    node: u32,
) -> Result<(), AllocError>
    requires coarse { IsCoarse net.now links.now coarse.old }
    requires links { AreLinks net.now links.now }
    requires node_in { node < net.now.nodes }
    ensures { OnOk result (IsCoarse net.now links.now coarse.new) }
{
    for place in links.starts[node as usize]..links.starts[node as usize + 1] {
        lower_over(net, links, coarse, node, place)?;
    }
    Ok(())
}

// One round: looks at the nodes. Those whose potential fell are active then.
fn lower_from_each(
    net: &Network,
    links: &Links,
    coarse: &mut Coarse,
    nodes: &[u32],
) -> Result<(), AllocError>
    requires coarse { IsCoarse net.now links.now coarse.old }
    requires links { AreLinks net.now links.now }
    requires nodes { All (λ v. v < net.now.nodes) nodes.now }
    ensures { OnOk result (IsCoarse net.now links.now coarse.new) }
{
    for place in 0..nodes.len() {
        lower_from(net, links, coarse, nodes[place])?;
    }
    Ok(())
}

/// Makes the potentials right for the amounts, as far as that can be.
pub fn refine(
    alloc: Global,
    net: &Network,
    links: &Links,
    coarse: &mut Coarse,
) -> Result<(), AllocError>
    requires coarse { IsCoarse net.now links.now coarse.old }
    requires links { AreLinks net.now links.now }
    ensures { OnOk result (IsCoarse net.now links.now coarse.new) }
{
    coarse.active.clear();
    for node in 0..net.nodes() {
        lower_from(net, links, coarse, node)?;
    }
    for _round in 0..ROUNDS {
        let nodes = mem::replace(&mut coarse.active, Vec::new(alloc));
        lower_from_each(net, links, coarse, &nodes)?;
    }
    Ok(())
}
