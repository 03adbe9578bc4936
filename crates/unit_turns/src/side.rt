// A side of the search: the nodes that it has reached.
ghost use Rattle.std.specs.Prelude.{◌≡◌, ◌+◌, ◌<◌, ◌^◌, ◌∷◌, ◌++◌, [], length, slice_set, IfOk, OnOk, OnErr};
ghost use Rattle.std.specs.Bool.{OnTrue};
ghost use Rattle.unit_turns.specs.Side.{IsBlank, AreNumbered, toward};

use bounded_network::Network;
use residual_arcs::Step;
use std::alloc::{AllocError, Global};

/// How a side is searched: ahead from the start of the path, or from behind, from its end. No step goes over the arc to avoid.
#[derive(Clone, Copy)]
pub struct Aim {
    pub ahead: bool,
    pub avoid: u32,
}

/// A node that is reached by a step from the node of an earlier place. The step leads away from the root of the side: from
/// behind, the path takes it turned.
#[derive(Clone, Copy)]
pub struct Reach {
    pub node: u32,
    pub from: u32,
    pub step: Step,
}

/// The nodes that a side has reached, its root first, and for each node of the network one more than its place, or 0.
#[derive(Drop)]
pub struct Side {
    pub reaches: Vec<Reach>,
    pub places: Vec<u32>,
}

/// A side that has reached no node. One serves for many turns.
pub fn blank(alloc: Global, net: &Network) -> Result<Side, AllocError>
    ensures { IfOk result (λ side. IsBlank net.now side) }
{
    let places = vec![in alloc; 0u32; net.nodes() as usize]?;
    Ok(Side {
        reaches: Vec::new(alloc),
        places,
    })
}

/// Adds a node that is reached.
pub fn add(side: &mut Side, reach: Reach) -> Result<(), AllocError>
    requires node_in { reach.node < length side.old.places.items }
    requires few { length side.old.reaches.items < 2 ^ 31 }
    ensures reaches { OnOk result (side.new.reaches.items ≡ side.old.reaches.items ++ reach ∷ []) }
    ensures places { OnOk result (side.new.places.items ≡ slice_set side.old.places.items reach.node (length side.old.reaches.items + 1)) }
    ensures same_reaches { OnErr result (side.new.reaches.items ≡ side.old.reaches.items) }
    ensures same_places { OnErr result (side.new.places.items ≡ side.old.places.items) }
{
    let place = side.reaches.len() as u32;
    side.reaches.push(reach)?;
    side.places[reach.node as usize] = place + 1;
    Ok(())
}

/// Forgets all nodes. Only what was reached is touched.
pub fn clear(net: &Network, side: &mut Side)
    requires { AreNumbered net.now side.old }
    ensures { IsBlank net.now side.new }
{
    let _nodes = net.nodes();
    for place in 0..side.reaches.len() {
        let node = side.reaches[place].node;
        side.places[node as usize] = 0;
    }
    side.reaches.clear();
}

/// The step as the path takes it.
pub fn taken(step: Step, ahead: bool) -> Step
    ensures arc { result.arc ≡ step.arc }
    ensures forward { result.forward ≡ toward ahead step.forward }
{
    let forward = if ahead { step.forward } else { !step.forward };
    Step {
        arc: step.arc,
        forward,
    }
}
