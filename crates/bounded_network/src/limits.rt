// The limits of a network.
ghost use Rattle.std.specs.Prelude.{◌↔◌, IsTrue};
ghost use Rattle.bounded_network.specs.Network.{IsNetwork, IsArc};

use crate::network::{Arc, MAX_ARCS, MAX_COST, MAX_NODES, MAX_ROOM};

// Whether the arc is within the limits, in a network of so many nodes.
fn is_arc(nodes: u32, arc: Arc) -> bool
    ensures { IsTrue result ↔ IsArc nodes arc }
{
    arc.tail < nodes
        && arc.head < nodes
        && arc.floor <= arc.room
        && arc.room <= MAX_ROOM
        && -MAX_COST <= arc.cost
        && arc.cost <= MAX_COST
}

// Whether nodes and arcs are within the limits of a network.
pub fn is_within(nodes: u32, arcs: &[Arc]) -> bool
    ensures { IsTrue result ↔ IsNetwork (record { nodes = nodes; arcs = arcs.now }) }
{
    if nodes > MAX_NODES || arcs.len() > MAX_ARCS {
        return false;
    }
    for arc in arcs {
        let good = is_arc(nodes, *arc);
        if !good {
            return false;
        }
    }
    true
}
