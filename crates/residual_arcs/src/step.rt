// Steps over arcs.
ghost use Rattle.std.specs.Prelude.{◌≡◌, ◌<◌, ◌≤◌, length, ℤ, ◌≤ℤ◌, ℕ, ◌^◌, neg_ℤ};
ghost use Rattle.residual_arcs.specs.Step.{start_of, end_of, step_cost, left_on, carried};
ghost use Rattle.bounded_network.specs.Network.{arc_at, IsNetwork, IsArc};
ghost use Rattle.bounded_network.specs.declared.network.TheConstants.{MAX_COST};

use bounded_network::{Arc, Network};

/// A step over the arc at a place: forward from its tail to its head, or back from its head to its tail.
#[derive(Clone, Copy)]
pub struct Step {
    pub arc: u32,
    pub forward: bool,
}

/// The number of arcs.
pub fn arc_count(net: &Network) -> u32
    ensures value { result ≡ length net.now.arcs }
    ensures kept { IsNetwork net.now }
{
    net.arcs().len() as u32
}

/// The arc at the place.
pub fn arc_of(net: &Network, place: u32) -> Arc
    requires { place < length net.now.arcs }
    ensures value { result ≡ arc_at net.now place }
    ensures within { IsArc net.now.nodes result }
    ensures kept { IsNetwork net.now }
{
    net.arcs()[place as usize]
}

/// The node that a step over the arc leaves: its tail, or going back its head.
pub fn start(arc: Arc, forward: bool) -> u32
    ensures { result ≡ start_of arc forward }
{
    if forward { arc.tail } else { arc.head }
}

/// The node that a step over the arc enters: its head, or going back its tail.
pub fn end(arc: Arc, forward: bool) -> u32
    ensures { result ≡ end_of arc forward }
{
    if forward { arc.head } else { arc.tail }
}

/// How much more a step over the arc may carry where the arc carries the amount: up to its room, or going back down to its
/// floor.
pub fn left(arc: Arc, amount: u64, forward: bool) -> u64
    requires least { arc.floor ≤ amount }
    requires most { amount ≤ arc.room }
    ensures { result ≡ left_on arc amount forward }
{
    if forward {
        arc.room - amount
    } else {
        amount - arc.floor
    }
}

/// What a unit costs that a step over the arc carries: the arc's cost, which a step back gives back.
pub fn cost(arc: Arc, forward: bool) -> i64
    requires low { neg_ℤ MAX_COST ≤ℤ arc.cost }
    requires high { arc.cost ≤ℤ MAX_COST }
    ensures { result ≡ step_cost arc forward }
{
    if forward { arc.cost } else { -arc.cost }
}

/// What the arc carries once the step carries the amount.
pub fn carry_on(arc: Arc, had: u64, forward: bool, amount: u64) -> u64
    requires least { arc.floor ≤ had }
    requires most { had ≤ arc.room }
    requires fits { amount ≤ left_on arc had forward }
    ensures { result ≡ carried had forward amount }
{
    if forward { had + amount } else { had - amount }
}
