ghost use Rattle.std.specs.Prelude.{◌≡◌, ◌<◌, ◌≤◌, ◌↔◌, ℕ, List, length, IsOk, IfOk, IfErr, IsTrue, IsFalse, slice_index_or};

use crate::limits::is_within;
use match_rules::{MOST_PAIRS, MOST_PAPERS, MOST_REVIEWERS, MOST_SCORE};
use std::marker::Model;

/// An arc: it carries an amount from its tail to its head, at least its floor and at most its room, at its cost a unit.
#[derive(Clone, Copy)]
pub struct Arc {
    pub tail: u32,
    pub head: u32,
    pub floor: u64,
    pub room: u64,
    pub cost: i64,
}

/// The greatest number of nodes of a network: papers, groups, of which there are at most as many as pairs, reviewers, and
/// the hub.
pub const MAX_NODES: u32 = MOST_PAPERS + MOST_PAIRS + MOST_REVIEWERS + 1;

/// The greatest number of arcs of a network: one for each pair, paper, group and reviewer.
pub const MAX_ARCS: usize = (MOST_PAIRS + MOST_PAPERS + MOST_PAIRS + MOST_REVIEWERS) as usize;

/// The greatest room of an arc, 2^50.
pub const MAX_ROOM: u64 = 1_125_899_906_842_624;

/// The greatest magnitude of a cost, which is that of a score.
pub const MAX_COST: i64 = MOST_SCORE as i64;

/// A network: nodes, counted from 0, and arcs between them. A circulation gives each arc an amount between its floor
/// and its room, so that at each node as much enters as leaves.
#[derive(Drop)]
pub struct Network {
    nodes: u32,
    arcs: Vec<Arc>,
}

impl Model for Network {
    ghost use Rattle.bounded_network.specs.Network.{NetworkValue, IsNetwork};

    ghost Value = { NetworkValue };

    ghost view = { λ n. record { nodes = n.nodes; arcs = n.arcs.items } };

    ghost invariant = { λ n. IsNetwork (record { nodes = n.nodes; arcs = n.arcs.items }) };
}

impl Network {
    ghost use Rattle.bounded_network.specs.Network.{NetworkValue, IsNetwork, with_bounds};

    /// The network of the arcs, which are handed back where a limit is broken. It takes no memory.
    pub fn new(nodes: u32, arcs: Vec<Arc>) -> Result<Network, Vec<Arc>>
        ensures exact { IsOk result ↔ IsNetwork (record { nodes = nodes; arcs = arcs.items }) }
        ensures value { IfOk result (λ net. net ≡ record { nodes = nodes; arcs = arcs.items }) }
        ensures handed_back { IfErr result (λ same. same.items ≡ arcs.items) }
    {
        let within = is_within(nodes, &arcs);
        if within {
            Ok(Network { nodes, arcs })
        } else {
            Err(arcs)
        }
    }

    pub fn nodes(&self) -> u32
        ensures value { result ≡ self.now.nodes }
        ensures kept { IsNetwork self.now }
    {
        self.nodes
    }

    pub fn arcs(&self) -> &[Arc]
        ensures value { result.now ≡ self.now.arcs }
        ensures kept { IsNetwork self.now }
    {
        self.arcs.as_slice()
    }

    /// Sets the bounds of one arc, by its place, and leaves all else. It answers false, and changes nothing, where no arc
    /// has the place or [`Network::new`] would refuse the bounds. It takes no memory.
    pub fn rebound(&mut self, arc: u32, floor: u64, room: u64) -> bool
        ensures exact { IsTrue result ↔ ((arc < length self.old.arcs) × IsNetwork (with_bounds self.old arc floor room)) }
        ensures bounds { IsTrue result ↔ ((arc < length self.old.arcs) × (floor ≤ room) × (room ≤ MAX_ROOM)) }
        ensures set { IsTrue result → self.new ≡ with_bounds self.old arc floor room }
        ensures unchanged { IsFalse result → self.new ≡ self.old }
        ensures kept { IsNetwork self.new }
    {
        let place = arc as usize;
        if place >= self.arcs.len() || room < floor || MAX_ROOM < room {
            return false;
        }
        let old = self.arcs[place];
        self.arcs[place] = Arc { floor, room, ..old };
        true
    }
}
