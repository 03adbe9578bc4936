// Arcs in lists by ticket.

ghost use Rattle.std.specs.Prelude.{◌≡◌, ◌<◌, ◌++◌, ◌∷◌, [], ℕ, length, slice_index_or, slice_set, IfOk, OnOk};

use std::alloc::{AllocError, Global};
use std::marker::Model;

/// A list of arcs for each ticket: contracts see the lists.
///
/// It serves as a heap would that has the arcs whose counts are due first on top, since tickets are few (at most 10,000) and are
/// passed but once: an arc is added in constant time, and the lists that are found empty are at most as many as the tickets.
#[derive(Drop)]
pub struct DueLists {
    lists: Vec<Vec<u32>>,
}

impl Model for DueLists {
    ghost use Rattle.std.specs.Prelude.{List, ℕ, map};
    ghost use Rattle.std.specs.declared.vec.Vec.{Vec};

    ghost Value = { List (List ℕ) };

    ghost view = { λ s. map (λ arcs. arcs.items) s.lists.items };
}

impl DueLists {
    /// No arcs, at as many tickets.
    pub fn empty(alloc: Global, tickets: u32) -> Result<DueLists, AllocError>
        ensures { IfOk result (λ waiting. length waiting ≡ tickets) }
    {
        let mut lists = Vec::with_capacity(alloc, tickets as usize)?;
        for _ in 0..tickets {
            lists.push(Vec::new(alloc))?;
        }
        Ok(DueLists { lists })
    }

    /// Adds an arc to the list of the ticket.
    pub fn push(&mut self, ticket: u32, arc: u32) -> Result<(), AllocError>
        requires known { ticket < length self.old }
        ensures { OnOk result (self.new ≡ slice_set self.old ticket (slice_index_or self.old ticket [] ++ arc ∷ [])) }
    {
        self.lists[ticket as usize].push(arc)?;
        Ok(())
    }

    /// The arcs in the list of the ticket.
    pub fn at(&self, ticket: u32) -> &[u32]
        requires known { ticket < length self.now }
        ensures { result.now ≡ slice_index_or self.now ticket [] }
    {
        self.lists[ticket as usize].as_slice()
    }
}
