// Lists that contracts see as lists of numbers.

ghost use Rattle.std.specs.Prelude.{◌≡◌, ◌↔◌, ◌<◌, All, IfOk, IsTrue};
ghost use Rattle.match_rules.specs.Pieces.{DoAscend};

use std::alloc::{AllocError, Global};
use std::marker::Model;

/// A list of places: numbers from 0, in an order that is stated elsewhere.
#[derive(Drop)]
pub struct Places {
    items: Vec<u32>,
}

impl Model for Places {
    ghost use Rattle.std.specs.Prelude.{List, ℕ};

    ghost Value = { List ℕ };

    ghost view = { λ p. p.items.items };
}

impl Places {
    /// The places of a vector, without taking memory.
    pub fn from_vec(items: Vec<u32>) -> Self
        ensures { result ≡ items.items }
    {
        Places { items }
    }

    /// The vector of these places, without taking memory.
    pub fn into_vec(self) -> Vec<u32>
        ensures { result.items ≡ self }
    {
        self.items
    }

    /// The places as a slice.
    pub fn as_slice(&self) -> &[u32]
        ensures { result.now ≡ self.now }
    {
        self.items.as_slice()
    }

    /// Whether each place is below a count.
    pub fn are_below(&self, count: u32) -> bool
        ensures { IsTrue result ↔ All (λ place. place < count) self.now }
    {
        all_below(count, self.items.as_slice())
    }

    /// Whether the places strictly ascend.
    pub fn do_ascend(&self) -> bool
        ensures { IsTrue result ↔ DoAscend self.now }
    {
        do_ascend(self.items.as_slice())
    }

    /// An equal list.
    pub fn copy(&self, alloc: Global) -> Result<Self, AllocError>
        ensures { IfOk result (λ copy. copy ≡ self.now) }
    {
        let items = Vec::from_slice(alloc, self.items.as_slice())?;
        Ok(Places { items })
    }
}

fn all_below(count: u32, places: &[u32]) -> bool
    ensures { IsTrue result ↔ All (λ place. place < count) places.now }
{
    places.iter().all(|place| *place < count)
}

fn do_ascend(places: &[u32]) -> bool
    ensures { IsTrue result ↔ DoAscend places.now }
{
    for i in 1..places.len() {
        if places[i - 1] >= places[i] {
            return false;
        }
    }
    true
}

/// A list of prices, each in 10^-6 of a score.
#[derive(Drop)]
pub struct PriceList {
    items: Vec<i64>,
}

impl Model for PriceList {
    ghost use Rattle.std.specs.Prelude.{List, ℤ};

    ghost Value = { List ℤ };

    ghost view = { λ p. p.items.items };
}

impl PriceList {
    /// The prices of a vector, without taking memory.
    pub fn from_vec(items: Vec<i64>) -> Self
        ensures { result ≡ items.items }
    {
        PriceList { items }
    }

    /// The vector of these prices, without taking memory.
    pub fn into_vec(self) -> Vec<i64>
        ensures { result.items ≡ self }
    {
        self.items
    }

    /// The prices as a slice.
    pub fn as_slice(&self) -> &[i64]
        ensures { result.now ≡ self.now }
    {
        self.items.as_slice()
    }

    /// An equal list.
    pub fn copy(&self, alloc: Global) -> Result<Self, AllocError>
        ensures { IfOk result (λ copy. copy ≡ self.now) }
    {
        let items = Vec::from_slice(alloc, self.items.as_slice())?;
        Ok(PriceList { items })
    }
}

/// The shares of the candidate pairs, by their places: one number of tickets for each pair.
#[derive(Drop)]
pub struct Shares {
    tickets: Vec<u32>,
}

impl Model for Shares {
    ghost use Rattle.std.specs.Prelude.{List, ℕ};

    ghost Value = { List ℕ };

    ghost view = { λ s. s.tickets.items };
}

impl Shares {
    /// The shares of a vector, without taking memory.
    pub fn from_vec(tickets: Vec<u32>) -> Self
        ensures { result ≡ tickets.items }
    {
        Shares { tickets }
    }

    /// The vector of these shares, without taking memory.
    pub fn into_vec(self) -> Vec<u32>
        ensures { result.items ≡ self }
    {
        self.tickets
    }

    /// The shares as a slice.
    pub fn as_slice(&self) -> &[u32]
        ensures { result.now ≡ self.now }
    {
        self.tickets.as_slice()
    }

    /// Equal shares.
    pub fn copy(&self, alloc: Global) -> Result<Self, AllocError>
        ensures { IfOk result (λ copy. copy ≡ self.now) }
    {
        let tickets = Vec::from_slice(alloc, self.tickets.as_slice())?;
        Ok(Shares { tickets })
    }
}
