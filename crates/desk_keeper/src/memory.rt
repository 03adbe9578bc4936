// Keepers in memory: one that never fails, and one of which listed calls fail.

ghost use Rattle.std.specs.Prelude.{◌≡◌, ◌+◌, ◌↔◌, ◌∷◌, ◌++◌, [], true, ℕ, List, map, Option, Some, Err, OnOk, OnErr, IfOk, slice_get};
ghost use Rattle.std.specs.Option.{option_map};
ghost use Rattle.edge_io.specs.Memory.{is_listed, one_more};
ghost use Rattle.desk_keeper.specs.Keepers.{Appends, IsNext, KeepFails, Reads};

use crate::{KeepFault, Keeper};
use edge_io::{Calls, Io};
use std::alloc::{AllocError, Global};
use std::marker::Model;

/// Rows in memory. It fails only for want of memory.
#[derive(Drop)]
pub struct SureKeeper {
    rows: Vec<Vec<u8>>,
}

impl Model for SureKeeper {
    ghost use Rattle.std.specs.Prelude.{List, ℕ, map};

    ghost Value = { List (List ℕ) };

    ghost view = { λ k. map (λ row. row.items) k.rows.items };
}

impl SureKeeper {
    /// It keeps no row yet. Takes no memory.
    pub fn new(alloc: Global) -> SureKeeper
        ensures { result ≡ [] }
    {
        SureKeeper {
            rows: Vec::new(alloc),
        }
    }

    // It keeps these rows.
    fn of_rows(rows: Vec<Vec<u8>>) -> SureKeeper
        ensures { result ≡ map (λ row. row.items) rows.items }
    {
        SureKeeper { rows }
    }

    fn push(&mut self, alloc: Global, row: &[u8]) -> Result<(), AllocError>
        ensures kept { OnOk result (self.new ≡ self.old ++ row.now ∷ []) }
        ensures same { OnErr result (self.new ≡ self.old) }
    {
        let copy = Vec::from_slice(alloc, row)?;
        self.rows.push(copy)?;
        Ok(())
    }

    fn copy_of(&self, alloc: Global, place: u64) -> Result<Option<Vec<u8>>, AllocError>
        ensures { IfOk result (λ row. option_map (λ bytes. bytes.items) row ≡ slice_get self.now place) }
    {
        match self.rows.get(place as usize) {
            Some(row) => Ok(Some(Vec::from_slice(alloc, row.as_slice())?)),
            None => Ok(None),
        }
    }
}

impl Keeper for SureKeeper {
    ghost faults = { λ _. 0 };

    ghost rows = { λ k. Some k };

    fn append(&mut self, alloc: Global, _place: u64, row: &[u8]) -> Result<(), KeepFault>
        requires { IsNext (Some self.old) _place }
        ensures rows { Appends (Some self.old) (Some self.new) result row.now }
        ensures cause { KeepFails 0 0 result }
        ensures sure { OnErr result (result ≡ Err KeepFault.Memory) }
    {
        match self.push(alloc, row) {
            Ok(()) => Ok(()),
            Err(_) => Err(KeepFault::Memory),
        }
    }

    fn read(&mut self, alloc: Global, place: u64) -> Result<Option<Vec<u8>>, KeepFault>
        ensures rows { Reads (Some self.old) (Some self.new) result place }
        ensures cause { KeepFails 0 0 result }
        ensures sure { OnErr result (result ≡ Err KeepFault.Memory) }
    {
        match self.copy_of(alloc, place) {
            Ok(row) => Ok(row),
            Err(_) => Err(KeepFault::Memory),
        }
    }
}

/// Rows in memory. The calls with listed numbers fail; appends and reads are numbered together, from 1.
#[derive(Drop)]
pub struct MemoryKeeper {
    keeper: SureKeeper,
    calls: Calls,
}

impl Model for MemoryKeeper {
    ghost use Rattle.desk_keeper.specs.Keepers.{KeeperValue};

    ghost Value = { KeeperValue };

    ghost view = { λ k. record { rows = k.keeper; calls = k.calls } };
}

impl MemoryKeeper {
    /// It keeps these rows. The calls whose numbers are in `fails` fail. Takes no memory.
    pub fn new(rows: Vec<Vec<u8>>, fails: Vec<u64>) -> MemoryKeeper
        ensures { result ≡ record {
          rows = map (λ row. row.items) rows.items;
          calls = record { made = 0; faults = 0; fails = fails.items };
        } }
    {
        MemoryKeeper {
            keeper: SureKeeper::of_rows(rows),
            calls: Calls::new(fails),
        }
    }
}

impl Keeper for MemoryKeeper {
    ghost faults = { λ k. k.calls.faults };

    ghost rows = { λ k. Some k.rows };

    fn append(&mut self, alloc: Global, place: u64, row: &[u8]) -> Result<(), KeepFault>
        requires { IsNext (Some self.old.rows) place }
        ensures rows { Appends (Some self.old.rows) (Some self.new.rows) result row.now }
        ensures cause { KeepFails self.old.calls.faults self.new.calls.faults result }
        ensures failed { (result ≡ Err KeepFault.Failed) ↔ (is_listed (self.old.calls.made + 1) self.old.calls.fails ≡ true) }
        ensures made { self.new.calls.made ≡ one_more self.old.calls.made }
        ensures listed { self.new.calls.fails ≡ self.old.calls.fails }
    {
        match self.calls.begin() {
            Ok(()) => self.keeper.append(alloc, place, row),
            Err(Io::Failed) => Err(KeepFault::Failed),
        }
    }

    fn read(&mut self, alloc: Global, place: u64) -> Result<Option<Vec<u8>>, KeepFault>
        ensures rows { Reads (Some self.old.rows) (Some self.new.rows) result place }
        ensures cause { KeepFails self.old.calls.faults self.new.calls.faults result }
        ensures failed { (result ≡ Err KeepFault.Failed) ↔ (is_listed (self.old.calls.made + 1) self.old.calls.fails ≡ true) }
        ensures made { self.new.calls.made ≡ one_more self.old.calls.made }
        ensures listed { self.new.calls.fails ≡ self.old.calls.fails }
    {
        match self.calls.begin() {
            Ok(()) => self.keeper.read(alloc, place),
            Err(Io::Failed) => Err(KeepFault::Failed),
        }
    }
}
