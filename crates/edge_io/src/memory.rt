// A source and a sink in memory, of which listed calls fail.
ghost use Rattle.std.specs.Prelude.{◌≡◌, ◌<◌, ◌≤◌, ◌+◌, ◌-◌, ◌^◌, [], length, min, is_err, Some, IsSome, IsNone, IfOk, IsOkAnd, OnOk, OnErr};
ghost use Rattle.edge_io.specs.Counts.{HasCause};
ghost use Rattle.edge_io.specs.Memory.{is_listed, Counted};
ghost use Rattle.edge_io.specs.Told.{TakesLeft, Adds};

use crate::{Calls, Io, Sink, Source, SureSink, SureSource};
use std::alloc::{AllocError, Global};
use std::marker::Model;

/// A source of bytes in memory. The reads with listed numbers fail; each other gives as many bytes as there are and fit.
#[derive(Drop)]
pub struct MemorySource {
    source: SureSource,
    calls: Calls,
}

impl Model for MemorySource {
    ghost use Rattle.edge_io.specs.Memory.{MemoryBytes};

    ghost Value = { MemoryBytes };

    ghost view = { λ s. record { given = s.source.given; left = s.source.left; calls = s.calls } };
}

impl MemorySource {
    /// All these bytes are still to come. The reads whose numbers are in `fails` fail; the first has the number 1.
    pub fn new(bytes: Vec<u8>, fails: Vec<u64>) -> Result<MemorySource, AllocError>
        ensures { IsOkAnd result (λ s. s ≡ record {
          given = [];
          left = bytes.items;
          calls = record { made = 0; faults = 0; fails = fails.items };
        }) }
    {
        Ok(MemorySource {
            source: SureSource::new(bytes),
            calls: Calls::new(fails),
        })
    }
}

impl Source for MemorySource {
    ghost faults = { λ s. s.calls.faults };

    ghost given = { λ s. Some s.given };

    ghost left = { λ s. Some s.left };

    fn read(&mut self, room: &mut [u8]) -> Result<usize, Io>
        requires { 0 < length room.old }
        ensures calls { Counted self.old.calls self.new.calls result }
        ensures count { IfOk result (λ n. n ≡ min (length room.old) (length self.old.left)) }
        ensures fits { IfOk result (λ n. n ≤ length room.new) }
        ensures left { TakesLeft (Some self.old.left) (Some self.new.left) result room.new }
        ensures given { Adds (Some self.old.given) (Some self.new.given) result room.new }
        ensures cause { HasCause self.old.calls.faults self.new.calls.faults result }
    {
        self.calls.begin()?;
        self.source.read(room)
    }
}

/// A sink that holds in memory what it takes. The writes with listed numbers fail; each other takes the whole piece.
/// Where it finds no room it drops the piece and all later ones, and from then on doesn't tell what it took.
#[derive(Drop)]
pub struct MemorySink {
    sink: SureSink,
    calls: Calls,
}

impl Model for MemorySink {
    ghost use Rattle.edge_io.specs.Memory.{MemoryTaken};

    ghost Value = { MemoryTaken };

    ghost view = { λ s. record { taken = s.sink.taken; held = s.sink.held; calls = s.calls } };
}

impl MemorySink {
    /// Nothing was taken yet. The writes whose numbers are in `fails` fail; the first has the number 1.
    pub fn new(alloc: Global, fails: Vec<u64>) -> Result<MemorySink, AllocError>
        ensures { IsOkAnd result (λ s. s ≡ record {
          taken = Some [];
          held = [];
          calls = record { made = 0; faults = 0; fails = fails.items };
        }) }
    {
        Ok(MemorySink {
            sink: SureSink::new(alloc),
            calls: Calls::new(fails),
        })
    }

    /// What it holds: all that it took, or the pieces before the first that it dropped. Takes no memory.
    pub fn bytes(&self) -> &[u8]
        ensures held { result.now ≡ self.now.held }
        ensures told { IsSome self.now.taken → self.now.taken ≡ Some result.now }
    {
        self.sink.bytes()
    }
}

impl Sink for MemorySink {
    ghost faults = { λ s. s.calls.faults };

    ghost taken = { λ s. s.taken };

    fn write(&mut self, piece: &[u8]) -> Result<usize, Io>
        requires { 0 < length piece.now }
        ensures calls { Counted self.old.calls self.new.calls result }
        ensures count { IfOk result (λ n. n ≡ length piece.now) }
        ensures some { IfOk result (λ n. 1 ≤ n) }
        ensures fits { IfOk result (λ n. n ≤ length piece.now) }
        ensures taken { Adds self.old.taken self.new.taken result piece.now }
        ensures dropped { IsNone self.new.taken → self.new.held ≡ self.old.held }
        ensures untouched { OnErr result (self.new.taken ≡ self.old.taken) }
        ensures cause { HasCause self.old.calls.faults self.new.calls.faults result }
    {
        self.calls.begin()?;
        self.sink.write(piece)
    }
}
