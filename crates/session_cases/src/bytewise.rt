//! A source that gives its bytes one by one.

ghost use Rattle.std.specs.Prelude.{◌<◌, ◌≤◌, length, Some, IfOk};
ghost use Rattle.edge_io.specs.Counts.{HasCause};
ghost use Rattle.edge_io.specs.Told.{Adds, TakesLeft};

use edge_io::{Io, MemorySource, Source};

/// Each read gives one byte of the source behind it, until there is none.
#[derive(Drop)]
pub(crate) struct Bytewise {
    pub source: MemorySource,
}

impl Source for Bytewise {
    ghost faults = { λ s. s.source.calls.faults };

    ghost given = { λ s. Some s.source.given };

    ghost left = { λ s. Some s.source.left };

    fn read(&mut self, room: &mut [u8]) -> Result<usize, Io> {
        self.source.read(&mut room[..1])
    }
}
