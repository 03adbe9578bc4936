// A source and a sink in memory that never fail.
ghost use Rattle.std.specs.Prelude.{◌≡◌, ◌<◌, ◌≤◌, ◌++◌, [], length, take, drop, min, Some, Ok, IsSome, IsNone, IfOk};
ghost use Rattle.edge_io.specs.Counts.{HasCause};
ghost use Rattle.edge_io.specs.Told.{TakesLeft, Adds};

use crate::{Io, Sink, Source};
use std::alloc::Global;
use std::marker::Model;

/// A source of bytes in memory. Each read gives as many bytes as there are and fit, and none fails.
#[derive(Drop)]
pub struct SureSource {
    bytes: Vec<u8>,
    at: usize,
}

impl Model for SureSource {
    ghost use Rattle.std.specs.Prelude.{◌≤◌, length, take, drop};
    ghost use Rattle.edge_io.specs.Memory.{SureBytes};

    ghost Value = { SureBytes };

    ghost view = { λ s. record { given = take s.at s.bytes.items; left = drop s.at s.bytes.items } };

    ghost invariant = { λ s. s.at ≤ length s.bytes.items };
}

impl SureSource {
    /// All these bytes are still to come. Takes no memory.
    pub fn new(bytes: Vec<u8>) -> SureSource
        ensures { result ≡ record { given = []; left = bytes.items } }
    {
        SureSource { bytes, at: 0 }
    }
}

// Copies as many bytes as there are and fit into the front of the room.
fn copy_front(bytes: &[u8], room: &mut [u8]) -> usize
    ensures count { result ≡ min (length room.old) (length bytes.now) }
    ensures copied { take result room.new ≡ take result bytes.now }
{
    let n = room.len().min(bytes.len());
    room[..n].copy_from_slice(&bytes[..n]);
    n
}

impl Source for SureSource {
    ghost faults = { λ _. 0 };

    ghost given = { λ s. Some s.given };

    ghost left = { λ s. Some s.left };

    fn read(&mut self, room: &mut [u8]) -> Result<usize, Io>
        requires { 0 < length room.old }
        ensures count { result ≡ Ok (min (length room.old) (length self.old.left)) }
        ensures fits { IfOk result (λ n. n ≤ length room.new) }
        ensures left { TakesLeft (Some self.old.left) (Some self.new.left) result room.new }
        ensures given { Adds (Some self.old.given) (Some self.new.given) result room.new }
        ensures cause { HasCause 0 0 result }
    {
        let n = copy_front(&self.bytes[self.at..], room);
        self.at += n;
        Ok(n)
    }
}

/// A sink that holds in memory what it takes. Each write takes the whole piece, and none fails. Where it finds no room
/// it drops the piece and all later ones, and from then on doesn't tell what it took.
#[derive(Drop)]
pub struct SureSink {
    held: Vec<u8>,
    whole: bool,
}

impl Model for SureSink {
    ghost use Rattle.std.specs.Prelude.{None, Some, if◌then◌else◌};
    ghost use Rattle.edge_io.specs.Memory.{SureTaken};

    ghost Value = { SureTaken };

    ghost view = { λ s. record { taken = if s.whole then Some s.held.items else None; held = s.held.items } };
}

impl SureSink {
    /// Nothing was taken yet. Takes no memory.
    pub fn new(alloc: Global) -> SureSink
        ensures { result ≡ record { taken = Some []; held = [] } }
    {
        SureSink {
            held: Vec::new(alloc),
            whole: true,
        }
    }

    /// What it holds: all that it took, or the pieces before the first that it dropped. Takes no memory.
    pub fn bytes(&self) -> &[u8]
        ensures held { result.now ≡ self.now.held }
        ensures told { IsSome self.now.taken → self.now.taken ≡ Some result.now }
    {
        &self.held
    }
}

impl Sink for SureSink {
    ghost faults = { λ _. 0 };

    ghost taken = { λ s. s.taken };

    fn write(&mut self, piece: &[u8]) -> Result<usize, Io>
        requires { 0 < length piece.now }
        ensures count { result ≡ Ok (length piece.now) }
        ensures some { IfOk result (λ n. 1 ≤ n) }
        ensures fits { IfOk result (λ n. n ≤ length piece.now) }
        ensures taken { Adds self.old.taken self.new.taken result piece.now }
        ensures dropped { IsNone self.new.taken → self.new.held ≡ self.old.held }
        ensures cause { HasCause 0 0 result }
    {
        self.whole = self.whole && self.held.extend_from_slice(piece).is_ok();
        Ok(piece.len())
    }
}
