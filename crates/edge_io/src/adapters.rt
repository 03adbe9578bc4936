// Readers and writers of std as sources and sinks. They tell no bytes: what a file or a stream gives, no proof knows.
ghost use Rattle.std.specs.Prelude.{◌≡◌, ◌<◌, ◌≤◌, length, None, IfOk};
ghost use Rattle.std.specs.Io.KnownBytes.{ReadConsumes, WriteAppends};
ghost use Rattle.edge_io.specs.Adapters.{CountsFault, read_answer, write_answer};
ghost use Rattle.edge_io.specs.Counts.{HasCause};
ghost use Rattle.edge_io.specs.Told.{TakesLeft, Adds};

use crate::{Io, Sink, Source};
use std::io::{self, Read, Write};
use std::marker::Model;

// What a read of std answered, as the answer of a source.
fn read_answer(answer: io::Result<usize>) -> Result<usize, Io>
    ensures { result ≡ read_answer answer }
{
    match answer {
        Ok(n) => Ok(n),
        Err(_) => Err(Io::Failed),
    }
}

// What a write of std answered, as the answer of a sink.
fn write_answer(answer: io::Result<usize>) -> Result<usize, Io>
    ensures { result ≡ write_answer answer }
{
    match answer {
        Ok(n) if n > 0 => Ok(n),
        _ => Err(Io::Failed),
    }
}

/// A reader of std as a source. Each read is one read of the reader; each error of it is counted as a fault.
/// The count stays at 18,446,744,073,709,551,615 once it is there.
#[derive(Drop)]
pub struct ReadSource<R: Read> {
    inner: R,
    faults: u64,
}

impl<R: Read> Model for ReadSource<R> {
    ghost use Rattle.edge_io.specs.Adapters.{Wrapped};

    ghost Value = { Wrapped R };

    ghost view = { λ s. record { inner = s.inner; faults = s.faults } };
}

impl<R: Read> ReadSource<R> {
    /// The reader has not failed yet. Takes no memory.
    pub fn new(inner: R) -> ReadSource<R>
        ensures { result ≡ record { inner = inner; faults = 0 } }
    {
        ReadSource { inner, faults: 0 }
    }
}

impl<R: Read> Source for ReadSource<R> {
    ghost faults = { λ s. s.faults };

    ghost given = { λ _. None };

    ghost left = { λ _. None };

    fn read(&mut self, room: &mut [u8]) -> Result<usize, Io>
        requires { 0 < length room.old }
        ensures passed_on { ReadConsumes (R.remaining self.old.inner) (R.remaining self.new.inner) result room.new }
        ensures counted { CountsFault self.old.faults self.new.faults result }
        ensures fits { IfOk result (λ n. n ≤ length room.new) }
        ensures left { TakesLeft None None result room.new }
        ensures given { Adds None None result room.new }
        ensures cause { HasCause self.old.faults self.new.faults result }
    {
        let answer = read_answer(self.inner.read(room));
        if answer.is_err() {
            self.faults = self.faults.saturating_add(1);
        }
        answer
    }
}

/// A writer of std as a sink. Each write is one write of the writer; each error of it, and a write that takes nothing,
/// is counted as a fault. The count stays at 18,446,744,073,709,551,615 once it is there. It doesn't flush the writer.
#[derive(Drop)]
pub struct WriteSink<W: Write> {
    inner: W,
    faults: u64,
}

impl<W: Write> Model for WriteSink<W> {
    ghost use Rattle.edge_io.specs.Adapters.{Wrapped};

    ghost Value = { Wrapped W };

    ghost view = { λ s. record { inner = s.inner; faults = s.faults } };
}

impl<W: Write> WriteSink<W> {
    /// The writer has not failed yet. Takes no memory.
    pub fn new(inner: W) -> WriteSink<W>
        ensures { result ≡ record { inner = inner; faults = 0 } }
    {
        WriteSink { inner, faults: 0 }
    }
}

impl<W: Write> Sink for WriteSink<W> {
    ghost faults = { λ s. s.faults };

    ghost taken = { λ _. None };

    fn write(&mut self, piece: &[u8]) -> Result<usize, Io>
        requires { 0 < length piece.now }
        ensures passed_on { WriteAppends (W.contents self.old.inner) (W.contents self.new.inner) result piece.now }
        ensures counted { CountsFault self.old.faults self.new.faults result }
        ensures some { IfOk result (λ n. 1 ≤ n) }
        ensures fits { IfOk result (λ n. n ≤ length piece.now) }
        ensures taken { Adds None None result piece.now }
        ensures cause { HasCause self.old.faults self.new.faults result }
    {
        let answer = write_answer(self.inner.write(piece));
        if answer.is_err() {
            self.faults = self.faults.saturating_add(1);
        }
        answer
    }
}
