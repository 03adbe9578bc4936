// What was read of a stream and isn't used yet.

ghost use Rattle.std.specs.Prelude.{◌≡◌, ◌≢◌, ◌+◌, ◌-◌, ◌<◌, ◌≤◌, ℕ, List, Bool, true, false, Some, None, [], ◌++◌, length, take, drop, IfOk, IfErr, OnOk, MatchResult, IsSome, vec_len};
ghost use Rattle.edge_io.specs.Counts.{HasCause};
ghost use Rattle.edge_io.specs.Told.{told};
ghost use Rattle.http_framing.specs.Heads.{blank_length, head_end};
ghost use Rattle.http_stream.specs.Intakes.{Added, Filled, HeadAwaited, HeadStep, IsCaused, IsShort, Sees, Shed, Stops};

use crate::stop::{Seen, Stop};
use edge_io::Source;
use http_framing::{FrameFault, MOST_HEAD_BYTES, blank_length, head_end};
use std::alloc::Global;

/// The most bytes that a stream takes.
pub const MOST_STREAM_BYTES: usize = 4_294_967_296;

// What was read and isn't used yet, and how many bytes the stream may take from its first one on.
#[derive(Drop)]
pub(crate) struct Intake {
    pub(crate) bytes: Vec<u8>,
    pub(crate) room: usize,
    ghost fits: { vec_len bytes ≤ room },
}

// Reads once into the piece, and puts what came behind the bytes.
fn read_behind<S: Source>(
    source: &mut S,
    piece: &mut [u8],
    bytes: &mut Vec<u8>,
) -> Result<usize, Stop>
    requires { 0 < length piece.old }
    ensures came { (came : List ℕ) × Added (S.given source.old) (S.given source.new) came × (bytes.new.items ≡ bytes.old.items ++ came) × Filled result came (S.left source.new) }
    ensures few { length bytes.new.items ≤ length bytes.old.items + length piece.old }
    ensures later { S.faults source.old ≤ S.faults source.new }
    ensures fault { IfErr result (λ stop. IsCaused (S.faults source.old) (S.faults source.new) stop) }
{
    if bytes.reserve(piece.len()).is_err() {
        return Err(Stop::Memory);
    }
    match source.read(piece) {
        Ok(count) => match bytes.extend_from_slice(&piece[..count]) {
            Ok(()) => Ok(count),
            Err(_) => Err(Stop::Memory),
        },
        Err(_) => Err(Stop::ReadFault),
    }
}

impl Intake {
    // Nothing was read yet.
    pub(crate) fn new(alloc: Global) -> Intake
        ensures bytes { result.bytes.items ≡ [] }
        ensures room { result.room ≡ MOST_STREAM_BYTES }
    {
        Intake {
            bytes: Vec::new(alloc),
            room: MOST_STREAM_BYTES,
        }
    }

    // Reads once, at most as many bytes as the stream may take.
    pub(crate) fn fill<S: Source>(
        &mut self,
        source: &mut S,
        chunk: &mut [u8],
    ) -> Result<usize, Stop>
        requires open { length self.old.bytes.items < self.old.room }
        requires some { 0 < length chunk.old }
        ensures came { (came : List ℕ) × Added (S.given source.old) (S.given source.new) came × (self.new.bytes.items ≡ self.old.bytes.items ++ came) × Filled result came (S.left source.new) }
        ensures same { self.new.room ≡ self.old.room }
        ensures later { S.faults source.old ≤ S.faults source.new }
        ensures fault { IfErr result (λ stop. IsCaused (S.faults source.old) (S.faults source.new) stop) }
    {
        let most = self.room - self.bytes.len();
        let count = most.min(chunk.len());
        read_behind(source, &mut chunk[..count], &mut self.bytes)
    }

    // Drops bytes in front, and no longer counts them.
    pub(crate) fn drop_front(&mut self, count: usize)
        requires { count ≤ length self.old.bytes.items }
        ensures rest { self.new.bytes.items ≡ drop count self.old.bytes.items }
        ensures room { self.old.room ≡ count + self.new.room }
    {
        let rest = self.bytes.len() - count;
        self.bytes.copy_within(count.., 0);
        self.bytes.truncate(rest);
        self.room -= count;
    }

    // Drops the blank bytes in front.
    fn drop_blank(&mut self)
        ensures shed { Shed self.old.room self.old.bytes.items self.new.room self.new.bytes.items }
        ensures none { blank_length self.new.bytes.items ≡ 0 }
        ensures more { self.old.room - length self.old.bytes.items ≡ self.new.room - length self.new.bytes.items }
    {
        let count = blank_length(&self.bytes);
        if count > 0 {
            self.drop_front(count);
        }
    }

    // What the bytes tell of a head.
    fn look(&self) -> Seen
        requires { blank_length self.now.bytes.items ≡ 0 }
        ensures { Sees self.now.room self.now.bytes.items result }
    {
        match head_end(&self.bytes) {
            Some(end) => Seen::Ended(end),
            None => self.look_short(),
        }
    }

    // What the bytes tell of a head that has not ended.
    fn look_short(&self) -> Seen
        requires blank { blank_length self.now.bytes.items ≡ 0 }
        requires none { head_end self.now.bytes.items ≡ None }
        ensures { Sees self.now.room self.now.bytes.items result }
    {
        if self.bytes.len() >= MOST_HEAD_BYTES {
            Seen::Refused(FrameFault::HeadTooLarge)
        } else if self.bytes.len() >= self.room {
            Seen::Refused(FrameFault::StreamTooLarge)
        } else {
            Seen::Wants
        }
    }

    // Why no request is asked where the input is over before a head has ended.
    fn stop_short(&self) -> Stop
        requires blank { blank_length self.now.bytes.items ≡ 0 }
        requires short { IsShort self.now.room self.now.bytes.items }
        ensures stops { Stops self.now.room true self.now.bytes.items result false }
        ensures other { result ≢ Stop.ReadFault }
    {
        if self.bytes.is_empty() {
            Stop::Finished
        } else {
            Stop::Refused(FrameFault::Truncated)
        }
    }

    // Reads once more where no head has ended. Nothing is found there yet.
    fn fill_head<S: Source>(
        &mut self,
        source: &mut S,
        chunk: &mut [u8],
    ) -> Result<Option<usize>, Stop>
        requires blank { blank_length self.old.bytes.items ≡ 0 }
        requires short { IsShort self.old.room self.old.bytes.items }
        requires some { 0 < length chunk.old }
        ensures came { (came : List ℕ) × Added (S.given source.old) (S.given source.new) came × (self.new.bytes.items ≡ self.old.bytes.items ++ came) × HeadStep self.new.room self.new.bytes.items (S.left source.new) result }
        ensures same { self.new.room ≡ self.old.room }
        ensures less { IfOk result (λ found. length self.old.bytes.items < length self.new.bytes.items) }
        ensures later { S.faults source.old ≤ S.faults source.new }
        ensures fault { IfErr result (λ stop. IsCaused (S.faults source.old) (S.faults source.new) stop) }
    {
        match self.fill(source, chunk) {
            Ok(0) => Err(self.stop_short()),
            Ok(_) => Ok(None),
            Err(stop) => Err(stop),
        }
    }

    // Looks for the end of the head, and else reads once.
    fn step_head<S: Source>(
        &mut self,
        source: &mut S,
        chunk: &mut [u8],
    ) -> Result<Option<usize>, Stop>
        requires { 0 < length chunk.old }
        ensures came { (came : List ℕ) × Added (S.given source.old) (S.given source.new) came × Shed self.old.room (self.old.bytes.items ++ came) self.new.room self.new.bytes.items × HeadStep self.new.room self.new.bytes.items (S.left source.new) result }
        ensures less { IfOk result (λ found. found ≡ None → self.new.room - length self.new.bytes.items < self.old.room - length self.old.bytes.items) }
        ensures later { S.faults source.old ≤ S.faults source.new }
        ensures fault { IfErr result (λ stop. IsCaused (S.faults source.old) (S.faults source.new) stop) }
    {
        self.drop_blank();
        match self.look() {
            Seen::Ended(end) => Ok(Some(end)),
            Seen::Refused(fault) => Err(Stop::Refused(fault)),
            Seen::Wants => self.fill_head(source, chunk),
        }
    }

    // Reads until the head ends, and answers where. Blank bytes before it are dropped.
    pub(crate) fn await_head<S: Source>(
        &mut self,
        source: &mut S,
        chunk: &mut [u8],
    ) -> Result<usize, Stop>
        requires { 0 < length chunk.old }
        ensures came { (came : List ℕ) × Added (S.given source.old) (S.given source.new) came × Shed self.old.room (self.old.bytes.items ++ came) self.new.room self.new.bytes.items × HeadAwaited self.new.room self.new.bytes.items (S.left source.new) result }
        ensures later { S.faults source.old ≤ S.faults source.new }
        ensures fault { IfErr result (λ stop. IsCaused (S.faults source.old) (S.faults source.new) stop) }
    {
        loop {
            match self.step_head(source, chunk) {
                Ok(None) => (),
                Ok(Some(end)) => return Ok(end),
                Err(stop) => return Err(stop),
            }
        }
    }
}
