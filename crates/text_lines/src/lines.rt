// The lines of a source, one after the other.
ghost use Rattle.std.specs.Prelude.{◌≡◌, ◌+◌, ◌<◌, ◌≤◌, ◌++◌, [], ℕ, Option, List, IsSome, IsErrOf, IfOk, length, cond, nat_lt, take, drop, slice_range, IfErr, OnOk, MatchResult, Ok, true, false};
ghost use Rattle.std.specs.List.{position_or_len};
ghost use Rattle.edge_io.specs.Told.{told, TellsNoMore};
ghost use Rattle.text_lines.specs.Reading.{LinesValue, Gives, FaultHasCause, cursor, Fails, line_at, end_at, is_feed, following, IsPieceError};

use crate::fault::{LineCode, ReadError, TextFault};
use edge_io::Source;
use memchr::memchr;
use std::alloc::{AllocError, Global};
use std::marker::Model;

/// How many bytes a line may have before its line feed.
pub const LONGEST_LINE: usize = 2_097_152;

/// How many bytes are asked of the source at a time.
const CHUNK: usize = 65_536;

/// Reads the lines of a source, which is handed in at each call: always the same one. It keeps the last line and at
/// most 65,536 bytes more. After an error it isn't used again.
#[derive(Drop)]
pub struct Lines {
    chunk: Vec<u8>,
    start: usize,
    end: usize,
    line: Vec<u8>,
    number: u64,
}

impl Model for Lines {
    ghost use Rattle.std.specs.Prelude.{◌≤◌, ◌<◌, ◌^◌, length, slice_range};
    ghost use Rattle.text_lines.specs.Reading.{LinesValue};

    ghost Value = { LinesValue };

    ghost view = { λ l. record { unread = slice_range l.chunk.items l.start l.end; line = l.line.items; number = l.number } };

    ghost invariant = { λ l. (l.start ≤ l.end) × (l.end ≤ length l.chunk.items) × (0 < length l.chunk.items) };
}

impl Lines {
    /// At the first line of a source.
    pub fn new(alloc: Global) -> Result<Lines, AllocError>
        ensures { IfOk result (λ lines. (lines.unread ≡ []) × (lines.number ≡ 1)) }
    {
        let mut chunk = Vec::with_capacity(alloc, CHUNK)?;
        chunk.resize(CHUNK, 0)?;
        Ok(Lines {
            chunk,
            start: 0,
            end: 0,
            line: Vec::new(alloc),
            number: 1,
        })
    }

    /// The line that was read last, without its line feed.
    pub fn line(&self) -> &[u8]
        ensures { result.now ≡ self.now.line }
    {
        &self.line
    }

    /// The number of the line that is due, counted from 1.
    pub fn number(&self) -> u64
        ensures { result ≡ self.now.number }
    {
        self.number
    }

    /// Reads the line that is due, which `line` then shows.
    pub fn next<S: Source>(&mut self, source: &mut S) -> Result<(), ReadError>
        ensures reads { IsSome (S.left source.new) → Gives (λ _. self.new.line) result (cursor self.new (S.left source.new)) (line_at (cursor self.old (S.left source.old))) }
        ensures untold { TellsNoMore (S.left source.old) (S.left source.new) }
        ensures cause { FaultHasCause (S.faults source.old) (S.faults source.new) (S.left source.new) result }
    {
        self.line.clear();
        loop {
            if !self.more(source)? {
                return Err(ReadError::Text(TextFault::Truncated));
            }
            if self.take_piece()? {
                return Ok(());
            }
        }
    }

    /// Whether the text ends here: a fault where bytes are left.
    pub fn finish<S: Source>(mut self, source: &mut S) -> Result<(), ReadError>
        ensures reads { IsSome (S.left source.new) → MatchResult result (λ _. end_at (cursor self (S.left source.old)) ≡ Ok tt) (λ e. Fails e (end_at (cursor self (S.left source.old)))) }
        ensures end { IsSome (S.left source.new) → OnOk result (told (S.left source.new) ≡ []) }
        ensures untold { TellsNoMore (S.left source.old) (S.left source.new) }
        ensures cause { FaultHasCause (S.faults source.old) (S.faults source.new) (S.left source.new) result }
    {
        if self.more(source)? {
            return Err(ReadError::Text(TextFault::Trailing));
        }
        Ok(())
    }

    // Takes the next bytes of the source, where all that were there have been read. Answers whether there are any.
    fn fill<S: Source>(&mut self, source: &mut S) -> Result<bool, ReadError>
        requires { self.old.unread ≡ [] }
        ensures same { (self.new.line ≡ self.old.line) × (self.new.number ≡ self.old.number) }
        ensures some { IfOk result (λ some. some ≡ nat_lt 0 (length self.new.unread)) }
        ensures taken { IsSome (S.left source.new) → told (S.left source.old) ≡ self.new.unread ++ told (S.left source.new) }
        ensures end { IsSome (S.left source.new) → IfOk result (λ some. some ≡ nat_lt 0 (length (told (S.left source.old)))) }
        ensures untold { TellsNoMore (S.left source.old) (S.left source.new) }
        ensures cause { FaultHasCause (S.faults source.old) (S.faults source.new) (S.left source.new) result }
        ensures fault { IfErr result (λ e. e ≡ ReadError.ReadFault) }
    {
        match source.read(&mut self.chunk) {
            Ok(count) => {
                self.start = 0;
                self.end = count;
                Ok(count > 0)
            }
            Err(_) => Err(ReadError::ReadFault),
        }
    }

    // Takes more of the source where nothing is unread. Answers whether something is.
    fn more<S: Source>(&mut self, source: &mut S) -> Result<bool, ReadError>
        ensures same { (self.new.line ≡ self.old.line) × (self.new.number ≡ self.old.number) }
        ensures some { IfOk result (λ some. some ≡ nat_lt 0 (length self.new.unread)) }
        ensures all { IsSome (S.left source.new) → self.new.unread ++ told (S.left source.new) ≡ self.old.unread ++ told (S.left source.old) }
        ensures end { IsSome (S.left source.new) → IfOk result (λ some. some ≡ false → self.old.unread ++ told (S.left source.old) ≡ []) }
        ensures untold { TellsNoMore (S.left source.old) (S.left source.new) }
        ensures cause { FaultHasCause (S.faults source.old) (S.faults source.new) (S.left source.new) result }
        ensures fault { IfErr result (λ e. e ≡ ReadError.ReadFault) }
    {
        if self.has_unread() {
            return Ok(true);
        }
        self.fill(source)
    }

    fn has_unread(&self) -> bool
        ensures { result ≡ nat_lt 0 (length self.now.unread) }
    {
        self.start < self.end
    }

    // Takes from what is unread up to the next line feed into the line. Answers whether the line ends there.
    fn take_piece(&mut self) -> Result<bool, ReadError>
        requires { length self.old.line ≤ LONGEST_LINE }
        ensures found { IfOk result (λ found. found ≡ nat_lt (position_or_len is_feed self.old.unread) (length self.old.unread)) }
        ensures line { IfOk result (λ _. self.new.line ≡ self.old.line ++ take (position_or_len is_feed self.old.unread) self.old.unread) }
        ensures rest { IfOk result (λ _. self.new.unread ≡ drop (position_or_len is_feed self.old.unread + 1) self.old.unread) }
        ensures number { IfOk result (λ found. self.new.number ≡ cond found (following self.old.number) self.old.number) }
        ensures fits { IfOk result (λ _. length self.new.line ≤ LONGEST_LINE) }
        ensures long { IfErr result (IsPieceError self.old) }
    {
        let unread = &self.chunk[self.start..self.end];
        let length = first_feed(unread);
        let found = length < unread.len();
        check_room(self.number, self.line.len(), length)?;
        self.line.extend_from_slice(&unread[..length])?;
        self.start += length;
        if found {
            self.start += 1;
            self.number = self.number.saturating_add(1);
        }
        Ok(found)
    }
}

// Refuses a line that gets longer than a line may be.
fn check_room(number: u64, count: usize, more: usize) -> Result<(), ReadError>
    requires { count ≤ LONGEST_LINE }
    ensures fits { OnOk result (count + more ≤ LONGEST_LINE) }
    ensures long { IfErr result (λ e. (e ≡ ReadError.Text (TextFault.BadLine number LineCode.TooLong)) × (LONGEST_LINE < count + more)) }
{
    if LONGEST_LINE - count < more {
        return Err(ReadError::Text(TextFault::BadLine {
            number,
            code: LineCode::TooLong,
        }));
    }
    Ok(())
}

// The place of the first line feed, or the length where there is none.
fn first_feed(bytes: &[u8]) -> usize
    ensures { result ≡ position_or_len is_feed bytes.now }
{
    memchr(b'\n', bytes).unwrap_or(bytes.len())
}
