// A line that is put together before it is written.
ghost use Rattle.std.specs.Prelude.{◌≡◌, ◌+◌, ◌≤◌, [], ◌++◌, length, decimal};
ghost use Rattle.std.specs.Fmt.{signed_decimal};
ghost use Rattle.text_lines.specs.Labels.{labelled, labelled_signed};

use itoa::Buffer;
use std::marker::Model;

/// The most bytes that a line buffer holds.
pub const LINE_ROOM: usize = 512;

/// A line that is put together on the stack, without taking memory.
#[derive(Drop)]
pub struct LineBuffer {
    bytes: [u8; 512],
    count: usize,
}

impl Model for LineBuffer {
    ghost use Rattle.std.specs.Prelude.{List, ℕ, take, ◌≤◌};

    ghost Value = { List ℕ };

    ghost view = { λ b. take b.count b.bytes };

    ghost invariant = { λ b. b.count ≤ 512 };
}

impl LineBuffer {
    /// An empty line.
    pub fn new() -> Self
        ensures { result ≡ [] }
    {
        LineBuffer {
            bytes: [0; 512],
            count: 0,
        }
    }

    /// The bytes so far.
    pub fn as_slice(&self) -> &[u8]
        ensures { result.now ≡ self.now }
    {
        &self.bytes[..self.count]
    }

    /// Puts a piece behind the line. There has to be room for it.
    pub fn push(&mut self, piece: &[u8])
        requires { length self.old + length piece.now ≤ LINE_ROOM }
        ensures { self.new ≡ self.old ++ piece.now }
    {
        let end = self.count + piece.len();
        self.bytes[self.count..end].copy_from_slice(piece);
        self.count = end;
    }

    /// Puts a number behind the line, in decimal digits, of which there are at most 20.
    pub fn push_number(&mut self, number: u64)
        requires { length self.old + 20 ≤ LINE_ROOM }
        ensures text { self.new ≡ self.old ++ decimal number }
        ensures few { length self.new ≤ length self.old + 20 }
    {
        let mut buffer = Buffer::new();
        let digits = buffer.format(number);
        self.push(digits.as_bytes());
    }

    /// Puts a signed number behind the line, in at most 40 bytes.
    pub fn push_signed(&mut self, number: i128)
        requires { length self.old + 40 ≤ LINE_ROOM }
        ensures text { self.new ≡ self.old ++ signed_decimal number }
        ensures few { length self.new ≤ length self.old + 40 }
    {
        let mut buffer = Buffer::new();
        let digits = buffer.format(number);
        self.push(digits.as_bytes());
    }

    /// Puts a label and a number behind the line.
    pub fn push_labelled(&mut self, label: &[u8], number: u64)
        requires { length self.old + length label.now + 20 ≤ LINE_ROOM }
        ensures text { self.new ≡ self.old ++ labelled label.now number }
        ensures few { length self.new ≤ length self.old + length label.now + 20 }
    {
        self.push(label);
        self.push_number(number);
    }

    /// Puts a label and a signed number behind the line.
    pub fn push_labelled_signed(&mut self, label: &[u8], number: i128)
        requires { length self.old + length label.now + 40 ≤ LINE_ROOM }
        ensures text { self.new ≡ self.old ++ labelled_signed label.now number }
        ensures few { length self.new ≤ length self.old + length label.now + 40 }
    {
        self.push(label);
        self.push_signed(number);
    }
}
