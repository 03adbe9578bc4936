// Why a text was not read.
ghost use Rattle.std.specs.Prelude.{◌≡◌};
ghost use Rattle.publication.specs.Refusals.{refusal_of};

use text_lines::{LineCode, ReadError, TextFault};

/// Why a text was not read.
#[derive(Debug, Clone, Copy, PartialEq, Eq)]
pub enum ReadRefusal {
    Memory,
    /// The source failed.
    ReadFault,
    /// The input ends before the line feed of a line that is due.
    Truncated,
    /// The first line that may not stand where it stands, counted from 1, and the first code that applies to it.
    BadLine { number: u64, code: LineCode },
    /// Bytes follow the last line.
    Trailing,
}

/// The refusal of an error.
pub fn refusal_of(error: ReadError) -> ReadRefusal
    ensures { result ≡ refusal_of error }
{
    match error {
        ReadError::Memory => ReadRefusal::Memory,
        ReadError::ReadFault => ReadRefusal::ReadFault,
        ReadError::Text(TextFault::Truncated) => ReadRefusal::Truncated,
        ReadError::Text(TextFault::Trailing) => ReadRefusal::Trailing,
        ReadError::Text(TextFault::BadLine { number, code }) => {
            ReadRefusal::BadLine { number, code }
        }
    }
}
