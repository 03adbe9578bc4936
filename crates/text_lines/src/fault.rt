// Why a text could not be read.
ghost use Rattle.std.specs.Prelude.{◌≡◌};
ghost use Rattle.text_lines.specs.declared.fault.LineError.TheVariants as line_errors;
ghost use Rattle.text_lines.specs.declared.fault.ReadError.TheVariants as read_errors;

use std::alloc::{AllocError, AllocFailed};

/// What is wrong with a line: the first of these, in this order, that applies to it.
#[derive(Debug, Clone, Copy, PartialEq, Eq)]
pub enum LineCode {
    /// It has more bytes before its line feed than a line may have.
    TooLong,
    /// It isn't UTF-8.
    NotUtf8,
    /// Its number of fields or a fixed word differs from the form.
    Form,
    /// A number isn't spelled canonically.
    Number,
    /// A number is outside its limit.
    Range,
    /// An id or institution isn't one.
    Id,
    /// It doesn't strictly follow the line before it.
    Order,
}

/// What is wrong with a text: its first fault.
#[derive(Clone, Copy)]
pub enum TextFault {
    /// The input ends before the line feed of a line that is due.
    Truncated,
    /// Bytes follow the last line.
    Trailing,
    /// The line of this number, counted from 1, may not stand where it stands.
    BadLine { number: u64, code: LineCode },
}

/// Why one line could not be read.
#[derive(Drop)]
pub enum LineError {
    Memory,
    Code(LineCode),
}

/// Why a text could not be read.
#[derive(Drop)]
pub enum ReadError {
    Memory,
    /// The source failed.
    ReadFault,
    Text(TextFault),
}

impl From<AllocError> for LineError {
    ghost from_gives = { λ _ e. e ≡ line_errors.Memory };

    fn from(_error: AllocError) -> LineError {
        LineError::Memory
    }
}

impl<T: Drop> From<AllocFailed<T>> for LineError {
    ghost from_gives = { λ _ e. e ≡ line_errors.Memory };

    fn from(_error: AllocFailed<T>) -> LineError {
        LineError::Memory
    }
}

impl From<LineCode> for LineError {
    ghost from_gives = { λ code e. e ≡ line_errors.Code code };

    fn from(code: LineCode) -> LineError {
        LineError::Code(code)
    }
}

impl From<AllocError> for ReadError {
    ghost from_gives = { λ _ e. e ≡ read_errors.Memory };

    fn from(_error: AllocError) -> ReadError {
        ReadError::Memory
    }
}

impl<T: Drop> From<AllocFailed<T>> for ReadError {
    ghost from_gives = { λ _ e. e ≡ read_errors.Memory };

    fn from(_error: AllocFailed<T>) -> ReadError {
        ReadError::Memory
    }
}
