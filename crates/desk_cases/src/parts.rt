//! The parts of a line.

use desk_keeper::Bytes;
use std::alloc::{AllocError, Global};

/// The first word, and what follows it.
pub(crate) fn cut(line: &str) -> (&str, &str) {
    line.split_once(' ').unwrap_or((line, ""))
}

/// The bytes of a text in which `|` stands for a line feed.
pub(crate) fn lines_of(alloc: Global, text: &str) -> Result<Bytes, AllocError> {
    let mut bytes = Vec::from_slice(alloc, text.as_bytes())?;
    for byte in bytes.iter_mut() {
        if *byte == b'|' {
            *byte = b'\n';
        }
    }
    Ok(Bytes::from_vec(bytes))
}
