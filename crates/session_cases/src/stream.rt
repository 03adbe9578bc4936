//! The requests of a stream, as their lines are read.

use anyhow::Context;
use std::alloc::{AllocError, Global};

// Appends a line to the last request.
fn push_line(requests: &mut Vec<Vec<u8>>, line: &str, end: &[u8]) -> anyhow::Result<()> {
    let request = requests.last_mut().context("no request was begun")?;
    request.extend_from_slice(line.as_bytes())?;
    request.extend_from_slice(end)?;
    Ok(())
}

// Appends a line of a front and so many letters, as `FRONT COUNT` says.
fn push_filled(requests: &mut Vec<Vec<u8>>, rest: &str) -> anyhow::Result<()> {
    let (front, count) = rest.split_once(' ').context("fill FRONT COUNT")?;
    push_line(requests, front, b"")?;
    for _ in 0..count.parse::<u32>()? {
        push_line(requests, "a", b"")?;
    }
    push_line(requests, "", b"\r\n")
}

// Appends so many fields.
fn push_fields(alloc: Global, requests: &mut Vec<Vec<u8>>, count: u32) -> anyhow::Result<()> {
    for number in 0..count {
        let line = format!(in alloc; "X-{number}: {number}")?;
        push_line(requests, line.as_str(), b"\r\n")?;
    }
    Ok(())
}

/// Does what a line of a request says; tells whether it is one.
pub(crate) fn take_part(
    alloc: Global,
    requests: &mut Vec<Vec<u8>>,
    line: &str,
) -> anyhow::Result<bool> {
    if let Some(text) = line.strip_prefix('>') {
        push_line(requests, text, b"\r\n")?;
    } else if let Some(text) = line.strip_prefix(' ') {
        push_line(requests, text, b"\n")?;
    } else if let Some(text) = line.strip_prefix('=') {
        push_line(requests, text, b"")?;
    } else if let Some(rest) = line.strip_prefix("fill ") {
        push_filled(requests, rest)?;
    } else if let Some(rest) = line.strip_prefix("each ") {
        push_fields(alloc, requests, rest.parse::<u32>()?)?;
    } else {
        return Ok(false);
    }
    Ok(true)
}

/// The bytes of all requests.
pub(crate) fn bytes_of(alloc: Global, requests: &[Vec<u8>]) -> Result<Vec<u8>, AllocError> {
    let mut bytes = Vec::new(alloc);
    for request in requests {
        bytes.extend_from_slice(request.as_slice())?;
    }
    Ok(bytes)
}
