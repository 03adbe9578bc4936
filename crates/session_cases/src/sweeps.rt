//! Runs of one stream that is cut, given byte by byte, or read and written with faults.

use crate::runs::{Ran, run_bytewise, run_new};
use crate::stream::bytes_of;
use anyhow::bail;
use std::alloc::Global;

// The most calls that are let fail.
const MOST_CALLS: u64 = 100_000;

// What is written for a request that is cut.
const CUT: &[u8] =
    b"HTTP/1.1 400 Bad Request\r\nContent-Type: application/json\r\nContent-Length: 23\r\nConnection: close\r\n\r\n{\"refused\":\"truncated\"}";

// Two texts in one.
fn joined(alloc: Global, front: &[u8], back: &[u8]) -> anyhow::Result<Vec<u8>> {
    let mut bytes = Vec::from_slice(alloc, front)?;
    bytes.extend_from_slice(back)?;
    Ok(bytes)
}

// Runs the whole requests in front and each proper front of the next one.
fn cut_within(alloc: Global, words: &[String], front: &[u8], request: &[u8]) -> anyhow::Result<()> {
    let whole = run_new(alloc, words, front, 0)?;
    let due = joined(alloc, whole.written.as_slice(), CUT)?;
    for end in 1..request.len() {
        let stream = joined(alloc, front, &request[..end])?;
        let ran = run_new(alloc, words, stream.as_slice(), 0)?;
        if ran.status != 6 || ran.written.as_slice() != due.as_slice() {
            bail!("{} bytes of a stream have another reply", stream.len());
        }
    }
    Ok(())
}

/// Runs each proper prefix of the stream that ends inside a request, and prints how many there are.
pub(crate) fn cut_everywhere(
    rt: &HostRuntime,
    words: &[String],
    requests: &[Vec<u8>],
) -> anyhow::Result<()> {
    let alloc = rt.alloc();
    let mut front = Vec::new(alloc);
    for request in requests {
        cut_within(alloc, words, front.as_slice(), request.as_slice())?;
        front.extend_from_slice(request.as_slice())?;
    }
    let count = front.len().saturating_sub(requests.len());
    println!(rt; "{count} prefixes agreed")?;
    Ok(())
}

// Whether a run ended with this status behind a front of the replies.
fn is_front(ran: &Ran, status: u8, replies: &[u8]) -> bool {
    ran.status == status && replies.starts_with(ran.written.as_slice())
}

/// Lets each read of a single byte fail, and prints how many there are.
pub(crate) fn fail_reads(
    rt: &HostRuntime,
    words: &[String],
    requests: &[Vec<u8>],
) -> anyhow::Result<()> {
    let alloc = rt.alloc();
    let stream = bytes_of(alloc, requests)?;
    let whole = run_new(alloc, words, stream.as_slice(), 0)?;
    for call in 1..MOST_CALLS {
        let ran = run_bytewise(alloc, words, stream.as_slice(), call)?;
        if ran.status == 0 {
            println!(rt; "{} reads agreed", call - 1)?;
            return Ok(());
        }
        if !is_front(&ran, 3, whole.written.as_slice()) {
            bail!("the failing read {call} has another end");
        }
    }
    bail!("the stream has too many reads")
}

/// Lets each write fail, and says that they agreed.
pub(crate) fn fail_writes(
    rt: &HostRuntime,
    words: &[String],
    requests: &[Vec<u8>],
) -> anyhow::Result<()> {
    let alloc = rt.alloc();
    let stream = bytes_of(alloc, requests)?;
    let whole = run_new(alloc, words, stream.as_slice(), 0)?;
    for call in 1..MOST_CALLS {
        let ran = run_new(alloc, words, stream.as_slice(), call)?;
        if ran.status == 0 {
            println!(rt; "the writes agreed")?;
            return Ok(());
        }
        if !is_front(&ran, 4, whole.written.as_slice()) {
            bail!("the failing write {call} has another end");
        }
    }
    bail!("the stream has too many writes")
}

/// Gives the stream byte by byte.
pub(crate) fn give_bytewise(
    rt: &HostRuntime,
    words: &[String],
    requests: &[Vec<u8>],
) -> anyhow::Result<()> {
    let alloc = rt.alloc();
    let stream = bytes_of(alloc, requests)?;
    let whole = run_new(alloc, words, stream.as_slice(), 0)?;
    let ran = run_bytewise(alloc, words, stream.as_slice(), 0)?;
    if ran.status != whole.status || ran.written.as_slice() != whole.written.as_slice() {
        bail!("single bytes have other replies");
    }
    println!(rt; "single bytes agreed")?;
    Ok(())
}
