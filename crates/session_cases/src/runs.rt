//! Runs of the words.

use crate::bytewise::Bytewise;
use desk_keeper::MemoryKeeper;
use edge_io::{MemoryFolder, MemorySink, MemorySource, Source};
use matcher_cli::matcher;
use std::alloc::Global;

/// The status of a run, and what it wrote.
#[derive(Drop)]
pub(crate) struct Ran {
    pub status: u8,
    pub written: Vec<u8>,
}

// Runs the words over this source and this keeper. The write of this number fails; the first has the number 1.
fn run_over<S: Source>(
    alloc: Global,
    words: &[String],
    source: &mut S,
    write: u64,
    keeper: &mut MemoryKeeper,
) -> anyhow::Result<Ran> {
    let mut sink = MemorySink::new(alloc, Vec::from_slice(alloc, &[write])?)?;
    let mut folder = MemoryFolder::new(Vec::new(alloc), Vec::new(alloc))?;
    let status = matcher(alloc, words, source, &mut sink, &mut folder, keeper).code();
    let written = Vec::from_slice(alloc, sink.bytes())?;
    Ok(Ran { status, written })
}

/// Runs the words over a stream and this keeper.
pub(crate) fn run_kept(
    alloc: Global,
    words: &[String],
    stream: &[u8],
    keeper: &mut MemoryKeeper,
) -> anyhow::Result<Ran> {
    let mut source = MemorySource::new(Vec::from_slice(alloc, stream)?, Vec::new(alloc))?;
    run_over(alloc, words, &mut source, 0, keeper)
}

/// Runs the words over a stream and a keeper without rows. The write of this number fails; none has the number 0.
pub(crate) fn run_new(
    alloc: Global,
    words: &[String],
    stream: &[u8],
    write: u64,
) -> anyhow::Result<Ran> {
    let mut keeper = MemoryKeeper::new(Vec::new(alloc), Vec::new(alloc));
    let mut source = MemorySource::new(Vec::from_slice(alloc, stream)?, Vec::new(alloc))?;
    run_over(alloc, words, &mut source, write, &mut keeper)
}

/// Runs the words over a stream that is given byte by byte, and a keeper without rows. The read of this number fails; none has the
/// number 0.
pub(crate) fn run_bytewise(
    alloc: Global,
    words: &[String],
    stream: &[u8],
    read: u64,
) -> anyhow::Result<Ran> {
    let mut keeper = MemoryKeeper::new(Vec::new(alloc), Vec::new(alloc));
    let fails = Vec::from_slice(alloc, &[read])?;
    let source = MemorySource::new(Vec::from_slice(alloc, stream)?, fails)?;
    run_over(alloc, words, &mut Bytewise { source }, 0, &mut keeper)
}
