// The words of a case, with its input and its folder.

use desk_keeper::SureKeeper;
use edge_io::{DirFolder, MemoryFile, MemoryFolder, MemorySink, MemorySource};
use matcher_cli::matcher;
use std::alloc::{AllocError, Global};

/// The numbers of the calls that fail.
#[derive(Drop)]
pub(crate) struct Failing {
    pub reads: Vec<u64>,
    pub files: Vec<u64>,
    pub writes: Vec<u64>,
}

impl Failing {
    /// No call fails.
    pub(crate) fn new(alloc: Global) -> Self {
        Failing {
            reads: Vec::new(alloc),
            files: Vec::new(alloc),
            writes: Vec::new(alloc),
        }
    }
}

/// The input, which is the part without a name, and the files.
#[derive(Drop)]
struct Given {
    input: Vec<u8>,
    files: Vec<MemoryFile>,
}

fn given_in(alloc: Global, parts: Vec<MemoryFile>) -> Result<Given, AllocError> {
    let mut input = Vec::new(alloc);
    let mut files = Vec::new(alloc);
    for part in parts {
        if part.name.is_empty() {
            input = part.bytes;
        } else {
            files.push(part)?;
        }
    }
    Ok(Given { input, files })
}

/// What the words read and write.
#[derive(Drop)]
struct Outside {
    source: MemorySource,
    sink: MemorySink,
    folder: MemoryFolder,
}

fn outside_of(alloc: Global, given: Given, failing: Failing) -> Result<Outside, AllocError> {
    Ok(Outside {
        source: MemorySource::new(given.input, failing.reads)?,
        sink: MemorySink::new(alloc, failing.writes)?,
        folder: MemoryFolder::new(given.files, failing.files)?,
    })
}

// Does what the words ask.
fn status_of(alloc: Global, words: &[String], outside: &mut Outside) -> u8 {
    let Outside {
        source,
        sink,
        folder,
    } = outside;
    let keeper = &mut SureKeeper::new(alloc);
    matcher(alloc, words, source, sink, folder, keeper).code()
}

// Prints the status, and gives back what was written.
fn written(rt: &HostRuntime, words: &[String], outside: &mut Outside) -> anyhow::Result<Vec<u8>> {
    let status = status_of(rt.alloc(), words, outside);
    println!(rt; "status {status}")?;
    Ok(Vec::from_slice(rt.alloc(), outside.sink.bytes())?)
}

/// Runs the words, prints the status, and gives back what was written.
pub(crate) fn run_words(
    rt: &HostRuntime,
    words: &[String],
    parts: Vec<MemoryFile>,
    failing: Failing,
) -> anyhow::Result<Vec<u8>> {
    let given = given_in(rt.alloc(), parts)?;
    let mut outside = outside_of(rt.alloc(), given, failing)?;
    written(rt, words, &mut outside)
}

/// Runs the words over the files of the folder that the program runs in; the only part is the input, where there is one.
pub(crate) fn run_words_here(
    rt: &HostRuntime,
    words: &[String],
    parts: Vec<MemoryFile>,
) -> anyhow::Result<Vec<u8>> {
    let alloc = rt.alloc();
    let given = given_in(alloc, parts)?;
    let mut source = MemorySource::new(given.input, Vec::new(alloc))?;
    let mut sink = MemorySink::new(alloc, Vec::new(alloc))?;
    let status = matcher(
        alloc,
        words,
        &mut source,
        &mut sink,
        &mut DirFolder::new(rt),
        &mut SureKeeper::new(alloc),
    );
    println!(rt; "status {}", status.code())?;
    Ok(Vec::from_slice(alloc, sink.bytes())?)
}
