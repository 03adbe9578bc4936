//! `matcher check` checks a certificate on standard input, `matcher rules` writes the rules of the current folder, and
//! `matcher solve whole` writes them with a best lottery, or with a cut that shows that none fits. `matcher report shares` writes a table of
//! the lottery of a certificate on standard input. `matcher make 7 4` makes a conference in memory to try that on. `matcher session ann bob`
//! serves the requests on standard input over the desk of these chairs, whose rows are kept in the file `desk.db` of the current folder.
#![tactic(auto)]

use command_words::{Command, read_words};
use desk_keeper::{KeepFault, SureKeeper};
use edge_io::{DirFolder, ReadSource, WriteSink};
use keeper_sqlite::SqliteKeeper;
use matcher_cli::{Status, matcher};
use std::alloc::AllocError;
use std::env;
use std::io::{BufWriter, ErrorKind, Write};
use std::process::ExitCode;

// Where the rows of a session are kept.
const DESK_FILE: &str = "desk.db";

// The words behind the program's name; none where one isn't text, since no such word is taken.
fn words_of(rt: &HostRuntime) -> Result<Vec<String>, AllocError> {
    match env::args(rt) {
        Ok(words) => words.skip(1).collect(rt.alloc()),
        Err(error) if error.kind() == ErrorKind::OutOfMemory => Err(AllocError),
        Err(_) => Ok(Vec::new(rt.alloc())),
    }
}

// What was written last may fail only here.
fn flushed<W: Write>(writer: &mut W, status: Status) -> Status {
    match writer.flush() {
        Ok(()) => status,
        Err(_) => Status::WriteFault,
    }
}

// A session over the file. Each reply is written before the next request is waited for.
fn serve(rt: &HostRuntime, words: &[String]) -> Status {
    match SqliteKeeper::at(rt, DESK_FILE) {
        Ok(mut keeper) => matcher(
            rt.alloc(),
            words,
            &mut ReadSource::new(rt.stdin()),
            &mut WriteSink::new(rt.stdout()),
            &mut DirFolder::new(rt),
            &mut keeper,
        ),
        Err(KeepFault::Failed) => Status::KeeperFault,
        Err(KeepFault::Memory) => Status::Memory,
    }
}

// All other words, which ask nothing of a keeper.
fn answer(rt: &HostRuntime, words: &[String]) -> Status {
    let Ok(mut writer) = BufWriter::new(rt.alloc(), rt.stdout()) else {
        return Status::Memory;
    };
    let status = matcher(
        rt.alloc(),
        words,
        &mut ReadSource::new(rt.stdin()),
        &mut WriteSink::new(&mut writer),
        &mut DirFolder::new(rt),
        &mut SureKeeper::new(rt.alloc()),
    );
    flushed(&mut writer, status)
}

// Words that are refused open no file.
fn status_of(rt: &HostRuntime, words: &[String]) -> Status {
    match read_words(rt.alloc(), words) {
        Ok(Command::Session) => serve(rt, words),
        _ => answer(rt, words),
    }
}

fn main(rt: HostRuntime) -> ExitCode {
    let Ok(words) = words_of(&rt) else {
        return ExitCode::from(Status::Memory.code());
    };
    ExitCode::from(status_of(&rt, words.as_slice()).code())
}
