//! Runs the parts of its standard input over SQLite files of the folder that it runs in, and prints what is answered.
//! Parts have an empty line between them. The first line of a part is the name of a file, at which a keeper is opened;
//! it is dropped at the end of the part. The other lines say what it does:
//!
//! - `append PLACE TEXT` appends a row, and `read PLACE` reads one.
//! - `fill FIRST END` appends a row of 100 bytes at each place from the first up to the end.
//!
//! Where a file is refused, no other line of its part runs, and it prints whether the file has the same bytes afterwards.
//!
//! `data/` has files that the command-line `sqlite3` made of `data/files.sql`, and one that is no database.
#![tactic(auto)]

mod rows;

use crate::rows::run_line;
use anyhow::bail;
use desk_keeper::KeepFault;
use keeper_sqlite::SqliteKeeper;
use std::io::{self, Read};
use std::{fs, str};

fn read_file(rt: &HostRuntime, name: &str) -> io::Result<Vec<u8>> {
    let mut bytes = Vec::new(rt.alloc());
    fs::open(rt, name)?.read_to_end(&mut bytes)?;
    Ok(bytes)
}

// The bytes of a file, or none where it can't be read.
fn bytes_of(rt: &HostRuntime, name: &str) -> Vec<u8> {
    read_file(rt, name).unwrap_or(Vec::new(rt.alloc()))
}

// Opens a keeper and runs the lines over it.
fn open(rt: &HostRuntime, name: &str, lines: &str) -> anyhow::Result<bool> {
    match SqliteKeeper::at(rt, name) {
        Ok(mut keeper) => {
            println!(rt; "opened {name}")?;
            for line in lines.lines() {
                run_line(rt, &mut keeper, line)?;
            }
            Ok(true)
        }
        Err(KeepFault::Failed) => Ok(false),
        Err(KeepFault::Memory) => bail!("memory was wanting"),
    }
}

fn run_part(rt: &HostRuntime, part: &str) -> anyhow::Result<()> {
    let (name, lines) = part.split_once('\n').unwrap_or((part, ""));
    let before = bytes_of(rt, name);
    if !open(rt, name, lines)? {
        let same = bytes_of(rt, name).as_slice() == before.as_slice();
        println!(rt; "refused {name}, same {same}")?;
    }
    Ok(())
}

fn run(rt: &HostRuntime) -> anyhow::Result<()> {
    let mut bytes = Vec::new(rt.alloc());
    rt.stdin().read_to_end(&mut bytes)?;
    for part in str::from_utf8(bytes.as_slice())?.split("\n\n") {
        run_part(rt, part)?;
    }
    Ok(())
}

fn main(rt: HostRuntime) -> anyhow::Result<()> {
    run(&rt)
}
