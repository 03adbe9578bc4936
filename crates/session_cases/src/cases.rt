//! The case that is being read.

use crate::rows::{copy_of, print_rows, rows_of, spoil};
use crate::runs::{Ran, run_kept};
use crate::stream::{bytes_of, take_part};
use crate::sweeps::{cut_everywhere, fail_reads, fail_writes, give_bytewise};
use crate::texts::{print_briefly, print_others, print_replies};
use anyhow::bail;
use desk_keeper::MemoryKeeper;
use std::alloc::Global;
use std::mem;

/// The words, the stream, the rows as they stand, the calls of the next run's keeper that fail, and what the last run wrote.
#[derive(Drop)]
pub(crate) struct Cases {
    words: Vec<String>,
    requests: Vec<Vec<u8>>,
    rows: Vec<Vec<u8>>,
    fails: Vec<u64>,
    written: Vec<u8>,
}

fn words_of(alloc: Global, rest: &str) -> anyhow::Result<Vec<String>> {
    let mut words = Vec::new(alloc);
    for word in rest.split_whitespace() {
        words.push(String::from_str(alloc, word)?)?;
    }
    Ok(words)
}

impl Cases {
    /// No case was begun.
    pub(crate) fn new(alloc: Global) -> Cases {
        Cases {
            words: Vec::new(alloc),
            requests: Vec::new(alloc),
            rows: Vec::new(alloc),
            fails: Vec::new(alloc),
            written: Vec::new(alloc),
        }
    }

    // Runs the words over the rows as they stand, and prints the status.
    fn run(&mut self, rt: &HostRuntime) -> anyhow::Result<Ran> {
        let alloc = rt.alloc();
        let fails = mem::replace(&mut self.fails, Vec::new(alloc));
        let mut keeper = MemoryKeeper::new(copy_of(alloc, self.rows.as_slice())?, fails);
        let stream = bytes_of(alloc, self.requests.as_slice())?;
        let ran = run_kept(alloc, self.words.as_slice(), stream.as_slice(), &mut keeper)?;
        self.rows = rows_of(alloc, &mut keeper)?;
        println!(rt; "status {}", ran.status)?;
        Ok(ran)
    }

    // Runs, and prints what was written as the word says.
    fn show(&mut self, rt: &HostRuntime, word: &str) -> anyhow::Result<()> {
        let ran = self.run(rt)?;
        let written = ran.written.as_slice();
        match word {
            "run" => print_replies(rt, written)?,
            "brief" => print_briefly(rt, written)?,
            _ => print_others(rt, written, self.written.as_slice())?,
        }
        self.written = ran.written;
        Ok(())
    }

    fn begin(&mut self, rt: &HostRuntime, name: &str) -> anyhow::Result<()> {
        self.rows = Vec::new(rt.alloc());
        println!(rt; "case {name}")?;
        Ok(())
    }

    // Runs the stream in many ways.
    fn sweep(&self, rt: &HostRuntime, word: &str) -> anyhow::Result<()> {
        let words = self.words.as_slice();
        let requests = self.requests.as_slice();
        match word {
            "prefixes" => cut_everywhere(rt, words, requests),
            "reads" => fail_reads(rt, words, requests),
            "writes" => fail_writes(rt, words, requests),
            "bytewise" => give_bytewise(rt, words, requests),
            _ => bail!("{word} is no word of a case"),
        }
    }

    // Does what a line says that is none of a request.
    fn take_word(&mut self, rt: &HostRuntime, line: &str) -> anyhow::Result<()> {
        let alloc = rt.alloc();
        let (word, rest) = line.split_once(' ').unwrap_or((line, ""));
        match word {
            "case" => self.begin(rt, rest),
            "words" => {
                self.words = words_of(alloc, rest)?;
                Ok(())
            }
            "stream" => {
                self.requests = Vec::new(alloc);
                Ok(())
            }
            "request" => {
                self.requests.push(Vec::new(alloc))?;
                Ok(())
            }
            "fail" => {
                self.fails.push(rest.parse::<u64>()?)?;
                Ok(())
            }
            "run" | "brief" | "again" => self.show(rt, word),
            "rows" => print_rows(rt, self.rows.as_slice()),
            "spoil" => spoil(alloc, &mut self.rows, rest),
            _ => self.sweep(rt, word),
        }
    }

    /// Does what a line says.
    pub(crate) fn take_line(&mut self, rt: &HostRuntime, line: &str) -> anyhow::Result<()> {
        if take_part(rt.alloc(), &mut self.requests, line)? {
            return Ok(());
        }
        self.take_word(rt, line)
    }
}
