// The case that is being read.

use crate::answers::{print_lines, print_text, print_value};
use crate::edits::make_edits;
use crate::parts::{
    begin, double, drop_byte, push_each, push_escapes, push_line, put_text, text_of,
};
use crate::words::{Failing, run_words, run_words_here};
use anyhow::{Context, bail};
use edge_io::MemoryFile;
use std::alloc::Global;
use std::mem;

/// The texts that were kept, and the case that is being read.
#[derive(Drop)]
pub(crate) struct Session {
    texts: Vec<MemoryFile>,
    parts: Vec<MemoryFile>,
    words: Vec<String>,
    // Whether the words run over the files of the folder that the program runs in.
    is_here: bool,
    failing: Failing,
}

impl Session {
    /// A session before its first case.
    pub(crate) fn new(alloc: Global) -> Self {
        Session {
            texts: Vec::new(alloc),
            parts: Vec::new(alloc),
            words: Vec::new(alloc),
            is_here: false,
            failing: Failing::new(alloc),
        }
    }

    // The parts that were read; the next case has none of them.
    fn taken(&mut self, alloc: Global) -> Vec<MemoryFile> {
        mem::replace(&mut self.parts, Vec::new(alloc))
    }

    fn keep(&mut self, alloc: Global) -> anyhow::Result<()> {
        for part in self.taken(alloc) {
            self.texts.push(part)?;
        }
        Ok(())
    }

    // What the words of the case write.
    fn written(&mut self, rt: &HostRuntime) -> anyhow::Result<Vec<u8>> {
        let alloc = rt.alloc();
        let parts = self.taken(alloc);
        let words = mem::replace(&mut self.words, Vec::new(alloc));
        let failing = mem::replace(&mut self.failing, Failing::new(alloc));
        if mem::replace(&mut self.is_here, false) {
            return run_words_here(rt, words.as_slice(), parts);
        }
        run_words(rt, words.as_slice(), parts, failing)
    }

    fn run(&mut self, rt: &HostRuntime) -> anyhow::Result<()> {
        let bytes = self.written(rt)?;
        print_text(rt, bytes.as_slice())
    }

    // Runs the words, and keeps what they write as a text.
    fn answer(&mut self, rt: &HostRuntime, name: &str) -> anyhow::Result<()> {
        let bytes = self.written(rt)?;
        let name = String::from_str(rt.alloc(), name)?;
        self.texts.push(MemoryFile { name, bytes })?;
        Ok(())
    }

    // Prints the lines of a text that a word begins.
    fn show(&self, rt: &HostRuntime, rest: &str) -> anyhow::Result<()> {
        let (name, word) = rest.split_once(' ').context("show NAME WORD")?;
        print_lines(rt, text_of(self.texts.as_slice(), name)?, word)
    }

    fn take_word(&mut self, alloc: Global, word: &str) -> anyhow::Result<()> {
        self.words.push(String::from_str(alloc, word)?)?;
        Ok(())
    }

    // Takes a line that belongs to a part.
    fn take_part(&mut self, alloc: Global, word: &str, rest: &str) -> anyhow::Result<()> {
        match word {
            "" => push_line(&mut self.parts, rest),
            "bytes" => push_escapes(&mut self.parts, rest),
            "put" => put_text(&mut self.parts, self.texts.as_slice(), rest),
            "each" => push_each(alloc, &mut self.parts, rest),
            "double" => double(alloc, &mut self.parts, rest),
            "shorten" => drop_byte(&mut self.parts),
            "text" | "input" | "file" | "edit" => begin(alloc, &mut self.parts, rest),
            _ => bail!("{word} is no word of a case"),
        }
    }

    /// Does what a line says.
    pub(crate) fn take_line(&mut self, rt: &HostRuntime, line: &str) -> anyhow::Result<()> {
        let alloc = rt.alloc();
        let (word, rest) = line.split_once(' ').unwrap_or((line, ""));
        match word {
            "case" => println!(rt; "case {rest}")?,
            "word" => self.take_word(alloc, rest)?,
            "failing-read" => self.failing.reads.push(rest.parse::<u64>()?)?,
            "failing-file" => self.failing.files.push(rest.parse::<u64>()?)?,
            "failing-write" => self.failing.writes.push(rest.parse::<u64>()?)?,
            "here" => self.is_here = true,
            "keep" => self.keep(alloc)?,
            "run" => self.run(rt)?,
            "answer" => self.answer(rt, rest)?,
            "show" => self.show(rt, rest)?,
            "value" => print_value(rt, rest)?,
            "apply" => make_edits(rt, self.taken(alloc).as_slice())?,
            _ => self.take_part(alloc, word, rest)?,
        }
        Ok(())
    }
}
