//! Runs the cases of its standard input: words with an input and a folder in memory through `matcher`, or edits
//! through `Venue::next`. It prints the name of each case, what was answered, and what was written.
//!
//! A line that begins with a space is a line of the part that was begun last. Each other line is a word and what it
//! takes:
//!
//! - `case NAME` prints the name. `word WORD` is a word behind the program's name.
//! - `input`, `file NAME`, `edit TABLE HOW` and `text NAME` begin a part.
//! - `put NAME` appends the text of that name, `bytes TEXT` a text in which `\n`, `\r` and `\xHH` stand for those bytes.
//!   `each FIRST END LINE` appends a line for each number from the first up to the end, in the place of its `#`.
//!   `double N` doubles the part N times, and `shorten` drops its last byte.
//! - `failing-read N`, `failing-file N` and `failing-write N` list calls that fail.
//! - `keep` keeps the parts as texts. `run` runs the words, and `apply` makes the edits from the empty venue on.
//! - `answer NAME` runs the words and keeps what they write as a text. `show NAME WORD` prints each line of a text that begins
//!   with the word, with the lines of numbers behind it. `value TEXT` prints the value of a text in ten-thousandths, or its
//!   fault.
//! - `here` has the words run over the real files of the folder that the program runs in: `data/` here, which has those of
//!   `examples/workshop`. Its rules were made by `bench/rules.py`.
#![tactic(auto)]

mod answers;
mod bytes;
mod edits;
mod parts;
mod session;
mod words;

use crate::session::Session;
use std::io::Read;
use std::str;

fn run(rt: &HostRuntime) -> anyhow::Result<()> {
    let alloc = rt.alloc();
    let mut bytes = Vec::new(alloc);
    rt.stdin().read_to_end(&mut bytes)?;
    let mut session = Session::new(alloc);
    for line in str::from_utf8(bytes.as_slice())?.lines() {
        session.take_line(rt, line)?;
    }
    Ok(())
}

fn main(rt: HostRuntime) -> anyhow::Result<()> {
    run(&rt)
}
