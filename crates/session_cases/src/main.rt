//! Runs the cases of its standard input: a stream of HTTP requests through `matcher`, over a source, a sink and a keeper in
//! memory. It prints the name of each case, the status of each run, and what was written.
//!
//! - `case NAME` prints the name, and begins with a keeper without rows. The stream and the words stay.
//! - `words WORD ..` are the words behind the program's name.
//! - `stream` drops the stream, and `request` begins the next request of it. A line that begins with `>` is one of it that ends with
//!   CR LF, a line that begins with a space one that ends with LF, and one that begins with `=` has no end. `fill FRONT COUNT` is a
//!   line of `>` with so many letters behind its front, and `each COUNT` has so many such lines, `X-0: 0` and so on.
//! - `fail CALL` lists a call of the next run's keeper that fails; its calls are numbered from 1.
//! - `run` runs the words over the rows as they stand, and prints what was written: `>`, a space and `=` begin lines as above. Of
//!   a certificate, its length and its prices aren't printed. `brief` prints a line for each reply,
//!   its code and its object or first line, and `again` the replies that aren't those of the run before it.
//! - `rows` prints the keeper's rows. `spoil PLACE OLD => NEW` has another text in the place of the first such text of a row; the
//!   rows are numbered from 0.
//! - `prefixes` runs each proper prefix of the stream that ends inside a request: the replies to the requests before it and then the
//!   refusal of what is cut have to be written. `reads` lets each read of single bytes fail, and `writes` each write: a front of the
//!   replies has to be written. `bytewise` gives the stream byte by byte: the replies have to be the same. What doesn't
//!   agree ends the program.
#![tactic(auto)]

mod bytewise;
mod cases;
mod rows;
mod runs;
mod stream;
mod sweeps;
mod texts;

use crate::cases::Cases;
use std::io::Read;
use std::str;

fn run(rt: &HostRuntime) -> anyhow::Result<()> {
    let alloc = rt.alloc();
    let mut bytes = Vec::new(alloc);
    rt.stdin().read_to_end(&mut bytes)?;
    let mut cases = Cases::new(alloc);
    for line in str::from_utf8(bytes.as_slice())?.lines() {
        cases.take_line(rt, line)?;
    }
    Ok(())
}

fn main(rt: HostRuntime) -> anyhow::Result<()> {
    run(&rt)
}
