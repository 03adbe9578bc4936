//! Runs the cases of its standard input: what is asked of a desk over a keeper in memory, one request a line. It prints what
//! each is answered. Rules are printed as their text, and a lottery by its mode, its level, its total and its pieces.
//!
//! - `case NAME` prints the name. `fail CALL` lists a call of the next desk's keeper that fails; its calls are numbered from 1.
//! - `chairs NAME ..` opens a new desk of these chairs, over a keeper without rows.
//! - `edit CALLER NUMBER BASE TABLE HOW BODY`, `submit CALLER NUMBER BASE MODE`, `publish CALLER NUMBER JOB` and `draw CALLER
//!   NUMBER PUBLICATION TEXT` are commands. In a body, as in the texts of `spoil`, `|` stands for a line feed.
//! - `look CALLER WHAT`, where WHAT is `edition`, `rules`, `job J`, `answer J`, `publication N` or `ticket N T`.
//! - `take BENCH`; `solve BENCH` hands in what the rules that the bench was given come to, `out-of-memory BENCH` that memory was
//!   wanting; `release BENCH`.
//! - `now`, `outcome J`, `entries`, `let-go BENCH FROM`, `publications` and `drawn N` are what the desk says of itself.
//! - `rows` prints the number of rows that the keeper has, and the head line of the last. `check-rows` decodes each row and
//!   checks each lottery against the present rules, and prints how many there are of both.
//! - `reopen` opens the desk again from its rows. `spoil PLACE OLD => NEW` tries that from a copy of the rows, of which the
//!   one at this place has another text in the place of the first such text.
#![tactic(auto)]

mod cases;
mod commands;
mod outcomes;
mod parts;
mod refusals;
mod replies;
mod rooms;
mod rows;
mod solving;

use crate::cases::Cases;
use std::io::Read;
use std::str;

fn run(rt: &HostRuntime) -> anyhow::Result<()> {
    let alloc = rt.alloc();
    let mut bytes = Vec::new(alloc);
    rt.stdin().read_to_end(&mut bytes)?;
    let mut cases = Cases::new(alloc)?;
    for line in str::from_utf8(bytes.as_slice())?.lines() {
        cases.take_line(rt, line)?;
    }
    Ok(())
}

fn main(rt: HostRuntime) -> anyhow::Result<()> {
    run(&rt)
}
