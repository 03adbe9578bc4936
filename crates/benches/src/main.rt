//! What the scripts of `bench/` measure, one word each:
//!
//! - `network` reads rules on standard input, compiles their network and prints its size, for `bench/network.sh`; the
//!   microseconds of the compiling go to standard error.
//! - `import` reads a table of values on standard input and prints the number of its rows, for `bench/imports.sh`.
//! - `solve` solves the networks on standard input and prints the cost of each, for `bench/solve.sh`; `time` does the same
//!   and writes the microseconds of each solve alone to standard error.
//! - `write` reads a certificate on standard input and writes the text of its answer, for `bench/job.sh`; the microseconds of
//!   the writing go to standard error.
//! - `level` reads rules on standard input and prints their level in the fair mode, for `bench/job.sh`; the microseconds of the
//!   search go to standard error.
//! - `peel` reads rules on standard input, solves them and prints the number of pieces that their shares are peeled to, for
//!   `bench/peel.sh`; the microseconds of the peeling alone go to standard error.
//!
//! The stored run has the word `solve`. Its costs are those that `bench/plain_cost.py` finds; the last network
//! there is contended enough for the coarse phase.
#![tactic(auto)]

mod answer;
mod import;
mod rules;
mod solve;

use answer::write_again;
use anyhow::bail;
use import::import_values;
use rules::{compile_network, find_level, peel_shares};
use solve::solve_all;
use std::env;

fn measure(rt: &HostRuntime, word: &str) -> anyhow::Result<()> {
    match word {
        "network" => compile_network(rt),
        "import" => import_values(rt),
        "solve" => solve_all(rt, false),
        "time" => solve_all(rt, true),
        "write" => write_again(rt),
        "level" => find_level(rt),
        "peel" => peel_shares(rt),
        _ => bail!("{word} is no word of a benchmark"),
    }
}

fn run(rt: &HostRuntime) -> anyhow::Result<()> {
    for word in env::args(rt)?.skip(1) {
        measure(rt, word.as_str())?;
    }
    Ok(())
}

fn main(rt: HostRuntime) -> anyhow::Result<()> {
    run(&rt)
}
