//! Modes and outcomes, as they are printed.

use desk_history::{Grade, Outcome};
use match_rules::Mode;

/// The word of a mode.
pub(crate) fn mode_word(mode: Mode) -> &'static str {
    match mode {
        Mode::Whole => "whole",
        Mode::Fair => "fair",
    }
}

fn print_certified(rt: &HostRuntime, level: Grade, total: i128) -> anyhow::Result<()> {
    match level {
        Grade::Unasked => println!(rt; "certified threshold none total {total}")?,
        Grade::Free => println!(rt; "certified threshold free total {total}")?,
        Grade::At { score } => println!(rt; "certified threshold {score} total {total}")?,
    }
    Ok(())
}

/// Prints what a job came to, and ends the line.
pub(crate) fn print_outcome(rt: &HostRuntime, outcome: Outcome) -> anyhow::Result<()> {
    match outcome {
        Outcome::Waiting => println!(rt; "waiting")?,
        Outcome::Taken => println!(rt; "taken")?,
        Outcome::Certified { level, total } => print_certified(rt, level, total)?,
        Outcome::Infeasible { need, room } => println!(rt; "infeasible need {need} room {room}")?,
        Outcome::Stale { later } => println!(rt; "stale later {later}")?,
        Outcome::OutOfMemory => println!(rt; "out-of-memory")?,
    }
    Ok(())
}
