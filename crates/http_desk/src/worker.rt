// What a bench makes of its job.

ghost use Rattle.http_desk.specs.Given.{IsHandedIn, IsMadeOf};

use desk_history::{Snapshot, Work};
use publication::Certificate;
use solve_line::solve;
use std::alloc::Global;

// What the rules that a bench was given come to.
fn solved(alloc: Global, given: Snapshot) -> Work
    ensures { IsMadeOf given result }
{
    match solve(alloc, given.rules, given.mode) {
        Ok(verdict) => {
            let (rules, answer) = verdict.into_parts();
            Work::Answered(Certificate { rules, answer })
        }
        Err(_) => Work::OutOfMemory,
    }
}

// What a bench hands in: for what job, and what was made of it.
pub(crate) fn handed_in(alloc: Global, given: Option<Snapshot>) -> (u64, Work)
    ensures { IsHandedIn given result.0 result.1 }
{
    match given {
        Some(snapshot) => (snapshot.job, solved(alloc, snapshot)),
        None => (0, Work::OutOfMemory),
    }
}
