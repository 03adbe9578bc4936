// What an event does to the outcome of a job.

ghost use Rattle.std.specs.Prelude.{◌≡◌};
ghost use Rattle.desk_history.specs.Outcomes.{Edits, Ends, Reads, Releases, Takes, after, answered_outcome, grade_of, worked_outcome};

use crate::jobs::{Grade, Outcome};
use crate::requests::Work;
use match_rules::{Answer, Level};

fn grade_of(level: &Level) -> Grade
    ensures { result ≡ grade_of level.now }
{
    match level {
        Level::Unasked => Grade::Unasked,
        Level::Free => Grade::Free,
        Level::At { score, .. } => Grade::At { score: *score },
    }
}

// What a job with this answer comes to.
fn answered_outcome(answer: &Answer) -> Outcome
    ensures { result ≡ answered_outcome answer.now }
{
    match answer {
        Answer::Lottery(winning) => Outcome::Certified {
            level: grade_of(&winning.level),
            total: winning.total,
        },
        Answer::Infeasible(blocked) => Outcome::Infeasible {
            need: blocked.need,
            room: blocked.room,
        },
    }
}

fn worked_outcome(work: &Work) -> Outcome
    ensures { result ≡ worked_outcome work.now }
{
    match work {
        Work::Answered(certificate) => answered_outcome(&certificate.answer),
        Work::OutOfMemory => Outcome::OutOfMemory,
    }
}

/// A bench takes the job.
pub fn after_take(outcome: Outcome) -> Outcome
    ensures { result ≡ after Takes outcome }
{
    match outcome {
        Outcome::Waiting => Outcome::Taken,
        other => other,
    }
}

/// The bench that has the job ends it.
pub fn after_end(outcome: Outcome, work: &Work) -> Outcome
    ensures { result ≡ after (Ends work.now) outcome }
{
    match outcome {
        Outcome::Taken => worked_outcome(work),
        other => other,
    }
}

/// The bench that has the job lets it go.
pub fn after_release(outcome: Outcome) -> Outcome
    ensures { result ≡ after Releases outcome }
{
    match outcome {
        Outcome::Taken => Outcome::Waiting,
        other => other,
    }
}

/// An edit makes the edition `later`.
pub fn after_edit(outcome: Outcome, later: u64) -> Outcome
    ensures { result ≡ after (Edits later) outcome }
{
    match outcome {
        Outcome::Waiting | Outcome::Taken => Outcome::Stale { later },
        other => other,
    }
}

/// The job's publish is read back from a row.
pub fn after_reading(outcome: Outcome, answer: &Answer) -> Outcome
    ensures { result ≡ after (Reads answer.now) outcome }
{
    match outcome {
        Outcome::Waiting => answered_outcome(answer),
        other => other,
    }
}
