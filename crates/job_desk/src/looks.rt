// What a desk tells of its history.

ghost use Rattle.std.specs.Prelude.{◌≡◌, IfOk, length};
ghost use Rattle.desk_history.specs.Histories.{History, edits, job_of, outcome, publications};
ghost use Rattle.desk_history.specs.Looks.{job_look, rules_at};
ghost use Rattle.desk_history.specs.Tables.{AreTables};

use desk_history::{Answered, Outcome, Refusal, Tables, history_laws, nth};
use match_rules::Rules;
use std::alloc::{AllocError, Global};

/// The number of the present edition.
pub fn now(tables: &Tables) -> u64
    ensures { (H : History) → AreTables H tables.now → result ≡ edits H }
{
    tables.edits
}

/// A copy of the rules of the present edition.
pub fn rules_now(alloc: Global, tables: &Tables) -> Result<Rules, AllocError>
    ensures { (H : History) → AreTables H tables.now → IfOk result (λ rules. rules ≡ rules_at H (edits H)) }
{
    history_laws();
    tables.rules.copy(alloc)
}

/// What a job came to; `None` where there is no such job.
pub fn outcome_of(tables: &Tables, job: u64) -> Option<Outcome>
    ensures { (H : History) → AreTables H tables.now → result ≡ outcome H job }
{
    match nth(tables.jobs.as_slice(), job) {
        Some(job) => Some(job.outcome),
        None => None,
    }
}

/// A job as a chair sees it, or the refusal where there is none.
pub fn job_look(tables: &Tables, number: u64) -> Result<Answered, Refusal>
    ensures { (H : History) → AreTables H tables.now → result ≡ (job_look number (job_of H number)).reply }
{
    match nth(tables.jobs.as_slice(), number) {
        Some(job) => Ok(Answered::Job {
            job: number,
            edition: job.edition,
            mode: job.mode,
            outcome: job.outcome,
        }),
        None => Err(Refusal::UnknownJob),
    }
}

/// The number of publications.
pub fn publications(tables: &Tables) -> u64
    ensures { (H : History) → AreTables H tables.now → result ≡ length (publications H) }
{
    tables.publications.len() as u64
}
