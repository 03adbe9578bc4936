// A publish that is read back: its job counts as certified by the lottery in its row, which is checked again.

ghost use Rattle.std.specs.Prelude.{◌≡◌, ◌≤◌, MatchOption, None, Option, Some};
ghost use Rattle.publication.specs.declared.certificate.Certificate.{Certificate};
ghost use Rattle.desk_keeper.specs.declared.words.Command.TheVariants.{Publish};
ghost use Rattle.desk_history.specs.Histories.{History, edits, job_of};
ghost use Rattle.desk_history.specs.Refusals.{publish_refusal};
ghost use Rattle.desk_history.specs.Tables.{AreTables};
ghost use Rattle.desk_reopening.specs.Replaying.{Finds, IsAcceptedWith, IsKeptWith};

use crate::faults::ReplayFault;
use crate::lotteries::read_lottery;
use desk_history::{Job, Tables, nth, publish_refusal};
use match_rules::{Mode, Rules};
use publication::Certificate;
use std::alloc::Global;

// The job of a number, where it isn't of an earlier edition; one that is isn't published.
fn present_job(tables: &Tables, number: u64) -> Option<Job>
    ensures { (H : History) → AreTables H tables.now → MatchOption result
        ((read : Option Certificate) → ¬ (publish_refusal (edits H) read (job_of H number) ≡ None))
        (λ job. (job_of H number ≡ Some job) × (edits H ≤ job.edition)) }
{
    match nth(tables.jobs.as_slice(), number) {
        None => None,
        Some(job) => {
            if job.edition < tables.edits {
                return None;
            }
            Some(job)
        }
    }
}

// The lottery of this mode that is kept for these rules, with a copy of them.
fn read_certificate(
    alloc: Global,
    rules: &Rules,
    mode: Mode,
    text: &[u8],
) -> Result<Option<Certificate>, ReplayFault>
    ensures { Finds (IsKeptWith rules.now mode text.now) result }
{
    let answer = match read_lottery(alloc, rules, mode, text) {
        Ok(answer) => answer,
        Err(fault) => return Err(fault),
    };
    match rules.copy(alloc) {
        Ok(rules) => Ok(Some(Certificate { rules, answer })),
        Err(_) => Err(ReplayFault::Memory),
    }
}

/// What is read with the publish of a job from the text of its row, where it is accepted.
pub fn read_publish(
    alloc: Global,
    tables: &Tables,
    number: u64,
    text: &[u8],
) -> Result<Option<Certificate>, ReplayFault>
    ensures { (H : History) → AreTables H tables.now → Finds (IsAcceptedWith H (Publish number) text.now) result }
{
    let job = match present_job(tables, number) {
        Some(job) => job,
        None => return Err(ReplayFault::Damaged),
    };
    let read = match read_certificate(alloc, &tables.rules, job.mode, text) {
        Ok(read) => read,
        Err(fault) => return Err(fault),
    };
    match publish_refusal(tables.edits, &read, Some(job)) {
        Some(_) => Err(ReplayFault::Damaged),
        None => Ok(read),
    }
}
