// Benches take jobs, end them and let them go.

ghost use Rattle.std.specs.Prelude.{◌≡◌, ◌<◌, ◌≤◌, ◌+◌, ◌∷◌, ℕ, List, IfOk, IsErrOf, IsSome, None, OnOk, slice_index_or, vec_capacity, vec_len};
ghost use Rattle.desk_history.specs.declared.entries.Entry.TheVariants.{Ended, Released, Took};
ghost use Rattle.desk_history.specs.Courses.{AreKept, Does, IsEndable, IsTakable, history_of};
ghost use Rattle.desk_history.specs.Histories.{History};
ghost use Rattle.desk_history.specs.Steps.{finish_step, first_waiting, is_waiting, release_step, take_step};
ghost use Rattle.desk_history.specs.Tables.{AreTables};

use crate::entries::Entry;
use crate::job_changes::nth;
use crate::jobs::{Job, Outcome};
use crate::outcomes::after_end;
use crate::refusals::{BENCHES, Refusal};
use crate::replies::{Answered, Snapshot};
use crate::requests::Work;
use crate::tables::Tables;
use match_rules::Rules;
use std::alloc::{AllocError, Global};

fn is_waiting(outcome: Outcome) -> bool
    ensures { result ≡ is_waiting outcome }
{
    match outcome {
        Outcome::Waiting => true,
        _ => false,
    }
}

// The waiting job of the least number, with its number.
fn first_waiting(jobs: &[Job]) -> Option<(u64, Job)>
    ensures { result ≡ first_waiting 1 jobs.now }
{
    for (place, job) in jobs.iter().enumerate() {
        if is_waiting(job.outcome) {
            return Some((place as u64 + 1, *job));
        }
    }
    None
}

// The job that a bench takes.
fn takable(tables: &Tables, bench: u32) -> Result<(u64, Job), Refusal>
    requires { bench < BENCHES }
    ensures { (H : History) → AreTables H tables.now → IsTakable H bench result }
{
    match tables.benches[bench as usize] {
        Some(job) => Err(Refusal::BenchFull { job }),
        None => match first_waiting(tables.jobs.as_slice()) {
            Some(found) => Ok(found),
            None => Err(Refusal::NoJob),
        },
    }
}

/// One entry more, for which there has to be room.
pub fn push(entries: &mut Vec<Entry>, entry: Entry)
    requires { vec_len entries.old < vec_capacity entries.old }
    ensures entry { history_of entries.new ≡ entry ∷ history_of entries.old }
    ensures len { vec_len entries.new ≡ vec_len entries.old + 1 }
    ensures capacity { vec_capacity entries.old ≤ vec_capacity entries.new }
{
    match entries.push(entry) {
        Ok(()) => {}
        Err(_) => unreachable!(),
    }
}

// A bench takes a job; there has to be room for that and for the ends of all benches.
fn note_take(entries: &mut Vec<Entry>, tables: &mut Tables, bench: u32, job: u64)
    requires bench { bench < BENCHES }
    requires kept { AreKept entries.old tables.old }
    requires room { vec_len entries.old + 17 ≤ vec_capacity entries.old }
    ensures entry { history_of entries.new ≡ Took bench job ∷ history_of entries.old }
    ensures kept { AreKept entries.new tables.new }
{
    push(entries, Entry::Took { bench, job });
    tables.note_take(bench, job);
}

fn snapshot(alloc: Global, rules: &Rules, number: u64, job: Job) -> Result<Snapshot, AllocError>
    ensures { IfOk result (λ made. made ≡ record { job = number; edition = job.edition; mode = job.mode; rules = rules.now }) }
{
    let rules = rules.copy(alloc)?;
    Ok(Snapshot {
        job: number,
        edition: job.edition,
        mode: job.mode,
        rules,
    })
}

/// Room for one entry more and for the ends of all benches.
pub fn reserve(entries: &mut Vec<Entry>) -> Result<(), AllocError>
    ensures items { entries.new.items ≡ entries.old.items }
    ensures len { vec_len entries.new ≡ vec_len entries.old }
    ensures capacity { vec_capacity entries.old ≤ vec_capacity entries.new }
    ensures room { OnOk result (vec_len entries.new + 17 ≤ vec_capacity entries.new) }
{
    entries.reserve(17)
}

/// A bench takes the waiting job of the least number, and gets the rules of its edition. Takes the memory for the end of
/// the job, too.
pub fn take(
    alloc: Global,
    entries: &mut Vec<Entry>,
    tables: &mut Tables,
    bench: u32,
) -> Result<Answered, Refusal>
    requires bench { bench < BENCHES }
    requires kept { AreKept entries.old tables.old }
    ensures step { Does (take_step (history_of entries.old) bench) (history_of entries.old) result (history_of entries.new) }
    ensures kept { AreKept entries.new tables.new }
{
    let (number, job) = match takable(tables, bench) {
        Ok(found) => found,
        Err(refusal) => return Err(refusal),
    };
    let snapshot = match snapshot(alloc, &tables.rules, number, job) {
        Ok(snapshot) => snapshot,
        Err(_) => return Err(Refusal::Memory),
    };
    match reserve(entries) {
        Ok(()) => {}
        Err(_) => return Err(Refusal::Memory),
    }
    note_take(entries, tables, bench, number);
    Ok(Answered::Taken(snapshot))
}

// A bench that has a job ends it.
fn note_end(entries: &mut Vec<Entry>, tables: &mut Tables, bench: u32, work: Work)
    requires bench { bench < BENCHES }
    requires kept { AreKept entries.old tables.old }
    requires full { IsSome (slice_index_or tables.old.benches bench None) }
    ensures entry { history_of entries.new ≡ Ended bench work ∷ history_of entries.old }
    ensures kept { AreKept entries.new tables.new }
{
    tables.note_end(bench, &work, entries.len() as u64);
    push(entries, Entry::Ended { bench, work });
}

// A bench that has a job lets it go.
fn note_release(entries: &mut Vec<Entry>, tables: &mut Tables, bench: u32)
    requires bench { bench < BENCHES }
    requires kept { AreKept entries.old tables.old }
    requires full { IsSome (slice_index_or tables.old.benches bench None) }
    ensures entry { history_of entries.new ≡ Released bench ∷ history_of entries.old }
    ensures kept { AreKept entries.new tables.new }
{
    tables.note_release(bench);
    push(entries, Entry::Released { bench });
}

/// A bench that has a job lets it go. Takes no memory.
pub fn release(
    entries: &mut Vec<Entry>,
    tables: &mut Tables,
    bench: u32,
) -> Result<Answered, Refusal>
    requires bench { bench < BENCHES }
    requires kept { AreKept entries.old tables.old }
    ensures step { Does (release_step (history_of entries.old) bench) (history_of entries.old) result (history_of entries.new) }
    ensures kept { AreKept entries.new tables.new }
    ensures sure { ¬ (IsErrOf result Refusal.Memory) }
{
    match tables.benches[bench as usize] {
        None => Err(Refusal::BenchEmpty),
        Some(job) => {
            note_release(entries, tables, bench);
            Ok(Answered::Released { job })
        }
    }
}

// The job that a bench ends, where the bench has it.
fn endable(tables: &Tables, bench: u32, number: u64) -> Option<Job>
    requires { bench < BENCHES }
    ensures { (H : History) → AreTables H tables.now → IsEndable H bench number result }
{
    match tables.benches[bench as usize] {
        None => None,
        Some(held) => {
            if held == number {
                nth(tables.jobs.as_slice(), number)
            } else {
                None
            }
        }
    }
}

/// A bench ends the job that it has. Takes no memory.
pub fn finish(
    entries: &mut Vec<Entry>,
    tables: &mut Tables,
    bench: u32,
    number: u64,
    work: Work,
) -> Result<Answered, Refusal>
    requires bench { bench < BENCHES }
    requires kept { AreKept entries.old tables.old }
    ensures step { Does (finish_step (history_of entries.old) bench number work) (history_of entries.old) result (history_of entries.new) }
    ensures kept { AreKept entries.new tables.new }
    ensures sure { ¬ (IsErrOf result Refusal.Memory) }
{
    match endable(tables, bench, number) {
        None => Err(Refusal::BenchEmpty),
        Some(job) => {
            let outcome = after_end(job.outcome, &work);
            note_end(entries, tables, bench, work);
            Ok(Answered::Finished {
                job: number,
                outcome,
            })
        }
    }
}
