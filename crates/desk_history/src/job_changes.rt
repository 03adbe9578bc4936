// The tables of jobs and publications: what is found in them, and what each entry changes.

ghost use Rattle.std.specs.Prelude.{◌≡◌, ◌≤◌, ◌<◌, ◌-◌, ◌++◌, ◌∷◌, [], map, length, slice_set, vec_capacity, vec_len, IsSome, None};
ghost use Rattle.desk_history.specs.Outcomes.{Edits, Ends, Releases, Takes};
ghost use Rattle.desk_history.specs.Histories.{changed, drawn, ended, new_job, nth_of, published, with_held, with_nth};

use crate::jobs::{Job, Outcome, Publication};
use crate::outcomes::{after_edit, after_end, after_reading, after_release, after_take};
use crate::requests::Work;
use match_rules::Mode;
use publication::Certificate;

/// The item of a number, from 1.
pub fn nth<T: Copy>(items: &[T], number: u64) -> Option<T>
    ensures value { result ≡ nth_of items.now number }
    ensures within { IsSome result → (1 ≤ number) × (number ≤ length items.now) }
{
    if number == 0 {
        return None;
    }
    items.get((number - 1) as usize).copied()
}

// Another job in the place of that of a number.
fn put_job(jobs: &mut Vec<Job>, number: u64, job: Job)
    requires { (1 ≤ number) × (number ≤ length jobs.old.items) }
    ensures { jobs.new.items ≡ slice_set jobs.old.items (number - 1) job }
{
    jobs[(number - 1) as usize] = job;
}

// Another publication in the place of that of a number.
fn put_publication(publications: &mut Vec<Publication>, number: u64, publication: Publication)
    requires { (1 ≤ number) × (number ≤ length publications.old.items) }
    ensures { publications.new.items ≡ slice_set publications.old.items (number - 1) publication }
{
    publications[(number - 1) as usize] = publication;
}

/// A bench takes the job of a number.
pub fn take(jobs: &mut Vec<Job>, number: u64)
    ensures { jobs.new.items ≡ with_nth jobs.old.items number (changed Takes) }
{
    if let Some(job) = nth(jobs.as_slice(), number) {
        let outcome = after_take(job.outcome);
        put_job(jobs, number, Job { outcome, ..job });
    }
}

/// The bench that has the job of a number lets it go.
pub fn release(jobs: &mut Vec<Job>, number: u64)
    ensures { jobs.new.items ≡ with_nth jobs.old.items number (changed Releases) }
{
    if let Some(job) = nth(jobs.as_slice(), number) {
        let outcome = after_release(job.outcome);
        put_job(jobs, number, Job { outcome, ..job });
    }
}

// The job, ended by the entry at a place.
fn ended(job: Job, work: &Work, place: u64) -> Job
    ensures { result ≡ ended work.now place job }
{
    let outcome = after_end(job.outcome, work);
    let decided = match job.outcome {
        Outcome::Taken => Some(place),
        _ => job.decided,
    };
    Job {
        outcome,
        decided,
        ..job
    }
}

/// The bench that has the job of a number ends it, by the entry at a place.
pub fn end(jobs: &mut Vec<Job>, number: u64, work: &Work, place: u64)
    ensures { jobs.new.items ≡ with_nth jobs.old.items number (ended work.now place) }
{
    if let Some(job) = nth(jobs.as_slice(), number) {
        put_job(jobs, number, ended(job, work, place));
    }
}

// The job, with the publication of a number.
fn published(job: Job, read: &Option<Certificate>, place: u64, number: u64) -> Job
    ensures { result ≡ published read.now place number job }
{
    match read {
        None => Job {
            publication: Some(number),
            ..job
        },
        Some(certificate) => Job {
            outcome: after_reading(job.outcome, &certificate.answer),
            decided: Some(place),
            publication: Some(number),
            ..job
        },
    }
}

/// The job of a number is published, by the entry at a place.
pub fn publish(
    jobs: &mut Vec<Job>,
    number: u64,
    read: &Option<Certificate>,
    place: u64,
    publication: u64,
)
    ensures { jobs.new.items ≡ with_nth jobs.old.items number (published read.now place publication) }
{
    if let Some(job) = nth(jobs.as_slice(), number) {
        put_job(jobs, number, published(job, read, place, publication));
    }
}

/// A ticket of the publication of a number is drawn.
pub fn draw(publications: &mut Vec<Publication>, number: u64, ticket: u32)
    ensures { publications.new.items ≡ with_nth publications.old.items number (drawn ticket) }
{
    if let Some(publication) = nth(publications.as_slice(), number) {
        let ticket = Some(ticket);
        put_publication(
            publications,
            number,
            Publication {
                ticket,
                ..publication
            },
        );
    }
}

/// The bench that has this job, where it has one, lets it go.
pub fn release_held(jobs: &mut Vec<Job>, held: Option<u64>)
    ensures { jobs.new.items ≡ with_held jobs.old.items held (changed Releases) }
{
    if let Some(job) = held {
        release(jobs, job);
    }
}

/// The bench that has this job, where it has one, ends it, by the entry at a place.
pub fn end_held(jobs: &mut Vec<Job>, held: Option<u64>, work: &Work, place: u64)
    ensures { jobs.new.items ≡ with_held jobs.old.items held (ended work.now place) }
{
    if let Some(job) = held {
        end(jobs, job, work, place);
    }
}

/// An edit makes the edition `later`.
pub fn edit(jobs: &mut Vec<Job>, later: u64)
    ensures { jobs.new.items ≡ map (changed (Edits later)) jobs.old.items }
{
    for job in jobs.iter_mut() {
        job.outcome = after_edit(job.outcome, later);
    }
}

/// A new job. There has to be room for it.
pub fn submit(jobs: &mut Vec<Job>, edition: u64, mode: Mode)
    requires { vec_len jobs.old < vec_capacity jobs.old }
    ensures { jobs.new.items ≡ jobs.old.items ++ new_job edition mode ∷ [] }
{
    let job = Job {
        edition,
        mode,
        outcome: Outcome::Waiting,
        decided: None,
        publication: None,
    };
    match jobs.push(job) {
        Ok(()) => {}
        Err(_) => unreachable!(),
    }
}

/// A new publication, of the job of a number. There has to be room for it.
pub fn add_publication(publications: &mut Vec<Publication>, job: u64)
    requires { vec_len publications.old < vec_capacity publications.old }
    ensures { publications.new.items ≡ publications.old.items ++ (record { job = job; ticket = None }) ∷ [] }
{
    match publications.push(Publication { job, ticket: None }) {
        Ok(()) => {}
        Err(_) => unreachable!(),
    }
}
