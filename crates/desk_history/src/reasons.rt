// Why a command is refused: each reason, and the first of them in their order.

ghost use Rattle.std.specs.Prelude.{◌≡◌, ◌<◌, ◌≤◌, IsNone};
ghost use Rattle.desk_history.specs.Refusals.{base_refusal, counted, draw_refusal, full_refusal, is_open, is_without, publish_refusal, publishing_refusal};

use crate::jobs::{Job, Outcome, Publication};
use crate::outcomes::after_reading;
use crate::refusals::{MOST_COMMANDS, MOST_ROW_BYTES, Refusal};
use publication::Certificate;

/// The base of an edit or a submit isn't the number of the present edition.
pub fn base_refusal(now: u64, base: u64) -> Option<Refusal>
    ensures { result ≡ base_refusal now base }
{
    if base == now {
        None
    } else {
        Some(Refusal::OtherBase { now })
    }
}

fn is_open(outcome: Outcome) -> bool
    ensures { result ≡ is_open outcome }
{
    match outcome {
        Outcome::Waiting => true,
        Outcome::Taken => true,
        _ => false,
    }
}

fn is_without(outcome: Outcome) -> bool
    ensures { result ≡ is_without outcome }
{
    match outcome {
        Outcome::Infeasible { .. } => true,
        Outcome::OutOfMemory => true,
        _ => false,
    }
}

// Why a job isn't published, by the outcome that counts.
fn publishing_refusal(now: u64, job: Job, come_to: Outcome) -> Option<Refusal>
    ensures { result ≡ publishing_refusal now job come_to }
{
    if is_open(come_to) {
        return Some(Refusal::NotDone);
    }
    if job.edition < now {
        return Some(Refusal::Stale { now });
    }
    if is_without(come_to) {
        return Some(Refusal::NotCertified);
    }
    match job.publication {
        Some(number) => Some(Refusal::AlreadyPublished { number }),
        None => None,
    }
}

// The outcome that a publish goes by.
fn counted(read: &Option<Certificate>, outcome: Outcome) -> Outcome
    ensures { result ≡ counted read.now outcome }
{
    match read {
        None => outcome,
        Some(certificate) => after_reading(outcome, &certificate.answer),
    }
}

/// Why a job isn't published; it counts as certified by what was read with its publish from a row.
pub fn publish_refusal(now: u64, read: &Option<Certificate>, job: Option<Job>) -> Option<Refusal>
    ensures { result ≡ publish_refusal now read.now job }
{
    match job {
        None => Some(Refusal::UnknownJob),
        Some(job) => publishing_refusal(now, job, counted(read, job.outcome)),
    }
}

/// Why no ticket of a publication is drawn.
pub fn draw_refusal(publication: Option<Publication>) -> Option<Refusal>
    ensures { result ≡ draw_refusal publication }
{
    match publication {
        None => Some(Refusal::UnknownPublication),
        Some(publication) => match publication.ticket {
            Some(ticket) => Some(Refusal::AlreadyDrawn { ticket }),
            None => None,
        },
    }
}

/// So many commands leave no room for a further one, or the bytes of the rows with the new one are too many.
pub fn full_refusal(commands: u64, bytes: u64) -> Option<Refusal>
    ensures value { result ≡ full_refusal commands bytes }
    ensures room { IsNone result → (commands < MOST_COMMANDS) × (bytes ≤ MOST_ROW_BYTES) }
{
    if commands >= MOST_COMMANDS {
        return Some(Refusal::HistoryFull { commands, bytes });
    }
    if bytes > MOST_ROW_BYTES {
        return Some(Refusal::HistoryFull { commands, bytes });
    }
    None
}
