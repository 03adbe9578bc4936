//! Refusals, as they are printed.

use desk_history::Refusal;
use venue_rules::LimitFault;

fn print_limit(rt: &HostRuntime, fault: &LimitFault) -> anyhow::Result<()> {
    match fault {
        LimitFault::TooMuchDemand { sum } => println!(rt; "too-much-demand {sum}")?,
        LimitFault::LockForbidden { paper, reviewer } => {
            println!(rt; "lock-forbidden {} {}", paper.text(), reviewer.text())?;
        }
        LimitFault::TooManyPairs { count } => println!(rt; "too-many-pairs {count}")?,
    }
    Ok(())
}

// Refusals with something beside their word.
fn print_numbered(rt: &HostRuntime, refusal: &Refusal) -> anyhow::Result<()> {
    match refusal {
        Refusal::IdReused { entry } => println!(rt; "id-reused entry {entry}")?,
        Refusal::OtherBase { now } => println!(rt; "other-base now {now}")?,
        Refusal::Import { row, code } => println!(rt; "import row {row} {code:?}")?,
        Refusal::Limit(fault) => print_limit(rt, fault)?,
        Refusal::Stale { now } => println!(rt; "stale now {now}")?,
        Refusal::AlreadyPublished { number } => println!(rt; "already-published {number}")?,
        Refusal::AlreadyDrawn { ticket } => println!(rt; "already-drawn ticket {ticket}")?,
        Refusal::BenchFull { job } => println!(rt; "bench-full job {job}")?,
        Refusal::HistoryFull { commands, bytes } => {
            println!(rt; "history-full commands {commands} bytes {bytes}")?;
        }
        _ => println!(rt; "{}", word_of(refusal))?,
    }
    Ok(())
}

// The words of the other refusals.
fn word_of(refusal: &Refusal) -> &'static str {
    match refusal {
        Refusal::UnknownChair => "unknown-chair",
        Refusal::UnknownJob => "unknown-job",
        Refusal::NotDone => "not-done",
        Refusal::NotCertified => "not-certified",
        Refusal::UnknownPublication => "unknown-publication",
        Refusal::NoJob => "no-job",
        Refusal::BenchEmpty => "bench-empty",
        Refusal::BadTicket => "bad-ticket",
        Refusal::KeeperFault => "keeper-fault",
        Refusal::Memory => "memory",
        _ => "",
    }
}

/// Prints a refusal with its numbers.
pub(crate) fn print_refusal(rt: &HostRuntime, refusal: &Refusal) -> anyhow::Result<()> {
    print!(rt; "refused ")?;
    print_numbered(rt, refusal)
}
