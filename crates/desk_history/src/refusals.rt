// Why the desk refuses a request.

use bid_import::Code;
use venue_rules::LimitFault;

/// The most commands that a history accepts.
pub const MOST_COMMANDS: u64 = 100_000;

/// The most bytes that the rows of a history have together.
pub const MOST_ROW_BYTES: u64 = 1_073_741_824;

/// The number of benches.
pub const BENCHES: u32 = 16;

/// A refusal. It changes nothing. The variants are tested in their order, but for `BenchFull`, which is tested before
/// `NoJob`.
#[derive(Drop)]
pub enum Refusal {
    /// The caller is none of the desk's chairs.
    UnknownChair,
    /// The caller has used the number for another command.
    IdReused {
        /// The place of that one among the accepted commands, from 0.
        entry: u64,
    },
    /// An edit or submit was made for another edition than the present one.
    OtherBase {
        /// The number of the present edition.
        now: u64,
    },
    /// The body of an edit has a fault.
    Import {
        /// The record, from 1 with the skipped one, or 0 for the whole body.
        row: u64,
        /// What is wrong with it.
        code: Code,
    },
    /// The rules of the edited venue pass a limit.
    Limit(LimitFault),
    /// There is no such job.
    UnknownJob,
    /// The job is waiting or taken.
    NotDone,
    /// The job is of an earlier edition.
    Stale {
        /// The number of the present edition.
        now: u64,
    },
    /// The job has no lottery.
    NotCertified,
    /// The job was published.
    AlreadyPublished {
        /// The number of its publication.
        number: u64,
    },
    /// There is no such publication.
    UnknownPublication,
    /// A ticket of the publication was drawn.
    AlreadyDrawn {
        /// That ticket.
        ticket: u32,
    },
    /// No job is waiting.
    NoJob,
    /// The bench has a job.
    BenchFull {
        /// The number of that job.
        job: u64,
    },
    /// The bench hasn't the job, or none.
    BenchEmpty,
    /// Tickets are numbered from 0 to 9,999.
    BadTicket,
    /// The history has room for no further command.
    HistoryFull {
        /// The number of accepted commands; 100,000 are the most.
        commands: u64,
        /// The bytes of their rows and of the new one; 1,073,741,824 are the most.
        bytes: u64,
    },
    /// The keeper failed.
    KeeperFault,
    /// Memory was wanting.
    Memory,
}
