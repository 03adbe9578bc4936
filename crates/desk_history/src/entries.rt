// What stands in a history.

use crate::requests::Work;
use desk_keeper::{Command, Name};
use publication::Certificate;

/// The reply to an accepted command.
#[derive(Clone, Copy, Debug)]
pub enum Done {
    /// The number of the edition that an edit made.
    Edited { edition: u64 },
    /// The number of the job that was submitted.
    Submitted { job: u64 },
    /// The number of a publication.
    Published { publication: u64 },
    /// The ticket that was drawn of a publication.
    Drawn { publication: u64, ticket: u32 },
}

/// What the desk has done in one step.
#[derive(Drop)]
pub enum Entry {
    /// It has accepted a command.
    Accepted {
        caller: Name,
        number: u64,
        command: Command,
        reply: Done,
        /// The rules and the lottery of a publish that was read back from its row.
        read: Option<Certificate>,
    },
    /// A bench has taken a job.
    Took {
        bench: u32,
        job: u64,
    },
    /// A bench has ended its job.
    Ended {
        bench: u32,
        work: Work,
    },
    /// A bench has let its job go.
    Released {
        bench: u32,
    },
}
