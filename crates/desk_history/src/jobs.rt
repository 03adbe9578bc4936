// Jobs and publications, as the desk keeps them in its tables.

use match_rules::Mode;

/// A level without its cut.
#[derive(Clone, Copy, Debug)]
pub enum Grade {
    /// The mode is whole: no threshold was asked for.
    Unasked,
    /// A lottery fits with the locked pairs alone.
    Free,
    /// The greatest score at which something fits.
    At {
        /// In 10^-6.
        score: i64,
    },
}

/// What a job came to.
#[derive(Clone, Copy, Debug)]
pub enum Outcome {
    /// No bench has it.
    Waiting,
    /// A bench has it.
    Taken,
    /// It has a certified lottery.
    Certified {
        /// The threshold.
        level: Grade,
        /// The total over all tickets, in 10^-6 of a score.
        total: i128,
    },
    /// No lottery fits the rules.
    Infeasible {
        /// What has to pass the cut, in tickets.
        need: u64,
        /// What may pass it.
        room: u64,
    },
    /// An edit was accepted before it was finished.
    Stale {
        /// The number of the edition that this edit made.
        later: u64,
    },
    /// The solver's memory was wanting.
    OutOfMemory,
}

/// A job. Jobs are numbered from 1, in the order in which they were submitted.
#[derive(Clone, Copy)]
pub struct Job {
    /// The number of the edition whose rules it is for.
    pub edition: u64,
    /// What was asked for.
    pub mode: Mode,
    /// What it came to.
    pub outcome: Outcome,
    /// The place in the history, from 0, of the entry that decided it.
    pub decided: Option<u64>,
    /// The number of its publication.
    pub publication: Option<u64>,
}

/// A publication. Publications are numbered from 1, in their order.
#[derive(Clone, Copy)]
pub struct Publication {
    /// The number of its job.
    pub job: u64,
    /// The ticket, once one was drawn.
    pub ticket: Option<u32>,
}
