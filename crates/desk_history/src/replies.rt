// What the desk answers.

use crate::jobs::Outcome;
use match_rules::{Mode, PaperId, ReviewerId, Rules};
use publication::Certificate;
use std::marker::Model;

/// What a bench gets with its job.
#[derive(Drop)]
pub struct Snapshot {
    /// The number of the job.
    pub job: u64,
    /// The number of its edition.
    pub edition: u64,
    /// What is asked for.
    pub mode: Mode,
    /// The rules of that edition.
    pub rules: Rules,
}

/// A paper and its reviewer.
#[derive(Drop)]
pub struct PairIds {
    pub paper: PaperId,
    pub reviewer: ReviewerId,
}

/// Pairs in the order of the rules. Contracts see the list.
#[derive(Drop)]
pub struct PairList {
    items: Vec<PairIds>,
}

impl Model for PairList {
    ghost use Rattle.std.specs.Prelude.{List};
    ghost use Rattle.desk_history.specs.declared.replies.PairIds.{PairIds};

    ghost Value = { List PairIds };

    ghost view = { λ p. p.items.items };
}

impl PairList {
    ghost use Rattle.std.specs.Prelude.{◌≡◌};

    /// The pairs of a vector, without taking memory.
    pub fn from_vec(items: Vec<PairIds>) -> Self
        ensures { result ≡ items.items }
    {
        PairList { items }
    }

    /// The pairs as a slice.
    pub fn as_slice(&self) -> &[PairIds]
        ensures { result.now ≡ self.now }
    {
        self.items.as_slice()
    }
}

/// The reply to an accepted request.
#[derive(Drop)]
pub enum Answered {
    /// The number of the edition that an edit made.
    Edited {
        edition: u64,
    },
    /// The number of the job that was submitted.
    Submitted {
        job: u64,
    },
    /// The number of a publication.
    Published {
        publication: u64,
    },
    /// The ticket that was drawn of a publication.
    Drawn {
        publication: u64,
        ticket: u32,
    },
    /// The number of the present edition.
    Edition {
        edition: u64,
    },
    /// The rules of the present edition.
    Rules(Rules),
    /// A job, with the number of its edition.
    Job {
        job: u64,
        edition: u64,
        mode: Mode,
        outcome: Outcome,
    },
    /// Rules and the answer to them.
    Certificate(Certificate),
    /// The pairs that a ticket draws, in the order of the rules.
    Pairs {
        pairs: PairList,
    },
    /// A job for a bench.
    Taken(Snapshot),
    /// What the job of a bench came to.
    Finished {
        job: u64,
        outcome: Outcome,
    },
    /// The number of the job that a bench let go.
    Released {
        job: u64,
    },
}
