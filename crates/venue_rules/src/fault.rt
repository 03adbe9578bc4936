// Why tables make no rules.

use match_rules::{PaperId, ReviewerId};
use std::alloc::AllocError;

/// A limit that the rules of a venue pass.
#[derive(Drop)]
pub enum LimitFault {
    /// The demands of the papers sum to more than 4,500.
    TooMuchDemand {
        /// Their sum.
        sum: u64,
    },
    /// A pair with the mark 1 whose reviewer has the institution of an author.
    LockForbidden {
        /// The paper of the first such pair, by the bytes of its id.
        paper: PaperId,
        /// Its reviewer.
        reviewer: ReviewerId,
    },
    /// There are more than 250,000 candidate pairs.
    TooManyPairs {
        /// Their number.
        count: u64,
    },
}

/// Why the tables of a venue make no rules.
#[derive(Drop)]
pub enum VenueFault {
    /// Memory was wanting.
    Memory,
    /// The rules pass a limit.
    Limit(LimitFault),
}

impl From<AllocError> for VenueFault {
    ghost use Rattle.std.specs.Prelude.{◌≡◌};
    ghost use Rattle.venue_rules.specs.declared.fault.VenueFault.TheVariants.{Memory};

    ghost from_gives = { λ _ fault. fault ≡ Memory };

    fn from(_error: AllocError) -> VenueFault {
        VenueFault::Memory
    }
}
