// Which reports there are, and why one could not be written.
ghost use Rattle.std.specs.Prelude.{◌≡◌};
ghost use Rattle.reports.specs.declared.kinds.ReportFault.TheVariants as faults;

use edge_io::Io;
use std::alloc::AllocError;

/// A table of a certified lottery: a line of its columns, and lines in the order of places. Fields are separated by one comma;
/// ids and institutions hold no comma, no quotation mark and no line feed, so they stand as they are.
#[derive(Clone, Copy)]
pub enum Report {
    /// The pairs with a share of at least 1: `paper,reviewer,score,tickets`. Scores are in 10^-6.
    Shares,
    /// The reviewers with the sums of their pairs' shares: `reviewer,least,greatest,tickets`.
    Loads,
    /// The papers with their sums of share times score, in 10^-6 of a score over all tickets: `paper,demand,score`.
    Papers,
    /// The institutions of the reviewers, in the order of their bytes, with the sums of their reviewers' pairs' shares, also
    /// where that is 0: `institution,tickets`.
    Institutions,
    /// The pairs of the piece that holds a ticket: `paper,reviewer`.
    Ticket {
        /// From 0.
        ticket: u32,
    },
}

/// Why a report could not be written.
#[derive(Clone, Copy)]
pub enum ReportFault {
    /// The sink failed.
    WriteFault,
    /// Memory was wanting.
    Memory,
}

impl From<Io> for ReportFault {
    ghost from_gives = { λ _ e. e ≡ faults.WriteFault };

    fn from(_error: Io) -> ReportFault {
        ReportFault::WriteFault
    }
}

impl From<AllocError> for ReportFault {
    ghost from_gives = { λ _ e. e ≡ faults.Memory };

    fn from(_error: AllocError) -> ReportFault {
        ReportFault::Memory
    }
}
