// What is refused, and why.

use bid_import::Code;
use score_spec::Text;
use venue_rules::LimitFault;

/// Why an edit makes no venue.
#[derive(Drop)]
pub enum EditFault {
    /// Memory was wanting.
    Memory,
    /// The body has a fault.
    Import {
        /// The record, from 1 with the skipped one, or 0 for the whole body.
        row: u64,
        /// What is wrong with it.
        code: Code,
    },
    /// The rules of the venue pass a limit.
    Limit(LimitFault),
}

/// Why a folder makes no venue.
#[derive(Drop)]
pub enum LoadFault {
    /// Memory was wanting.
    Memory,
    /// The folder failed.
    Folder,
    /// A file has a fault.
    Bad {
        /// The name of the file.
        file: Text,
        /// The record, from 1 with the skipped one, or 0 for the whole file.
        row: u64,
        /// What is wrong with it.
        code: Code,
    },
    /// The rules of the venue pass a limit.
    Limit(LimitFault),
}
