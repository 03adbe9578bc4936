// The files of a conference as rows: papers, reviewers, values, bids, marks, caps; and its settings.
#![tactic(auto)]

mod document;
mod examples;
mod fault;
mod fields;
mod file_kind;
mod first;
mod keys;
mod kinds;
mod records;
mod rows;
mod settings;
mod sources;
mod words;

pub use examples::{worked_loads, worked_settings, worked_sources};
pub use fault::{Code, ImportFault, Key};
pub use file_kind::FileKind;
pub use first::first_row;
pub use kinds::{read_bids, read_caps, read_marks, read_papers, read_reviewers, read_values};
pub use rows::{BidRow, CapRow, MarkRow, ValueRow};
pub use settings::{MOST_LIMIT, Settings, read_settings};
