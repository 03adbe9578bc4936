// The papers and reviewers of a venue: tables in the order of their ids.
#![tactic(auto)]

mod load;
mod rows;
mod table;

pub use load::{Load, MOST_LOAD};
pub use rows::{Institutions, PaperRow, ReviewerRow};
pub use table::{MOST_ROWS, RosterFault, Row, Table};

/// The papers of a venue, at most 1,500, in the order of their ids' bytes.
pub type Papers = Table<PaperRow>;

/// The reviewers of a venue, at most 1,500, in the order of their ids' bytes.
pub type Reviewers = Table<ReviewerRow>;
