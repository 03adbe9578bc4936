// The kinds of files of records.

use crate::fields;
use csv::StringRecord;
use roster::MOST_ROWS;
use score_spec::MOST_PAIR_ROWS;

/// The tables that are files of records.
#[derive(Clone, Copy)]
pub enum FileKind {
    Papers,
    Reviewers,
    Values,
    Bids,
    Marks,
    Caps,
}

impl FileKind {
    ghost use Rattle.std.specs.Prelude.{◌≡◌};
    ghost use Rattle.csv.specs.Records.{fields_of};
    ghost use Rattle.bid_import.specs.Files.{is_header};
    ghost use Rattle.bid_import.specs.Kinds.{columns_of, most_records};

    /// Whether the fields of a record are the names of the columns.
    pub(crate) fn has_columns(self, found: &StringRecord) -> bool
        ensures { result ≡ is_header (columns_of self) (fields_of found.now) }
    {
        match self {
            FileKind::Papers => fields::has_three(found, "paper", "demand", "institutions"),
            FileKind::Reviewers => {
                fields::has_four(found, "reviewer", "institution", "least", "greatest")
            }
            FileKind::Values => fields::has_three(found, "paper", "reviewer", "value"),
            FileKind::Bids => fields::has_three(found, "paper", "reviewer", "bid"),
            FileKind::Marks => fields::has_three(found, "paper", "reviewer", "mark"),
            FileKind::Caps => fields::has_three(found, "paper", "reviewer", "cap"),
        }
    }

    /// The most records beside the names of the columns.
    pub(crate) fn most_records(self) -> usize
        ensures { result ≡ most_records self }
    {
        match self {
            FileKind::Papers => MOST_ROWS as usize,
            FileKind::Reviewers => MOST_ROWS as usize,
            FileKind::Values => MOST_PAIR_ROWS as usize,
            FileKind::Bids => MOST_PAIR_ROWS as usize,
            FileKind::Marks => MOST_PAIR_ROWS as usize,
            FileKind::Caps => MOST_PAIR_ROWS as usize,
        }
    }
}
