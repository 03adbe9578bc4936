// Edits: a table, how its rows are put, and the body.

use score_spec::Text;
use std::marker::Model;

/// The tables of a venue.
#[derive(Drop)]
pub enum TableName {
    /// The settings, a TOML document.
    Settings,
    /// The papers.
    Papers,
    /// The reviewers.
    Reviewers,
    /// The values of a source.
    Values {
        /// The name of the source.
        source: Text,
    },
    /// The bids.
    Bids,
    /// The marks.
    Marks,
    /// The caps.
    Caps,
}

/// How rows are put into a table.
#[derive(Debug, Clone, Copy, PartialEq, Eq)]
pub enum How {
    /// Beside the rows that are there.
    Merge,
    /// Into the emptied table.
    Replace,
}

/// The bytes of an edit. Contracts see them as a list.
#[derive(Drop)]
pub struct Body {
    bytes: Vec<u8>,
}

impl Model for Body {
    ghost use Rattle.std.specs.Prelude.{List, ℕ};

    ghost Value = { List ℕ };

    ghost view = { λ b. b.bytes.items };
}

impl Body {
    ghost use Rattle.std.specs.Prelude.{◌≡◌};

    /// The body of a vector, without taking memory.
    pub fn from_vec(bytes: Vec<u8>) -> Self
        ensures { result ≡ bytes.items }
    {
        Body { bytes }
    }

    /// The bytes as a slice.
    pub fn as_slice(&self) -> &[u8]
        ensures { result.now ≡ self.now }
    {
        self.bytes.as_slice()
    }
}

/// A body for one table of a venue.
#[derive(Drop)]
pub struct Edit {
    /// The table.
    pub table: TableName,
    /// How its rows are put. Settings are replaced alone.
    pub how: How,
    /// The file's bytes.
    pub body: Body,
}
