// Commands as they are kept.

ghost use Rattle.std.specs.Prelude.{◌≡◌, IfOk, []};
ghost use Rattle.std.specs.String.{string_bytes};

use match_rules::Mode;
use std::alloc::{AllocError, Global};
use std::marker::Model;

/// A name that contracts see as its bytes.
#[derive(Drop)]
pub struct Name {
    text: String,
}

impl Model for Name {
    ghost use Rattle.std.specs.Prelude.{List, ℕ};
    ghost use Rattle.std.specs.String.{string_bytes};

    ghost Value = { List ℕ };

    ghost view = { λ n. string_bytes n.text };
}

impl Name {
    /// The name in a string, without taking memory.
    pub fn from_string(text: String) -> Self
        ensures { result ≡ string_bytes text }
    {
        Name { text }
    }

    /// A copy of a text.
    pub fn read(alloc: Global, text: &str) -> Result<Self, AllocError>
        ensures { IfOk result (λ name. name ≡ text.now) }
    {
        let text = String::from_str(alloc, text)?;
        Ok(Name { text })
    }

    /// The string of this name, without taking memory.
    pub fn into_string(self) -> String
        ensures { string_bytes result ≡ self }
    {
        self.text
    }

    /// The text of the name.
    pub fn as_str(&self) -> &str
        ensures { result.now ≡ self.now }
    {
        self.text.as_str()
    }
}

/// Bytes that contracts see as a list.
#[derive(Drop)]
pub struct Bytes {
    items: Vec<u8>,
}

impl Model for Bytes {
    ghost use Rattle.std.specs.Prelude.{List, ℕ};

    ghost Value = { List ℕ };

    ghost view = { λ b. b.items.items };
}

impl Bytes {
    /// No bytes. Takes no memory.
    pub fn new(alloc: Global) -> Self
        ensures { result ≡ [] }
    {
        Bytes {
            items: Vec::new(alloc),
        }
    }

    /// The bytes of a vector, without taking memory.
    pub fn from_vec(items: Vec<u8>) -> Self
        ensures { result ≡ items.items }
    {
        Bytes { items }
    }

    /// A copy of bytes.
    pub fn read(alloc: Global, bytes: &[u8]) -> Result<Self, AllocError>
        ensures { IfOk result (λ copy. copy ≡ bytes.now) }
    {
        let items = Vec::from_slice(alloc, bytes)?;
        Ok(Bytes { items })
    }

    /// The vector of these bytes, without taking memory.
    pub fn into_vec(self) -> Vec<u8>
        ensures { result.items ≡ self }
    {
        self.items
    }

    /// The bytes as a slice.
    pub fn as_slice(&self) -> &[u8]
        ensures { result.now ≡ self.now }
    {
        self.items.as_slice()
    }
}

/// The tables of a venue.
#[derive(Drop)]
pub enum TableWords {
    Settings,
    Papers,
    Reviewers,
    Values {
        /// The name of the source: 1 to 32 characters of `a` to `z`, `0` to `9`, `_` and `-`.
        source: Name,
    },
    Bids,
    Marks,
    Caps,
}

/// How rows are put into a table.
#[derive(Clone, Copy)]
pub enum HowWords {
    /// Beside the rows that are there.
    Merge,
    /// Into the emptied table.
    Replace,
}

/// A body for one table of a venue.
#[derive(Drop)]
pub struct EditWords {
    /// The table.
    pub table: TableWords,
    /// How its rows are put. Settings are replaced alone.
    pub how: HowWords,
    /// The bytes of the file.
    pub body: Bytes,
}

/// What a caller may have done.
#[derive(Drop)]
pub enum Command {
    /// An edit of the venue.
    Edit {
        /// The number of the edition that it was made for.
        base: u64,
        edit: EditWords,
    },
    /// A job: a lottery is asked for.
    Submit {
        /// The number of the edition that it was made for.
        base: u64,
        mode: Mode,
    },
    /// The lottery of a job is published.
    Publish {
        /// The number of the job, from 1.
        job: u64,
    },
    /// A ticket of a publication is drawn by a text.
    Draw {
        /// The number of the publication, from 1.
        publication: u64,
        text: Bytes,
    },
}

/// A command with its caller and the number that the caller gave it.
#[derive(Drop)]
pub struct Named {
    /// The name of a chair: 1 to 128 visible characters of ASCII, without commas and quotation marks.
    pub caller: Name,
    /// The caller's number of the command.
    pub number: u64,
    pub command: Command,
}

/// What a row keeps.
#[derive(Drop)]
pub struct Kept {
    pub named: Named,
    /// The text of the lottery of a publish; empty for other commands.
    pub lottery: Bytes,
}

/// Why bytes were not read as a row.
#[derive(Clone, Copy, Debug, PartialEq, Eq)]
pub enum RowFault {
    /// They are no row.
    BadRow,
    /// Memory was wanting.
    Memory,
}
