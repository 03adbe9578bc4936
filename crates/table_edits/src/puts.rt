// Rows put into a table one after the other, up to the first that finds it full.

ghost use Rattle.std.specs.Prelude.{◌≡◌, ◌+◌, ◌<◌, ◌≤◌, ◌^◌, Bool, length};
ghost use Rattle.bid_import.specs.Files.{first_row_of};
ghost use Rattle.bid_import.specs.Kinds.{columns_of};
ghost use Rattle.roster.specs.declared.rows.PaperRow.{PaperRow};
ghost use Rattle.roster.specs.declared.rows.ReviewerRow.{ReviewerRow};
ghost use Rattle.table_edits.specs.Bodies.{Makes};
ghost use Rattle.table_edits.specs.Puts.{Puts, at_row, put_all, put_fault, row_has_room, pair_has_room};
ghost use Rattle.roster.specs.Table.{put_row};
ghost use Rattle.score_spec.specs.PairTables.{put_pair};

use bid_import::{BidRow, CapRow, Code, FileKind, ImportFault, MarkRow, ValueRow, first_row};
use match_rules::{PaperId, ReviewerId};
use roster::{PaperRow, Papers, ReviewerRow, Reviewers, RosterFault, Row, Table};
use score_spec::{MOST_PAIR_ROWS, PairTable, Scores, ScoresFault, Value};
use std::alloc::Global;

/// Why a row was not put.
#[derive(Clone, Copy, PartialEq, Eq, Debug)]
pub(crate) enum PutFault {
    /// The table has no room for its key.
    Full,
    /// Memory was wanting.
    Memory,
}

/// A kind of table, into which rows are put.
pub(crate) trait Target {
    type Table: Drop;

    type Row: Drop;

    ghost has_room: { Self → Self.Row → Self.Table → Bool };

    ghost with_row: { Self → Self.Row → Self.Table → Self.Table };

    /// Puts a row for its key.
    fn put(&self, table: &mut Self::Table, row: Self::Row) -> Result<(), PutFault>
        ensures { Puts result (has_room self.now row table.old) (with_row self.now row table.old) table.new };
}

fn at_row(number: u64, fault: PutFault) -> ImportFault
    ensures { result ≡ at_row number fault }
{
    match fault {
        PutFault::Full => ImportFault::Bad {
            row: number,
            code: Code::TooMany,
        },
        PutFault::Memory => ImportFault::Memory,
    }
}

// Puts rows, the first of which has this number.
fn put_rows<K: Target>(
    kind: &K,
    table: K::Table,
    first: u64,
    rows: Vec<K::Row>,
) -> Result<K::Table, ImportFault>
    requires { first + length rows.items < 2 ^ 64 }
    ensures { Makes result (put_all (K.has_room kind.now) (K.with_row kind.now) first table rows.items) }
{
    let mut table = table;
    let mut number = first;
    for row in rows {
        if let Err(fault) = kind.put(&mut table, row) {
            return Err(at_row(number, fault));
        }
        number += 1;
    }
    Ok(table)
}

/// Puts the rows of a body, which count from its first row on.
pub(crate) fn put_body<K: Target>(
    alloc: Global,
    kind: &K,
    file: FileKind,
    table: K::Table,
    rows: Vec<K::Row>,
    body: &[u8],
) -> Result<K::Table, ImportFault>
    requires { length rows.items ≤ MOST_PAIR_ROWS }
    ensures { Makes result (put_all (K.has_room kind.now) (K.with_row kind.now) (first_row_of (columns_of file) body.now) table rows.items) }
{
    match first_row(alloc, file, body) {
        Ok(first) => put_rows(kind, table, first, rows),
        Err(_) => Err(ImportFault::Memory),
    }
}

fn put_roster_row<R: Row>(table: &mut Table<R>, row: R) -> Result<(), PutFault>
    ensures { Puts result (row_has_room R.key (R.key row) table.old) (put_row R.key row table.old) table.new }
{
    match table.upsert(row) {
        Ok(()) => Ok(()),
        Err(RosterFault::TooMany { .. }) => Err(PutFault::Full),
        Err(RosterFault::Memory) => Err(PutFault::Memory),
    }
}

pub(crate) struct PaperTarget;

impl Target for PaperTarget {
    ghost use Rattle.table_edits.specs.Puts.{paper_has_room, put_paper};

    type Table = Papers;

    type Row = PaperRow;

    ghost has_room = { λ _. paper_has_room };

    ghost with_row = { λ _. put_paper };

    fn put(&self, table: &mut Papers, row: PaperRow) -> Result<(), PutFault> {
        put_roster_row(table, row)
    }
}

pub(crate) struct ReviewerTarget;

impl Target for ReviewerTarget {
    ghost use Rattle.table_edits.specs.Puts.{reviewer_has_room, put_reviewer};

    type Table = Reviewers;

    type Row = ReviewerRow;

    ghost has_room = { λ _. reviewer_has_room };

    ghost with_row = { λ _. put_reviewer };

    fn put(&self, table: &mut Reviewers, row: ReviewerRow) -> Result<(), PutFault> {
        put_roster_row(table, row)
    }
}

fn put_fault(fault: ScoresFault) -> PutFault
    ensures { result ≡ put_fault fault }
{
    match fault {
        ScoresFault::TooMany => PutFault::Full,
        ScoresFault::Memory => PutFault::Memory,
    }
}

// Puts a value for a pair.
fn put_pair_row<V: Drop>(
    table: &mut PairTable<V>,
    paper: PaperId,
    reviewer: ReviewerId,
    value: V,
) -> Result<(), PutFault>
    ensures { Puts result (pair_has_room paper reviewer table.old) (put_pair paper reviewer value table.old) table.new }
{
    match table.put(paper, reviewer, value) {
        Ok(()) => Ok(()),
        Err(fault) => Err(put_fault(fault)),
    }
}

#[derive(Drop)]
pub(crate) struct ValueTarget<'a> {
    pub source: &'a str,
}

impl<'a> Target for ValueTarget<'a> {
    ghost use Rattle.table_edits.specs.Puts.{value_has_room, put_value_row};

    type Table = Scores;

    type Row = ValueRow;

    ghost has_room = { λ kind. value_has_room kind.source.now };

    ghost with_row = { λ kind. put_value_row kind.source.now };

    fn put(&self, table: &mut Scores, row: ValueRow) -> Result<(), PutFault> {
        match table.put_value(self.source, row.paper, row.reviewer, row.value) {
            Ok(()) => Ok(()),
            Err(fault) => Err(put_fault(fault)),
        }
    }
}

pub(crate) struct BidTarget;

impl Target for BidTarget {
    ghost use Rattle.table_edits.specs.Puts.{bid_has_room, put_bid_row};

    type Table = Scores;

    type Row = BidRow;

    ghost has_room = { λ _. bid_has_room };

    ghost with_row = { λ _. put_bid_row };

    fn put(&self, table: &mut Scores, row: BidRow) -> Result<(), PutFault> {
        match table.put_bid(row.paper, row.reviewer, row.word) {
            Ok(()) => Ok(()),
            Err(fault) => Err(put_fault(fault)),
        }
    }
}

pub(crate) struct MarkTarget;

impl Target for MarkTarget {
    ghost use Rattle.table_edits.specs.Puts.{mark_has_room, put_mark_row};

    type Table = PairTable<i32>;

    type Row = MarkRow;

    ghost has_room = { λ _. mark_has_room };

    ghost with_row = { λ _. put_mark_row };

    fn put(&self, table: &mut PairTable<i32>, row: MarkRow) -> Result<(), PutFault> {
        put_pair_row(table, row.paper, row.reviewer, row.mark)
    }
}

pub(crate) struct CapTarget;

impl Target for CapTarget {
    ghost use Rattle.table_edits.specs.Puts.{cap_has_room, put_cap_row};

    type Table = PairTable<Value>;

    type Row = CapRow;

    ghost has_room = { λ _. cap_has_room };

    ghost with_row = { λ _. put_cap_row };

    fn put(&self, table: &mut PairTable<Value>, row: CapRow) -> Result<(), PutFault> {
        put_pair_row(table, row.paper, row.reviewer, row.cap)
    }
}
