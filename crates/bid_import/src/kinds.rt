// The rows of each kind of file.

ghost use Rattle.std.specs.Prelude.{◌≡◌};
ghost use Rattle.bid_import.specs.Files.{Imports, Reads, rows_of_file};
ghost use Rattle.bid_import.specs.Fields.{paper_of, reviewer_of, value_row_of, bid_row_of, mark_row_of, cap_row_of};
ghost use Rattle.bid_import.specs.Kinds.{paper_columns, reviewer_columns, value_columns, bid_columns, mark_columns, cap_columns, paper_row, reviewer_row, value_row, bid_row, mark_row, cap_row};

use crate::fault::{Code, ImportFault, RowFault};
use crate::fields;
use crate::file_kind::FileKind;
use crate::records::{RowKind, read_rows};
use crate::rows::{BidRow, CapRow, MarkRow, ValueRow};
use csv::StringRecord;
use roster::{MOST_ROWS, PaperRow, ReviewerRow};
use score_spec::{BidWord, MOST_PAIR_ROWS, Spec};
use std::alloc::Global;

fn paper_row(
    alloc: Global,
    paper_text: &str,
    demand_text: &str,
    institutions_text: &str,
) -> Result<PaperRow, RowFault>
    ensures { Reads result (paper_of paper_text.now demand_text.now institutions_text.now) }
{
    Ok(PaperRow {
        id: fields::paper_id(alloc, paper_text)?,
        demand: fields::demand(demand_text)?,
        authors: fields::institutions(alloc, institutions_text)?,
    })
}

fn reviewer_row(
    alloc: Global,
    reviewer_text: &str,
    institution_text: &str,
    least_text: &str,
    greatest_text: &str,
) -> Result<ReviewerRow, RowFault>
    ensures { Reads result (reviewer_of reviewer_text.now institution_text.now least_text.now greatest_text.now) }
{
    Ok(ReviewerRow {
        id: fields::reviewer_id(alloc, reviewer_text)?,
        institution: fields::institution(alloc, institution_text)?,
        load: fields::load(least_text, greatest_text)?,
    })
}

fn value_row(
    alloc: Global,
    paper_text: &str,
    reviewer_text: &str,
    value_text: &str,
) -> Result<ValueRow, RowFault>
    ensures { Reads result (value_row_of paper_text.now reviewer_text.now value_text.now) }
{
    Ok(ValueRow {
        paper: fields::paper_id(alloc, paper_text)?,
        reviewer: fields::reviewer_id(alloc, reviewer_text)?,
        value: fields::value(value_text)?,
    })
}

fn bid_row(
    alloc: Global,
    words: &[BidWord],
    paper_text: &str,
    reviewer_text: &str,
    bid_text: &str,
) -> Result<BidRow, RowFault>
    ensures { Reads result (bid_row_of words.now paper_text.now reviewer_text.now bid_text.now) }
{
    Ok(BidRow {
        paper: fields::paper_id(alloc, paper_text)?,
        reviewer: fields::reviewer_id(alloc, reviewer_text)?,
        word: fields::word(alloc, words, bid_text)?,
    })
}

fn mark_row(
    alloc: Global,
    paper_text: &str,
    reviewer_text: &str,
    mark_text: &str,
) -> Result<MarkRow, RowFault>
    ensures { Reads result (mark_row_of paper_text.now reviewer_text.now mark_text.now) }
{
    Ok(MarkRow {
        paper: fields::paper_id(alloc, paper_text)?,
        reviewer: fields::reviewer_id(alloc, reviewer_text)?,
        mark: fields::mark(mark_text)?,
    })
}

fn cap_row(
    alloc: Global,
    paper_text: &str,
    reviewer_text: &str,
    cap_text: &str,
) -> Result<CapRow, RowFault>
    ensures { Reads result (cap_row_of paper_text.now reviewer_text.now cap_text.now) }
{
    Ok(CapRow {
        paper: fields::paper_id(alloc, paper_text)?,
        reviewer: fields::reviewer_id(alloc, reviewer_text)?,
        cap: fields::cap(cap_text)?,
    })
}

struct PaperKind;

impl RowKind for PaperKind {
    ghost use Rattle.bid_import.specs.Kinds.{paper_row};
    ghost use Rattle.bid_import.specs.declared.file_kind.FileKind.TheVariants.{Papers};

    type Row = PaperRow;

    ghost file = { Papers };

    ghost row_of = { λ _. paper_row };

    fn file(&self) -> FileKind {
        FileKind::Papers
    }

    fn row(&self, alloc: Global, found: &StringRecord) -> Result<PaperRow, RowFault> {
        let (paper, demand, institutions) = fields::three(found).ok_or(Code::WrongWidth)?;
        paper_row(alloc, paper, demand, institutions)
    }
}

struct ReviewerKind;

impl RowKind for ReviewerKind {
    ghost use Rattle.bid_import.specs.Kinds.{reviewer_row};
    ghost use Rattle.bid_import.specs.declared.file_kind.FileKind.TheVariants.{Reviewers};

    type Row = ReviewerRow;

    ghost file = { Reviewers };

    ghost row_of = { λ _. reviewer_row };

    fn file(&self) -> FileKind {
        FileKind::Reviewers
    }

    fn row(&self, alloc: Global, found: &StringRecord) -> Result<ReviewerRow, RowFault> {
        let (reviewer, institution, least, greatest) = fields::four(found).ok_or(Code::WrongWidth)?;
        reviewer_row(alloc, reviewer, institution, least, greatest)
    }
}

struct ValueKind;

impl RowKind for ValueKind {
    ghost use Rattle.bid_import.specs.Kinds.{value_row};
    ghost use Rattle.bid_import.specs.declared.file_kind.FileKind.TheVariants.{Values};

    type Row = ValueRow;

    ghost file = { Values };

    ghost row_of = { λ _. value_row };

    fn file(&self) -> FileKind {
        FileKind::Values
    }

    fn row(&self, alloc: Global, found: &StringRecord) -> Result<ValueRow, RowFault> {
        let (paper, reviewer, value) = fields::three(found).ok_or(Code::WrongWidth)?;
        value_row(alloc, paper, reviewer, value)
    }
}

#[derive(Drop)]
struct BidKind<'a> {
    words: &'a [BidWord],
}

impl<'a> RowKind for BidKind<'a> {
    ghost use Rattle.bid_import.specs.Kinds.{bid_row};
    ghost use Rattle.bid_import.specs.declared.file_kind.FileKind.TheVariants.{Bids};

    type Row = BidRow;

    ghost file = { Bids };

    ghost row_of = { λ kind. bid_row kind.words.now };

    fn file(&self) -> FileKind {
        FileKind::Bids
    }

    fn row(&self, alloc: Global, found: &StringRecord) -> Result<BidRow, RowFault> {
        let (paper, reviewer, bid) = fields::three(found).ok_or(Code::WrongWidth)?;
        bid_row(alloc, self.words, paper, reviewer, bid)
    }
}

struct MarkKind;

impl RowKind for MarkKind {
    ghost use Rattle.bid_import.specs.Kinds.{mark_row};
    ghost use Rattle.bid_import.specs.declared.file_kind.FileKind.TheVariants.{Marks};

    type Row = MarkRow;

    ghost file = { Marks };

    ghost row_of = { λ _. mark_row };

    fn file(&self) -> FileKind {
        FileKind::Marks
    }

    fn row(&self, alloc: Global, found: &StringRecord) -> Result<MarkRow, RowFault> {
        let (paper, reviewer, mark) = fields::three(found).ok_or(Code::WrongWidth)?;
        mark_row(alloc, paper, reviewer, mark)
    }
}

struct CapKind;

impl RowKind for CapKind {
    ghost use Rattle.bid_import.specs.Kinds.{cap_row};
    ghost use Rattle.bid_import.specs.declared.file_kind.FileKind.TheVariants.{Caps};

    type Row = CapRow;

    ghost file = { Caps };

    ghost row_of = { λ _. cap_row };

    fn file(&self) -> FileKind {
        FileKind::Caps
    }

    fn row(&self, alloc: Global, found: &StringRecord) -> Result<CapRow, RowFault> {
        let (paper, reviewer, cap) = fields::three(found).ok_or(Code::WrongWidth)?;
        cap_row(alloc, paper, reviewer, cap)
    }
}

/// Reads a table of papers, with the columns `paper`, `demand` and `institutions`, of at most 1,500 records.
pub fn read_papers(alloc: Global, bytes: &[u8]) -> Result<Vec<PaperRow>, ImportFault>
    ensures { Imports result (rows_of_file paper_row paper_columns MOST_ROWS bytes.now) }
{
    read_rows(alloc, &PaperKind, bytes)
}

/// Reads a table of reviewers, with the columns `reviewer`, `institution`, `least` and `greatest`, of at most 1,500
/// records.
pub fn read_reviewers(alloc: Global, bytes: &[u8]) -> Result<Vec<ReviewerRow>, ImportFault>
    ensures { Imports result (rows_of_file reviewer_row reviewer_columns MOST_ROWS bytes.now) }
{
    read_rows(alloc, &ReviewerKind, bytes)
}

/// Reads a table of values, with the columns `paper`, `reviewer` and `value`, of at most 250,000 records.
pub fn read_values(alloc: Global, bytes: &[u8]) -> Result<Vec<ValueRow>, ImportFault>
    ensures { Imports result (rows_of_file value_row value_columns MOST_PAIR_ROWS bytes.now) }
{
    read_rows(alloc, &ValueKind, bytes)
}

/// Reads a table of bids, with the columns `paper`, `reviewer` and `bid`, of at most 250,000 records. A bid is one of
/// the words of the settings.
pub fn read_bids(alloc: Global, bytes: &[u8], spec: &Spec) -> Result<Vec<BidRow>, ImportFault>
    ensures { Imports result (rows_of_file (bid_row spec.now.words) bid_columns MOST_PAIR_ROWS bytes.now) }
{
    let kind = BidKind {
        words: spec.words.as_slice(),
    };
    read_rows(alloc, &kind, bytes)
}

/// Reads a table of marks, with the columns `paper`, `reviewer` and `mark`, of at most 250,000 records.
pub fn read_marks(alloc: Global, bytes: &[u8]) -> Result<Vec<MarkRow>, ImportFault>
    ensures { Imports result (rows_of_file mark_row mark_columns MOST_PAIR_ROWS bytes.now) }
{
    read_rows(alloc, &MarkKind, bytes)
}

/// Reads a table of caps, with the columns `paper`, `reviewer` and `cap`, of at most 250,000 records.
pub fn read_caps(alloc: Global, bytes: &[u8]) -> Result<Vec<CapRow>, ImportFault>
    ensures { Imports result (rows_of_file cap_row cap_columns MOST_PAIR_ROWS bytes.now) }
{
    read_rows(alloc, &CapKind, bytes)
}
