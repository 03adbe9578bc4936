// Tables after a body: its rows are read, and put into the table or, for a replace, into an empty one.

ghost use Rattle.table_edits.specs.Bodies.{Makes, start_of, values_start, bids_start, papers_after, reviewers_after, values_after, bids_after, marks_after, caps_after};

use crate::edit::How;
use crate::puts::{
    BidTarget, CapTarget, MarkTarget, PaperTarget, ReviewerTarget, ValueTarget, put_body,
};
use crate::starts::{start_of_bids, start_of_pairs, start_of_rows, start_of_values};
use bid_import::{
    FileKind, ImportFault, Settings, read_bids, read_caps, read_marks, read_papers, read_reviewers,
    read_values,
};
use roster::{Papers, Reviewers};
use score_spec::{PairTable, Scores, Value};
use std::alloc::Global;

/// The papers after a body, or the row at fault.
pub fn papers_after(
    alloc: Global,
    how: How,
    table: Papers,
    body: &[u8],
) -> Result<Papers, ImportFault>
    ensures { Makes result (papers_after (start_of how table) body.now) }
{
    let start = start_of_rows(alloc, how, table);
    let rows = read_papers(alloc, body)?;
    put_body(alloc, &PaperTarget, FileKind::Papers, start, rows, body)
}

/// The reviewers after a body, or the row at fault.
pub fn reviewers_after(
    alloc: Global,
    how: How,
    table: Reviewers,
    body: &[u8],
) -> Result<Reviewers, ImportFault>
    ensures { Makes result (reviewers_after (start_of how table) body.now) }
{
    let start = start_of_rows(alloc, how, table);
    let rows = read_reviewers(alloc, body)?;
    put_body(
        alloc,
        &ReviewerTarget,
        FileKind::Reviewers,
        start,
        rows,
        body,
    )
}

/// The scores after a body of values of a source, or the row at fault.
pub fn values_after(
    alloc: Global,
    how: How,
    source: &str,
    scores: Scores,
    body: &[u8],
) -> Result<Scores, ImportFault>
    ensures { Makes result (values_after source.now (values_start how source.now scores) body.now) }
{
    let start = start_of_values(how, source, scores);
    let rows = read_values(alloc, body)?;
    put_body(
        alloc,
        &ValueTarget { source },
        FileKind::Values,
        start,
        rows,
        body,
    )
}

/// The scores after a body of bids, whose words are those of the settings, or the row at fault.
pub fn bids_after(
    alloc: Global,
    how: How,
    settings: &Settings,
    scores: Scores,
    body: &[u8],
) -> Result<Scores, ImportFault>
    ensures { Makes result (bids_after settings.now (bids_start how scores) body.now) }
{
    let start = start_of_bids(how, scores);
    let rows = read_bids(alloc, body, settings.spec())?;
    put_body(alloc, &BidTarget, FileKind::Bids, start, rows, body)
}

/// The marks after a body, or the row at fault.
pub fn marks_after(
    alloc: Global,
    how: How,
    table: PairTable<i32>,
    body: &[u8],
) -> Result<PairTable<i32>, ImportFault>
    ensures { Makes result (marks_after (start_of how table) body.now) }
{
    let start = start_of_pairs(alloc, how, table);
    let rows = read_marks(alloc, body)?;
    put_body(alloc, &MarkTarget, FileKind::Marks, start, rows, body)
}

/// The caps after a body, or the row at fault.
pub fn caps_after(
    alloc: Global,
    how: How,
    table: PairTable<Value>,
    body: &[u8],
) -> Result<PairTable<Value>, ImportFault>
    ensures { Makes result (caps_after (start_of how table) body.now) }
{
    let start = start_of_pairs(alloc, how, table);
    let rows = read_caps(alloc, body)?;
    put_body(alloc, &CapTarget, FileKind::Caps, start, rows, body)
}
