// The edition that an edit makes.

ghost use Rattle.std.specs.Prelude.{◌≡◌, IfOk};
ghost use Rattle.std.specs.Prelude.{true};
ghost use Rattle.desk_keeper.specs.Rows.{are_edit_words};
ghost use Rattle.desk_history.specs.Histories.{how_of, put, table_of};
ghost use Rattle.desk_history.specs.Refusals.{AnswersEdit};

use crate::reasons::base_refusal;
use crate::refusals::Refusal;
use desk_keeper::{EditWords, HowWords, TableWords};
use editions::{Body, Edit, EditFault, Edited, How, TableName, Venue};
use score_spec::Text;
use std::alloc::{AllocError, Global};

fn how_of(how: HowWords) -> How
    ensures { result ≡ how_of how }
{
    match how {
        HowWords::Merge => How::Merge,
        HowWords::Replace => How::Replace,
    }
}

fn table_of(alloc: Global, table: &TableWords) -> Result<TableName, AllocError>
    ensures { IfOk result (λ name. name ≡ table_of table.now) }
{
    match table {
        TableWords::Settings => Ok(TableName::Settings),
        TableWords::Papers => Ok(TableName::Papers),
        TableWords::Reviewers => Ok(TableName::Reviewers),
        TableWords::Values { source } => {
            let source = Text::read(alloc, source.as_str())?;
            Ok(TableName::Values { source })
        }
        TableWords::Bids => Ok(TableName::Bids),
        TableWords::Marks => Ok(TableName::Marks),
        TableWords::Caps => Ok(TableName::Caps),
    }
}

// The edit that words say; its body is copied.
fn edit_of(alloc: Global, words: &EditWords) -> Result<Edit, AllocError>
    ensures { IfOk result (λ edit. edit ≡ record { table = table_of words.now.table; how = how_of words.now.how; body = words.now.body }) }
{
    let table = table_of(alloc, &words.table)?;
    let body = Vec::from_slice(alloc, words.body.as_slice())?;
    Ok(Edit {
        table,
        how: how_of(words.how),
        body: Body::from_vec(body),
    })
}

// The venue after an edit, with its rules, or why there is none.
fn edited(
    alloc: Global,
    venue: &Venue,
    now: u64,
    base: u64,
    words: &EditWords,
) -> Result<Edited, Refusal>
    requires words { are_edit_words words.now.table words.now.how ≡ true }
    requires base { base ≡ now }
    ensures { AnswersEdit now base (put venue.now words.now) result }
{
    let edit = match edit_of(alloc, words) {
        Ok(edit) => edit,
        Err(_) => return Err(Refusal::Memory),
    };
    match venue.next(alloc, &edit) {
        Ok(edited) => Ok(edited),
        Err(EditFault::Memory) => Err(Refusal::Memory),
        Err(EditFault::Import { row, code }) => Err(Refusal::Import { row, code }),
        Err(EditFault::Limit(fault)) => Err(Refusal::Limit(fault)),
    }
}

/// The edition that an edit makes of a venue, where its base is the number of the present one; or why it is refused.
pub fn make_edition(
    alloc: Global,
    venue: &Venue,
    now: u64,
    base: u64,
    words: &EditWords,
) -> Result<Edited, Refusal>
    requires { are_edit_words words.now.table words.now.how ≡ true }
    ensures { AnswersEdit now base (put venue.now words.now) result }
{
    match base_refusal(now, base) {
        Some(refusal) => Err(refusal),
        None => edited(alloc, venue, now, base, words),
    }
}
