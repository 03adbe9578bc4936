// The rows of new commands, or why they are refused: the first reason in the order of the table.

ghost use Rattle.std.specs.Prelude.{◌≡◌, ◌≤◌, [], ℕ, List, IfOk, None, true};
ghost use Rattle.desk_keeper.specs.Names.{is_chair_name};
ghost use Rattle.desk_keeper.specs.Rows.{MayKeep};
ghost use Rattle.desk_keeper.specs.declared.words.Command.TheVariants.{Draw, Publish, Submit};
ghost use Rattle.desk_history.specs.declared.refusals.TheConstants.{MOST_ROW_BYTES};
ghost use Rattle.desk_history.specs.Courses.{history_of};
ghost use Rattle.desk_history.specs.Histories.{History};
ghost use Rattle.desk_history.specs.Opened.{IsLegal};
ghost use Rattle.desk_history.specs.Refusals.{own_refusal};
ghost use Rattle.desk_history.specs.Rows.{lottery_of};
ghost use Rattle.desk_history.specs.Tables.{AreTables};
ghost use Rattle.job_desk.specs.Keeping.{AnswersCommand, HasRoom};

use crate::keeping::row_for;
use crate::lottery_texts::text_published;
use desk_history::{Entry, Refusal, Tables, base_refusal, draw_refusal, nth, publish_refusal};
use desk_keeper::Named;
use match_rules::Mode;
use std::alloc::Global;

/// The row of a submit, or why it is refused.
pub fn row_of_submit(
    alloc: Global,
    tables: &Tables,
    named: &Named,
    base: u64,
    mode: Mode,
) -> Result<Vec<u8>, Refusal>
    requires command { named.now.command ≡ Submit base mode }
    requires caller { is_chair_name named.now.caller ≡ true }
    requires bytes { tables.now.bytes ≤ MOST_ROW_BYTES }
    ensures row { (H : History) → AreTables H tables.now → AnswersCommand H named.now result }
    ensures room { IfOk result (HasRoom tables.now.commands tables.now.bytes) }
{
    match base_refusal(tables.edits, base) {
        Some(refusal) => Err(refusal),
        None => row_for(alloc, tables.commands, tables.bytes, named, &[]),
    }
}

/// The row of a publish, with the text of the lottery of its job, or why it is refused.
pub fn row_of_publish(
    alloc: Global,
    entries: &Vec<Entry>,
    tables: &Tables,
    named: &Named,
    job: u64,
) -> Result<Vec<u8>, Refusal>
    requires command { named.now.command ≡ Publish job }
    requires caller { is_chair_name named.now.caller ≡ true }
    requires tables { AreTables (history_of entries.now) tables.now }
    requires legal { (chairs : List (List ℕ)) × IsLegal chairs (history_of entries.now) }
    requires bytes { tables.now.bytes ≤ MOST_ROW_BYTES }
    ensures row { AnswersCommand (history_of entries.now) named.now result }
    ensures room { IfOk result (HasRoom tables.now.commands tables.now.bytes) }
{
    match publish_refusal(tables.edits, &None, nth(tables.jobs.as_slice(), job)) {
        Some(refusal) => return Err(refusal),
        None => {}
    }
    let lottery = match text_published(alloc, entries, tables, job) {
        Ok(lottery) => lottery,
        Err(refusal) => return Err(refusal),
    };
    row_for(
        alloc,
        tables.commands,
        tables.bytes,
        named,
        lottery.as_slice(),
    )
}

/// The row of a draw, or why it is refused.
pub fn row_of_draw(
    alloc: Global,
    tables: &Tables,
    named: &Named,
    publication: u64,
) -> Result<Vec<u8>, Refusal>
    requires command { (text : List ℕ) × (named.now.command ≡ Draw publication text) }
    requires caller { is_chair_name named.now.caller ≡ true }
    requires bytes { tables.now.bytes ≤ MOST_ROW_BYTES }
    ensures row { (H : History) → AreTables H tables.now → AnswersCommand H named.now result }
    ensures room { IfOk result (HasRoom tables.now.commands tables.now.bytes) }
{
    match draw_refusal(nth(tables.publications.as_slice(), publication)) {
        Some(refusal) => Err(refusal),
        None => row_for(alloc, tables.commands, tables.bytes, named, &[]),
    }
}

/// The row of a command without a lottery that isn't refused itself; or there is no room for it.
pub fn row_of_accepted(alloc: Global, tables: &Tables, named: &Named) -> Result<Vec<u8>, Refusal>
    requires plain { (H : History) → lottery_of H named.now.command None ≡ [] }
    requires may { MayKeep named.now [] }
    requires bytes { tables.now.bytes ≤ MOST_ROW_BYTES }
    ensures row { (H : History) → AreTables H tables.now → own_refusal H named.now.command None ≡ None → AnswersCommand H named.now result }
    ensures room { IfOk result (HasRoom tables.now.commands tables.now.bytes) }
{
    row_for(alloc, tables.commands, tables.bytes, named, &[])
}
