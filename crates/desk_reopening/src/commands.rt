// Commands that are read back: each is accepted by the rules that hold for a new one.

ghost use Rattle.std.specs.Prelude.{◌≡◌, ◌<◌, ◌≤◌, ◌+◌, [], MatchResult, OnOk, length, true, vec_capacity, vec_len};
ghost use Rattle.desk_keeper.specs.Rows.{MayKeep, are_edit_words, row_of};
ghost use Rattle.desk_keeper.specs.declared.words.Command.TheVariants.{Draw, Edit, Publish, Submit};
ghost use Rattle.desk_history.specs.declared.refusals.TheConstants.{MOST_COMMANDS, MOST_ROW_BYTES};
ghost use Rattle.desk_history.specs.Courses.{AreKept, history_of};
ghost use Rattle.desk_history.specs.Histories.{put};
ghost use Rattle.desk_history.specs.Refusals.{MakesEdition, edit_refusal};
ghost use Rattle.desk_history.specs.Rows.{named};
ghost use Rattle.desk_reopening.specs.Replaying.{IsFault, Leads, TakesUp};

use crate::faults::{ReplayFault, fault_of};
use crate::publishes::read_publish;
use desk_history::{
    Entry, Tables, base_refusal, draw_refusal, make_edition, note_draw, note_edit, note_publish,
    note_submit, nth,
};
use desk_keeper::{Bytes, Command, EditWords, Kept, Name, Named};
use editions::Edited;
use match_rules::Mode;
use std::alloc::Global;

// The edition that an edit makes.
fn make_edited(
    alloc: Global,
    tables: &Tables,
    base: u64,
    edit: &EditWords,
) -> Result<Edited, ReplayFault>
    requires { are_edit_words edit.now.table edit.now.how ≡ true }
    ensures { MatchResult result (MakesEdition tables.now.edits base (put tables.now.venue edit.now)) (IsFault (edit_refusal tables.now.edits base (put tables.now.venue edit.now))) }
{
    match make_edition(alloc, &tables.venue, tables.edits, base, edit) {
        Ok(edited) => Ok(edited),
        Err(refusal) => Err(fault_of(&refusal)),
    }
}

fn replay_edit(
    alloc: Global,
    entries: &mut Vec<Entry>,
    tables: &mut Tables,
    caller: Name,
    number: u64,
    base: u64,
    edit: EditWords,
    more: u64,
) -> Result<(), ReplayFault>
    requires words { are_edit_words edit.table edit.how ≡ true }
    requires kept { AreKept entries.old tables.old }
    requires room { vec_len entries.old + 17 ≤ vec_capacity entries.old }
    requires commands { tables.old.commands < MOST_COMMANDS }
    requires bytes { tables.old.bytes + more ≤ MOST_ROW_BYTES }
    requires more { more ≡ length (row_of (named caller number (Edit base edit)) []) }
    ensures replay { Leads (TakesUp (history_of entries.old) (named caller number (Edit base edit)) []) result (history_of entries.new) }
    ensures kept { OnOk result (AreKept entries.new tables.new) }
{
    let edited = match make_edited(alloc, tables, base, &edit) {
        Ok(edited) => edited,
        Err(fault) => return Err(fault),
    };
    note_edit(entries, tables, caller, number, base, edit, edited, more);
    Ok(())
}

fn replay_submit(
    entries: &mut Vec<Entry>,
    tables: &mut Tables,
    caller: Name,
    number: u64,
    base: u64,
    mode: Mode,
    more: u64,
) -> Result<(), ReplayFault>
    requires kept { AreKept entries.old tables.old }
    requires room { vec_len entries.old + 17 ≤ vec_capacity entries.old }
    requires commands { tables.old.commands < MOST_COMMANDS }
    requires bytes { tables.old.bytes + more ≤ MOST_ROW_BYTES }
    requires more { more ≡ length (row_of (named caller number (Submit base mode)) []) }
    ensures replay { Leads (TakesUp (history_of entries.old) (named caller number (Submit base mode)) []) result (history_of entries.new) }
    ensures kept { OnOk result (AreKept entries.new tables.new) }
{
    if base_refusal(tables.edits, base).is_some() {
        return Err(ReplayFault::Damaged);
    }
    match tables.reserve_job() {
        Ok(()) => {}
        Err(_) => return Err(ReplayFault::Memory),
    }
    note_submit(entries, tables, caller, number, base, mode, more);
    Ok(())
}

fn replay_publish(
    alloc: Global,
    entries: &mut Vec<Entry>,
    tables: &mut Tables,
    caller: Name,
    number: u64,
    job: u64,
    text: &[u8],
    more: u64,
) -> Result<(), ReplayFault>
    requires kept { AreKept entries.old tables.old }
    requires room { vec_len entries.old + 17 ≤ vec_capacity entries.old }
    requires commands { tables.old.commands < MOST_COMMANDS }
    requires bytes { tables.old.bytes + more ≤ MOST_ROW_BYTES }
    requires more { more ≡ length (row_of (named caller number (Publish job)) text.now) }
    ensures replay { Leads (TakesUp (history_of entries.old) (named caller number (Publish job)) text.now) result (history_of entries.new) }
    ensures kept { OnOk result (AreKept entries.new tables.new) }
{
    let read = match read_publish(alloc, tables, job, text) {
        Ok(read) => read,
        Err(fault) => return Err(fault),
    };
    match tables.reserve_publication() {
        Ok(()) => {}
        Err(_) => return Err(ReplayFault::Memory),
    }
    note_publish(entries, tables, caller, number, job, read, more);
    Ok(())
}

fn replay_draw(
    entries: &mut Vec<Entry>,
    tables: &mut Tables,
    caller: Name,
    number: u64,
    publication: u64,
    text: Bytes,
    more: u64,
) -> Result<(), ReplayFault>
    requires kept { AreKept entries.old tables.old }
    requires room { vec_len entries.old + 17 ≤ vec_capacity entries.old }
    requires commands { tables.old.commands < MOST_COMMANDS }
    requires bytes { tables.old.bytes + more ≤ MOST_ROW_BYTES }
    requires more { more ≡ length (row_of (named caller number (Draw publication text)) []) }
    ensures replay { Leads (TakesUp (history_of entries.old) (named caller number (Draw publication text)) []) result (history_of entries.new) }
    ensures kept { OnOk result (AreKept entries.new tables.new) }
{
    if draw_refusal(nth(tables.publications.as_slice(), publication)).is_some() {
        return Err(ReplayFault::Damaged);
    }
    note_draw(entries, tables, caller, number, publication, text, more);
    Ok(())
}

/// A command that was read back is accepted with what is read from its text, and its row has so many bytes; or the row is
/// damaged. There has to be room for an entry and for the ends of all benches.
pub fn replay_command(
    alloc: Global,
    entries: &mut Vec<Entry>,
    tables: &mut Tables,
    kept: Kept,
    more: u64,
) -> Result<(), ReplayFault>
    requires may { MayKeep kept.named kept.lottery }
    requires kept { AreKept entries.old tables.old }
    requires room { vec_len entries.old + 17 ≤ vec_capacity entries.old }
    requires commands { tables.old.commands < MOST_COMMANDS }
    requires bytes { tables.old.bytes + more ≤ MOST_ROW_BYTES }
    requires more { more ≡ length (row_of kept.named kept.lottery) }
    ensures replay { Leads (TakesUp (history_of entries.old) kept.named kept.lottery) result (history_of entries.new) }
    ensures kept { OnOk result (AreKept entries.new tables.new) }
{
    let Kept { named, lottery } = kept;
    let Named {
        caller,
        number,
        command,
    } = named;
    match command {
        Command::Edit { base, edit } => {
            replay_edit(alloc, entries, tables, caller, number, base, edit, more)
        }
        Command::Submit { base, mode } => {
            replay_submit(entries, tables, caller, number, base, mode, more)
        }
        Command::Publish { job } => {
            let text = lottery.as_slice();
            replay_publish(alloc, entries, tables, caller, number, job, text, more)
        }
        Command::Draw { publication, text } => {
            replay_draw(entries, tables, caller, number, publication, text, more)
        }
    }
}
