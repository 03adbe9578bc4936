// Edits: new editions.

ghost use Rattle.std.specs.Prelude.{◌≡◌, ◌≤◌, ◌<◌, ◌+◌, ◌∷◌, [], IfOk, IsErrOf, IsSome, None, OnOk, length, true, vec_capacity, vec_len};
ghost use Rattle.edge_io.specs.Counts.{Rose};
ghost use Rattle.desk_keeper.specs.Keepers.{Tells};
ghost use Rattle.desk_keeper.specs.Names.{is_chair_name};
ghost use Rattle.desk_keeper.specs.Rows.{MayKeep, are_edit_words};
ghost use Rattle.desk_keeper.specs.declared.words.Command.TheVariants.{Edit};
ghost use Rattle.desk_history.specs.declared.refusals.TheConstants.{MOST_COMMANDS, MOST_ROW_BYTES};
ghost use Rattle.desk_history.specs.Courses.{AreKept, Does, history_of};
ghost use Rattle.desk_history.specs.Histories.{History, edits};
ghost use Rattle.desk_history.specs.Refusals.{own_refusal};
ghost use Rattle.desk_history.specs.Rows.{lottery_of, named, row_behind, rows};
ghost use Rattle.desk_history.specs.Steps.{accepted, new_step};
ghost use Rattle.job_desk.specs.Keeping.{AnswersCommand, HasRoom, IsEditTo};

use crate::keeping::{append, note_accepted};
use crate::rows_of_commands::row_of_accepted;
use desk_history::{Answered, Done, Entry, Refusal, Tables, make_edition, reserve};
use desk_keeper::{Command, EditWords, Keeper, Name, Named};
use editions::Edited;
use std::alloc::Global;

// An edit to this edition is accepted, whose row has so many bytes. Gives the number of the edition.
fn note_edit(
    entries: &mut Vec<Entry>,
    tables: &mut Tables,
    named: Named,
    edited: Edited,
    more: u64,
) -> u64
    requires command { IsEditTo (history_of entries.old) named.command edited }
    requires kept { AreKept entries.old tables.old }
    requires room { vec_len entries.old + 17 ≤ vec_capacity entries.old }
    requires commands { tables.old.commands < MOST_COMMANDS }
    requires bytes { tables.old.bytes + more ≤ MOST_ROW_BYTES }
    requires more { more ≡ length (row_behind (history_of entries.old) named None) }
    ensures entry { history_of entries.new ≡ accepted (history_of entries.old) named None ∷ history_of entries.old }
    ensures kept { AreKept entries.new tables.new }
    ensures edition { result ≡ edits (history_of entries.old) + 1 }
{
    let edition = tables.edits + 1;
    let Edited { venue, rules } = edited;
    tables.note_edit(venue, rules, more);
    note_accepted(entries, named, Done::Edited { edition });
    edition
}

// What an edit that makes an edition needs before it is kept: its row, and room. Or why it is refused.
fn prepare(
    alloc: Global,
    entries: &mut Vec<Entry>,
    tables: &Tables,
    named: &Named,
) -> Result<Vec<u8>, Refusal>
    requires accepted { own_refusal (history_of entries.old) named.now.command None ≡ None }
    requires plain { (H : History) → lottery_of H named.now.command None ≡ [] }
    requires may { MayKeep named.now [] }
    requires kept { AreKept entries.old tables.now }
    requires bytes { tables.now.bytes ≤ MOST_ROW_BYTES }
    ensures row { AnswersCommand (history_of entries.old) named.now result }
    ensures room { IfOk result (HasRoom tables.now.commands tables.now.bytes) }
    ensures place { OnOk result (vec_len entries.new + 17 ≤ vec_capacity entries.new) }
    ensures same { entries.new.items ≡ entries.old.items }
    ensures kept { AreKept entries.new tables.now }
{
    let row = match row_of_accepted(alloc, tables, named) {
        Ok(row) => row,
        Err(refusal) => return Err(refusal),
    };
    match reserve(entries) {
        Ok(()) => Ok(row),
        Err(_) => Err(Refusal::Memory),
    }
}

/// An edit of a chair whose number is new: it is kept as a row behind those of the history, and makes an edition, by which
/// jobs that are waiting or taken become stale; or it is refused, and all is as it was. All memory is taken before the row
/// is kept.
pub fn edit<P: Keeper>(
    alloc: Global,
    keeper: &mut P,
    entries: &mut Vec<Entry>,
    tables: &mut Tables,
    caller: Name,
    number: u64,
    base: u64,
    words: EditWords,
) -> Result<Answered, Refusal>
    requires caller { is_chair_name caller ≡ true }
    requires words { are_edit_words words.table words.how ≡ true }
    requires kept { AreKept entries.old tables.old }
    requires bytes { tables.old.bytes ≤ MOST_ROW_BYTES }
    requires told { Tells (P.rows keeper.old) (rows (history_of entries.old)) }
    ensures step { Does (new_step (history_of entries.old) (named caller number (Edit base words))) (history_of entries.old) result (history_of entries.new) }
    ensures kept { AreKept entries.new tables.new }
    ensures told { Tells (P.rows keeper.new) (rows (history_of entries.new)) }
    ensures untold { IsSome (P.rows keeper.new) → IsSome (P.rows keeper.old) }
    ensures later { P.faults keeper.old ≤ P.faults keeper.new }
    ensures fault { IsErrOf result Refusal.KeeperFault → Rose (P.faults keeper.old) (P.faults keeper.new) }
{
    let edited = match make_edition(alloc, &tables.venue, tables.edits, base, &words) {
        Ok(edited) => edited,
        Err(refusal) => return Err(refusal),
    };
    let named = Named {
        caller,
        number,
        command: Command::Edit { base, edit: words },
    };
    let row = match prepare(alloc, entries, tables, &named) {
        Ok(row) => row,
        Err(refusal) => return Err(refusal),
    };
    match append(alloc, keeper, tables.commands, row.as_slice()) {
        Ok(()) => {}
        Err(refusal) => return Err(refusal),
    }
    let edition = note_edit(entries, tables, named, edited, row.len() as u64);
    Ok(Answered::Edited { edition })
}
