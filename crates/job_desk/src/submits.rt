// Submits: new jobs.

ghost use Rattle.std.specs.Prelude.{◌≡◌, ◌≤◌, IfOk, IsErrOf, IsSome, OnOk, true};
ghost use Rattle.edge_io.specs.Counts.{Rose};
ghost use Rattle.desk_keeper.specs.Keepers.{Tells};
ghost use Rattle.desk_keeper.specs.Names.{is_chair_name};
ghost use Rattle.desk_keeper.specs.declared.words.Command.TheVariants.{Submit};
ghost use Rattle.desk_history.specs.declared.refusals.TheConstants.{MOST_ROW_BYTES};
ghost use Rattle.desk_history.specs.Courses.{AreKept, Does, history_of};
ghost use Rattle.desk_history.specs.Rows.{named, rows};
ghost use Rattle.desk_history.specs.Steps.{new_step};
ghost use Rattle.job_desk.specs.Keeping.{AnswersCommand, HasPlace, HasRoom};

use crate::keeping::append;
use crate::rows_of_commands::row_of_submit;
use desk_history::{Answered, Entry, Refusal, Tables, note_submit, reserve};
use desk_keeper::{Command, Keeper, Name, Named};
use match_rules::Mode;
use std::alloc::Global;

// What a submit needs before it is kept: its row, and room. Or why it is refused.
fn prepare(
    alloc: Global,
    entries: &mut Vec<Entry>,
    tables: &mut Tables,
    named: &Named,
    base: u64,
    mode: Mode,
) -> Result<Vec<u8>, Refusal>
    requires command { named.now.command ≡ Submit base mode }
    requires caller { is_chair_name named.now.caller ≡ true }
    requires kept { AreKept entries.old tables.old }
    requires bytes { tables.old.bytes ≤ MOST_ROW_BYTES }
    ensures row { AnswersCommand (history_of entries.old) named.now result }
    ensures room { IfOk result (HasRoom tables.new.commands tables.new.bytes) }
    ensures place { OnOk result (HasPlace entries.new tables.new) }
    ensures same { entries.new.items ≡ entries.old.items }
    ensures kept { AreKept entries.new tables.new }
{
    let row = match row_of_submit(alloc, tables, named, base, mode) {
        Ok(row) => row,
        Err(refusal) => return Err(refusal),
    };
    match reserve(entries) {
        Ok(()) => {}
        Err(_) => return Err(Refusal::Memory),
    }
    match tables.reserve_job() {
        Ok(()) => Ok(row),
        Err(_) => Err(Refusal::Memory),
    }
}

/// A submit of a chair whose number is new: it is kept as a row behind those of the history, and makes a job; or it is
/// refused, and all is as it was. All memory is taken before the row is kept.
pub fn submit<P: Keeper>(
    alloc: Global,
    keeper: &mut P,
    entries: &mut Vec<Entry>,
    tables: &mut Tables,
    caller: Name,
    number: u64,
    base: u64,
    mode: Mode,
) -> Result<Answered, Refusal>
    requires caller { is_chair_name caller ≡ true }
    requires kept { AreKept entries.old tables.old }
    requires bytes { tables.old.bytes ≤ MOST_ROW_BYTES }
    requires told { Tells (P.rows keeper.old) (rows (history_of entries.old)) }
    ensures step { Does (new_step (history_of entries.old) (named caller number (Submit base mode))) (history_of entries.old) result (history_of entries.new) }
    ensures kept { AreKept entries.new tables.new }
    ensures told { Tells (P.rows keeper.new) (rows (history_of entries.new)) }
    ensures untold { IsSome (P.rows keeper.new) → IsSome (P.rows keeper.old) }
    ensures later { P.faults keeper.old ≤ P.faults keeper.new }
    ensures fault { IsErrOf result Refusal.KeeperFault → Rose (P.faults keeper.old) (P.faults keeper.new) }
{
    let named = Named {
        caller,
        number,
        command: Command::Submit { base, mode },
    };
    let row = match prepare(alloc, entries, tables, &named, base, mode) {
        Ok(row) => row,
        Err(refusal) => return Err(refusal),
    };
    match append(alloc, keeper, tables.commands, row.as_slice()) {
        Ok(()) => {}
        Err(refusal) => return Err(refusal),
    }
    let job = tables.jobs.len() as u64 + 1;
    note_submit(
        entries,
        tables,
        named.caller,
        number,
        base,
        mode,
        row.len() as u64,
    );
    Ok(Answered::Submitted { job })
}
