// Publishes: the lottery of a job becomes a publication.

ghost use Rattle.std.specs.Prelude.{◌≡◌, ◌≤◌, ◌<◌, ◌+◌, ℕ, List, IfOk, IsErrOf, IsSome, OnOk, true, vec_capacity, vec_len};
ghost use Rattle.edge_io.specs.Counts.{Rose};
ghost use Rattle.desk_keeper.specs.Keepers.{Tells};
ghost use Rattle.desk_keeper.specs.Names.{is_chair_name};
ghost use Rattle.desk_keeper.specs.declared.words.Command.TheVariants.{Publish};
ghost use Rattle.desk_history.specs.declared.refusals.TheConstants.{MOST_ROW_BYTES};
ghost use Rattle.desk_history.specs.Courses.{AreKept, Does, history_of};
ghost use Rattle.desk_history.specs.Opened.{IsLegal};
ghost use Rattle.desk_history.specs.Rows.{named, rows};
ghost use Rattle.desk_history.specs.Steps.{new_step};
ghost use Rattle.job_desk.specs.Keeping.{AnswersCommand, HasRoom};

use crate::keeping::append;
use crate::rows_of_commands::row_of_publish;
use desk_history::{Answered, Entry, Refusal, Tables, note_publish, reserve};
use desk_keeper::{Command, Keeper, Name, Named};
use std::alloc::Global;

// What a publish needs before it is kept: its row, and room. Or why it is refused.
fn prepare(
    alloc: Global,
    entries: &mut Vec<Entry>,
    tables: &mut Tables,
    named: &Named,
    job: u64,
) -> Result<Vec<u8>, Refusal>
    requires command { named.now.command ≡ Publish job }
    requires caller { is_chair_name named.now.caller ≡ true }
    requires legal { (chairs : List (List ℕ)) × IsLegal chairs (history_of entries.old) }
    requires kept { AreKept entries.old tables.old }
    requires bytes { tables.old.bytes ≤ MOST_ROW_BYTES }
    ensures row { AnswersCommand (history_of entries.old) named.now result }
    ensures room { IfOk result (HasRoom tables.new.commands tables.new.bytes) }
    ensures place { OnOk result (vec_len entries.new + 17 ≤ vec_capacity entries.new) }
    ensures publication { OnOk result (vec_len tables.new.publications < vec_capacity tables.new.publications) }
    ensures same { entries.new.items ≡ entries.old.items }
    ensures kept { AreKept entries.new tables.new }
{
    let row = match row_of_publish(alloc, entries, tables, named, job) {
        Ok(row) => row,
        Err(refusal) => return Err(refusal),
    };
    match reserve(entries) {
        Ok(()) => {}
        Err(_) => return Err(Refusal::Memory),
    }
    match tables.reserve_publication() {
        Ok(()) => Ok(row),
        Err(_) => Err(Refusal::Memory),
    }
}

/// A publish of a chair whose number is new: it is kept as a row behind those of the history, with the text of the job's
/// lottery, and makes a publication; or it is refused, and all is as it was. All memory is taken before the row is kept.
/// In a legal history the lottery is certified, so it can be written.
pub fn publish<P: Keeper>(
    alloc: Global,
    keeper: &mut P,
    entries: &mut Vec<Entry>,
    tables: &mut Tables,
    caller: Name,
    number: u64,
    job: u64,
) -> Result<Answered, Refusal>
    requires caller { is_chair_name caller ≡ true }
    requires legal { (chairs : List (List ℕ)) × IsLegal chairs (history_of entries.old) }
    requires kept { AreKept entries.old tables.old }
    requires bytes { tables.old.bytes ≤ MOST_ROW_BYTES }
    requires told { Tells (P.rows keeper.old) (rows (history_of entries.old)) }
    ensures step { Does (new_step (history_of entries.old) (named caller number (Publish job))) (history_of entries.old) result (history_of entries.new) }
    ensures kept { AreKept entries.new tables.new }
    ensures told { Tells (P.rows keeper.new) (rows (history_of entries.new)) }
    ensures untold { IsSome (P.rows keeper.new) → IsSome (P.rows keeper.old) }
    ensures later { P.faults keeper.old ≤ P.faults keeper.new }
    ensures fault { IsErrOf result Refusal.KeeperFault → Rose (P.faults keeper.old) (P.faults keeper.new) }
{
    let named = Named {
        caller,
        number,
        command: Command::Publish { job },
    };
    let row = match prepare(alloc, entries, tables, &named, job) {
        Ok(row) => row,
        Err(refusal) => return Err(refusal),
    };
    match append(alloc, keeper, tables.commands, row.as_slice()) {
        Ok(()) => {}
        Err(refusal) => return Err(refusal),
    }
    let publication = tables.publications.len() as u64 + 1;
    note_publish(
        entries,
        tables,
        named.caller,
        number,
        job,
        None,
        row.len() as u64,
    );
    Ok(Answered::Published { publication })
}
