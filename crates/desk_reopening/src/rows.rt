// Rows that are replayed, one after the other.

ghost use Rattle.std.specs.Prelude.{◌≡◌, ◌<◌, ◌≤◌, ◌+◌, ◌==◌, ◌&&◌, ◌||◌, ℕ, List, IfOk, OnOk, bytes_eq, length, vec_capacity, vec_len};
ghost use Rattle.desk_history.specs.declared.refusals.TheConstants.{MOST_COMMANDS, MOST_ROW_BYTES};
ghost use Rattle.desk_history.specs.Courses.{AreKept, history_of};
ghost use Rattle.desk_history.specs.Histories.{History};
ghost use Rattle.desk_history.specs.Opened.{Replays};
ghost use Rattle.desk_history.specs.Tables.{AreTables};
ghost use Rattle.desk_reopening.specs.Numbers.{AreNumbersOf, is_used};
ghost use Rattle.desk_reopening.specs.Replaying.{Finds, IsNewRow, IsRowOf, Leads};

use crate::commands::replay_command;
use crate::faults::ReplayFault;
use crate::numbers::Numbers;
use desk_history::{Entry, Tables, full_refusal, reserve};
use desk_keeper::{Kept, RowFault, decode};
use std::alloc::Global;

// The command of a row.
fn command_of(alloc: Global, row: &[u8]) -> Result<Kept, ReplayFault>
    ensures { Finds (IsRowOf row.now) result }
{
    match decode(alloc, row) {
        Ok(kept) => Ok(kept),
        Err(RowFault::BadRow) => Err(ReplayFault::Damaged),
        Err(RowFault::Memory) => Err(ReplayFault::Memory),
    }
}

// The command of a row, whose number is new and is noted; there is room for it.
fn new_command(
    alloc: Global,
    tables: &Tables,
    numbers: &mut Numbers,
    row: &[u8],
) -> Result<Kept, ReplayFault>
    requires bytes { tables.now.bytes ≤ MOST_ROW_BYTES }
    ensures found { (H : History) → AreTables H tables.now → AreNumbersOf H numbers.old → Finds (λ kept. IsNewRow H row.now kept.named kept.lottery) result }
    ensures commands { OnOk result (tables.now.commands < MOST_COMMANDS) }
    ensures room { OnOk result (tables.now.bytes + length row.now ≤ MOST_ROW_BYTES) }
    ensures numbers { IfOk result (λ kept. (by : List ℕ) (its : ℕ) → is_used numbers.new by its ≡ (bytes_eq kept.named.caller by && kept.named.number == its || is_used numbers.old by its)) }
{
    let kept = match command_of(alloc, row) {
        Ok(kept) => kept,
        Err(fault) => return Err(fault),
    };
    if full_refusal(tables.commands, tables.bytes + row.len() as u64).is_some() {
        return Err(ReplayFault::Damaged);
    }
    let added = match numbers.add(alloc, &kept.named.caller, kept.named.number) {
        Ok(added) => added,
        Err(_) => return Err(ReplayFault::Memory),
    };
    if added {
        Ok(kept)
    } else {
        Err(ReplayFault::Damaged)
    }
}

/// A row is replayed behind a history; or it is damaged.
pub fn replay_row(
    alloc: Global,
    entries: &mut Vec<Entry>,
    tables: &mut Tables,
    numbers: &mut Numbers,
    row: &[u8],
) -> Result<(), ReplayFault>
    requires kept { AreKept entries.old tables.old }
    requires numbers { AreNumbersOf (history_of entries.old) numbers.old }
    requires bytes { tables.old.bytes ≤ MOST_ROW_BYTES }
    ensures replay { Leads (Replays (history_of entries.old) row.now) result (history_of entries.new) }
    ensures kept { OnOk result (AreKept entries.new tables.new) }
    ensures numbers { OnOk result (AreNumbersOf (history_of entries.new) numbers.new) }
{
    let kept = match new_command(alloc, tables, numbers, row) {
        Ok(kept) => kept,
        Err(fault) => return Err(fault),
    };
    match reserve(entries) {
        Ok(()) => {}
        Err(_) => return Err(ReplayFault::Memory),
    }
    replay_command(alloc, entries, tables, kept, row.len() as u64)
}
