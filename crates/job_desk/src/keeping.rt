// Rows of commands, and their keeping.

ghost use Rattle.std.specs.Prelude.{◌≡◌, ◌≤◌, ◌<◌, ◌+◌, ◌∷◌, ℕ, List, IfErr, IfOk, IsErrOf, IsSome, None, vec_capacity, vec_len};
ghost use Rattle.edge_io.specs.Counts.{Rose};
ghost use Rattle.desk_keeper.specs.Keepers.{IsNext, Tells};
ghost use Rattle.desk_keeper.specs.Rows.{MayKeep, row_of};
ghost use Rattle.desk_history.specs.declared.entries.Entry.TheVariants.{Accepted};
ghost use Rattle.desk_history.specs.declared.refusals.TheConstants.{MOST_ROW_BYTES};
ghost use Rattle.desk_history.specs.Courses.{history_of};
ghost use Rattle.job_desk.specs.Keeping.{AnswersRow, HasRoom, IsKeeping, rows_after};

use desk_history::{Done, Entry, Refusal, full_refusal, push};
use desk_keeper::{KeepFault, Keeper, Named, encode};
use std::alloc::Global;

/// The row of a command, for which there is room behind so many commands with so many bytes of rows.
pub fn row_for(
    alloc: Global,
    commands: u64,
    bytes: u64,
    named: &Named,
    lottery: &[u8],
) -> Result<Vec<u8>, Refusal>
    requires kept { MayKeep named.now lottery.now }
    requires bytes { bytes ≤ MOST_ROW_BYTES }
    ensures row { AnswersRow commands bytes (row_of named.now lottery.now) result }
    ensures room { IfOk result (HasRoom commands bytes) }
{
    let row = match encode(alloc, named, lottery) {
        Ok(row) => row,
        Err(_) => return Err(Refusal::Memory),
    };
    match full_refusal(commands, bytes + row.len() as u64) {
        Some(refusal) => Err(refusal),
        None => Ok(row),
    }
}

/// Keeps a row behind those that there are.
pub fn append<P: Keeper>(
    alloc: Global,
    keeper: &mut P,
    place: u64,
    row: &[u8],
) -> Result<(), Refusal>
    requires { IsNext (P.rows keeper.old) place }
    ensures rows { (kept : List (List ℕ)) → Tells (P.rows keeper.old) kept → Tells (P.rows keeper.new) (rows_after result kept row.now) }
    ensures untold { IsSome (P.rows keeper.new) → IsSome (P.rows keeper.old) }
    ensures cause { IfErr result IsKeeping }
    ensures later { P.faults keeper.old ≤ P.faults keeper.new }
    ensures fault { IsErrOf result Refusal.KeeperFault → Rose (P.faults keeper.old) (P.faults keeper.new) }
{
    match keeper.append(alloc, place, row) {
        Ok(()) => Ok(()),
        Err(KeepFault::Failed) => Err(Refusal::KeeperFault),
        Err(KeepFault::Memory) => Err(Refusal::Memory),
    }
}

/// A new command is accepted, with this reply; there has to be room for its entry.
pub fn note_accepted(entries: &mut Vec<Entry>, named: Named, reply: Done)
    requires { vec_len entries.old < vec_capacity entries.old }
    ensures entry { history_of entries.new ≡ Accepted named.caller named.number named.command reply None ∷ history_of entries.old }
    ensures len { vec_len entries.new ≡ vec_len entries.old + 1 }
    ensures capacity { vec_capacity entries.old ≤ vec_capacity entries.new }
{
    let Named {
        caller,
        number,
        command,
    } = named;
    push(
        entries,
        Entry::Accepted {
            caller,
            number,
            command,
            reply,
            read: None,
        },
    );
}
