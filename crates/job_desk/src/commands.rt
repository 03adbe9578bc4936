// Commands of chairs: a new one is carried out, and a repeated one has its reply.

ghost use Rattle.std.specs.Prelude.{◌≡◌, ◌≤◌, ℕ, List, IsErrOf, IsSome, None, true};
ghost use Rattle.edge_io.specs.Counts.{Rose};
ghost use Rattle.desk_keeper.specs.Keepers.{Tells};
ghost use Rattle.desk_keeper.specs.Names.{is_chair_name};
ghost use Rattle.desk_history.specs.declared.refusals.TheConstants.{MOST_ROW_BYTES};
ghost use Rattle.desk_history.specs.Courses.{AreKept, Does, history_of};
ghost use Rattle.desk_history.specs.Histories.{kept};
ghost use Rattle.desk_history.specs.Opened.{IsLegal};
ghost use Rattle.desk_history.specs.Rows.{rows};
ghost use Rattle.desk_history.specs.Steps.{MayCommand, command_step, new_step};
ghost use Rattle.command_index.specs.Maps.{place_at};
ghost use Rattle.command_index.specs.Places.{IsIndexOf};

use crate::draws::draw;
use crate::edits::edit;
use crate::publishes::publish;
use crate::submits::submit;
use command_index::{CommandIndex, CommandPlace, index_laws, repeated};
use desk_history::{Answered, Entry, Refusal, Tables};
use desk_keeper::{Command, Keeper, Name, Named};
use std::alloc::Global;

// A command of a chair whose number is new.
fn new_command<P: Keeper>(
    alloc: Global,
    keeper: &mut P,
    entries: &mut Vec<Entry>,
    tables: &mut Tables,
    named: Named,
) -> Result<Answered, Refusal>
    requires caller { is_chair_name named.caller ≡ true }
    requires may { MayCommand named.command }
    requires legal { (chairs : List (List ℕ)) × IsLegal chairs (history_of entries.old) }
    requires kept { AreKept entries.old tables.old }
    requires bytes { tables.old.bytes ≤ MOST_ROW_BYTES }
    requires told { Tells (P.rows keeper.old) (rows (history_of entries.old)) }
    ensures step { Does (new_step (history_of entries.old) named) (history_of entries.old) result (history_of entries.new) }
    ensures kept { AreKept entries.new tables.new }
    ensures told { Tells (P.rows keeper.new) (rows (history_of entries.new)) }
    ensures untold { IsSome (P.rows keeper.new) → IsSome (P.rows keeper.old) }
    ensures later { P.faults keeper.old ≤ P.faults keeper.new }
    ensures fault { IsErrOf result Refusal.KeeperFault → Rose (P.faults keeper.old) (P.faults keeper.new) }
{
    let Named {
        caller,
        number,
        command,
    } = named;
    match command {
        Command::Edit { base, edit: words } => edit(
            alloc, keeper, entries, tables, caller, number, base, words,
        ),
        Command::Submit { base, mode } => submit(
            alloc, keeper, entries, tables, caller, number, base, mode,
        ),
        Command::Publish { job } => publish(alloc, keeper, entries, tables, caller, number, job),
        Command::Draw { publication, text } => draw(
            alloc,
            keeper,
            entries,
            tables,
            caller,
            number,
            publication,
            text,
        ),
    }
}

// A command of a chair whose number is new. Its place is put into the index before anything else, and taken out where it isn't accepted,
// so that all memory is taken before its row is kept.
fn indexed_command<P: Keeper>(
    alloc: Global,
    keeper: &mut P,
    index: &mut CommandIndex,
    entries: &mut Vec<Entry>,
    tables: &mut Tables,
    named: Named,
) -> Result<Answered, Refusal>
    requires new { kept (history_of entries.old) named.caller named.number ≡ None }
    requires caller { is_chair_name named.caller ≡ true }
    requires may { MayCommand named.command }
    requires legal { (chairs : List (List ℕ)) × IsLegal chairs (history_of entries.old) }
    requires kept { AreKept entries.old tables.old }
    requires indexed { IsIndexOf (history_of entries.old) (place_at index.old) }
    requires bytes { tables.old.bytes ≤ MOST_ROW_BYTES }
    requires told { Tells (P.rows keeper.old) (rows (history_of entries.old)) }
    ensures step { Does (new_step (history_of entries.old) named) (history_of entries.old) result (history_of entries.new) }
    ensures kept { AreKept entries.new tables.new }
    ensures indexed { IsIndexOf (history_of entries.new) (place_at index.new) }
    ensures told { Tells (P.rows keeper.new) (rows (history_of entries.new)) }
    ensures untold { IsSome (P.rows keeper.new) → IsSome (P.rows keeper.old) }
    ensures later { P.faults keeper.old ≤ P.faults keeper.new }
    ensures fault { IsErrOf result Refusal.KeeperFault → Rose (P.faults keeper.old) (P.faults keeper.new) }
{
    index_laws();
    let caller = match Name::read(alloc, named.caller.as_str()) {
        Ok(caller) => caller,
        Err(_) => return Err(Refusal::Memory),
    };
    let number = named.number;
    let place = CommandPlace {
        entry: entries.len() as u64,
        command: tables.commands,
    };
    match index.add(&caller, number, place) {
        Ok(()) => {}
        Err(_) => return Err(Refusal::Memory),
    }
    match new_command(alloc, keeper, entries, tables, named) {
        Ok(answer) => Ok(answer),
        Err(refusal) => {
            index.remove(&caller, number);
            Err(refusal)
        }
    }
}

/// A command of a chair: the same as an accepted one of its number has the reply of that one, and another one is refused;
/// one whose number is new is carried out.
pub fn command<P: Keeper>(
    alloc: Global,
    keeper: &mut P,
    index: &mut CommandIndex,
    entries: &mut Vec<Entry>,
    tables: &mut Tables,
    named: Named,
) -> Result<Answered, Refusal>
    requires caller { is_chair_name named.caller ≡ true }
    requires may { MayCommand named.command }
    requires legal { (chairs : List (List ℕ)) × IsLegal chairs (history_of entries.old) }
    requires kept { AreKept entries.old tables.old }
    requires indexed { IsIndexOf (history_of entries.old) (place_at index.old) }
    requires bytes { tables.old.bytes ≤ MOST_ROW_BYTES }
    requires told { Tells (P.rows keeper.old) (rows (history_of entries.old)) }
    ensures step { Does (command_step (history_of entries.old) named) (history_of entries.old) result (history_of entries.new) }
    ensures kept { AreKept entries.new tables.new }
    ensures indexed { IsIndexOf (history_of entries.new) (place_at index.new) }
    ensures told { Tells (P.rows keeper.new) (rows (history_of entries.new)) }
    ensures untold { IsSome (P.rows keeper.new) → IsSome (P.rows keeper.old) }
    ensures later { P.faults keeper.old ≤ P.faults keeper.new }
    ensures fault { IsErrOf result Refusal.KeeperFault → Rose (P.faults keeper.old) (P.faults keeper.new) }
{
    match repeated(index, entries, &named) {
        Some(answer) => answer,
        None => indexed_command(alloc, keeper, index, entries, tables, named),
    }
}
