// What is asked of the parts of a desk.

ghost use Rattle.std.specs.Prelude.{◌≡◌, ◌≤◌, IsErrOf, IsSome};
ghost use Rattle.edge_io.specs.Counts.{Rose};
ghost use Rattle.desk_keeper.specs.Keepers.{Tells};
ghost use Rattle.desk_history.specs.declared.requests.Request.TheVariants.{Do, Look as Looks};
ghost use Rattle.desk_history.specs.Courses.{AreKept, Does, history_of};
ghost use Rattle.desk_history.specs.Rows.{rows};
ghost use Rattle.desk_history.specs.Steps.{MayAsk, MayCommand, is_chair, step};
ghost use Rattle.job_desk.specs.Desks.{IsDesk, IsEnd};
ghost use Rattle.job_desk.specs.Looking.{IsTold};
ghost use Rattle.command_index.specs.Maps.{place_at};
ghost use Rattle.command_index.specs.Places.{IsIndexOf};

use crate::asked_looks::look;
use crate::commands::command;
use crate::typed::is_typed;
use command_index::CommandIndex;
use desk_history::{Answered, Entry, Look, Refusal, Request, Tables, finish, release, take};
use desk_keeper::{Keeper, Name, Named};
use std::alloc::Global;

// The name is that of a chair.
fn is_chair(chairs: &Vec<Name>, name: &Name) -> bool
    ensures { result ≡ is_chair chairs.now.items name.now }
{
    chairs.iter().any(|chair| chair.as_str() == name.as_str())
}

// A command, which only a chair may give.
fn ask_command<P: Keeper>(
    alloc: Global,
    keeper: &mut P,
    chairs: &Vec<Name>,
    index: &mut CommandIndex,
    entries: &mut Vec<Entry>,
    tables: &mut Tables,
    named: Named,
) -> Result<Answered, Refusal>
    requires may { MayCommand named.command }
    requires desk { IsDesk chairs.now.items entries.old tables.old }
    requires indexed { IsIndexOf (history_of entries.old) (place_at index.old) }
    requires told { Tells (P.rows keeper.old) (rows (history_of entries.old)) }
    ensures step { Does (step chairs.now.items (history_of entries.old) (Do named)) (history_of entries.old) result (history_of entries.new) }
    ensures kept { AreKept entries.new tables.new }
    ensures indexed { IsIndexOf (history_of entries.new) (place_at index.new) }
    ensures told { Tells (P.rows keeper.new) (rows (history_of entries.new)) }
    ensures untold { IsSome (P.rows keeper.new) → IsSome (P.rows keeper.old) }
    ensures later { P.faults keeper.old ≤ P.faults keeper.new }
    ensures fault { IsErrOf result Refusal.KeeperFault → Rose (P.faults keeper.old) (P.faults keeper.new) }
{
    if is_chair(chairs, &named.caller) {
        command(alloc, keeper, index, entries, tables, named)
    } else {
        Err(Refusal::UnknownChair)
    }
}

// A look, which only a chair may take.
fn ask_look(
    alloc: Global,
    chairs: &Vec<Name>,
    entries: &Vec<Entry>,
    tables: &Tables,
    caller: Name,
    what: Look,
) -> Result<Answered, Refusal>
    requires { IsDesk chairs.now.items entries.now tables.now }
    ensures { IsTold (step chairs.now.items (history_of entries.now) (Looks caller what)) result }
{
    if is_chair(chairs, &caller) {
        look(alloc, entries, tables, what)
    } else {
        Err(Refusal::UnknownChair)
    }
}

/// What a desk of these parts answers to a request.
pub fn ask<P: Keeper>(
    alloc: Global,
    keeper: &mut P,
    chairs: &Vec<Name>,
    index: &mut CommandIndex,
    entries: &mut Vec<Entry>,
    tables: &mut Tables,
    request: Request,
) -> Result<Answered, Refusal>
    requires may { MayAsk (history_of entries.old) request }
    requires desk { IsDesk chairs.now.items entries.old tables.old }
    requires indexed { IsIndexOf (history_of entries.old) (place_at index.old) }
    requires told { Tells (P.rows keeper.old) (rows (history_of entries.old)) }
    ensures step { Does (step chairs.now.items (history_of entries.old) request) (history_of entries.old) result (history_of entries.new) }
    ensures desk { IsDesk chairs.now.items entries.new tables.new }
    ensures indexed { IsIndexOf (history_of entries.new) (place_at index.new) }
    ensures told { Tells (P.rows keeper.new) (rows (history_of entries.new)) }
    ensures untold { IsSome (P.rows keeper.new) → IsSome (P.rows keeper.old) }
    ensures later { P.faults keeper.old ≤ P.faults keeper.new }
    ensures fault { IsErrOf result Refusal.KeeperFault → Rose (P.faults keeper.old) (P.faults keeper.new) }
    ensures ends { IsEnd request → ¬ (IsErrOf result Refusal.Memory) }
{
    is_typed(&request);
    match request {
        Request::Do(named) => ask_command(alloc, keeper, chairs, index, entries, tables, named),
        Request::Look { caller, what } => ask_look(alloc, chairs, entries, tables, caller, what),
        Request::Take { bench } => take(alloc, entries, tables, bench),
        Request::Finish { bench, job, work } => finish(entries, tables, bench, job, work),
        Request::Release { bench } => release(entries, tables, bench),
    }
}
