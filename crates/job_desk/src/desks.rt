// The desk.

ghost use Rattle.std.specs.Prelude.{◌≡◌, ◌≤◌, ◌<◌, ◌^◌, [], ℕ, List, None, IfErr, IfOk, IsErrOf, IsSome, OnOk, length};
ghost use Rattle.std.specs.Option.{option_map};
ghost use Rattle.edge_io.specs.Counts.{Rose};
ghost use Rattle.desk_keeper.specs.Keepers.{Tells, told_rows};
ghost use Rattle.desk_history.specs.declared.refusals.TheConstants.{BENCHES, MOST_ROW_BYTES};
ghost use Rattle.desk_history.specs.Courses.{AreKept, Does, history_of};
ghost use Rattle.desk_history.specs.Histories.{History, edits, held, nth_of, outcome, publications};
ghost use Rattle.desk_history.specs.Opened.{IsDamaged, IsLegal, Opens};
ghost use Rattle.desk_history.specs.Rows.{rows};
ghost use Rattle.desk_history.specs.Steps.{MayAsk, step};
ghost use Rattle.desk_laws.specs.Best.{EachBest};
ghost use Rattle.desk_laws.specs.Evidence.{EachPublished};
ghost use Rattle.desk_laws.specs.Reopened.{AreNames};
ghost use Rattle.desk_reopening.specs.Editions.{EditionsMakeRules};
ghost use Rattle.desk_reopening.specs.Reading.{NamesDamage, SameRows};
ghost use Rattle.job_desk.specs.Desks.{IsEnd, let_go};
ghost use Rattle.job_desk.specs.Drawing.{drawn_of, value_of};

use crate::asking::ask;
use crate::drawing::{Drawn, drawn_of};
use crate::letting_go::let_go;
use crate::looks;
use command_index::{CommandIndex, index_of};
use desk_history::{Answered, Entry, Outcome, Refusal, Request, Tables};
use desk_keeper::{Keeper, Name};
use desk_laws::evidence_laws;
use desk_reopening::{OpenFault, Reopened, edition_laws, reopen};
use std::alloc::{AllocError, Global};
use std::marker::Model;

/// The desk of a conference. Contracts see the names of its chairs, which stay, and its history, which is legal.
#[derive(Drop)]
pub struct Desk {
    alloc: Global,
    chairs: Vec<Name>,
    index: CommandIndex,
    entries: Vec<Entry>,
    tables: Tables,
}

impl Model for Desk {
    ghost use Rattle.desk_history.specs.Courses.{history_of};
    ghost use Rattle.job_desk.specs.Desks.{DeskValue, IsIndexedDesk};

    ghost Value = { DeskValue };

    ghost view = { λ d. record { chairs = d.chairs.items; history = history_of d.entries } };

    ghost invariant = { λ d. IsIndexedDesk d.chairs.items d.index d.entries d.tables };
}

impl Desk {
    /// A new desk of these chairs, with nothing done.
    pub fn new(alloc: Global, chairs: Vec<Name>) -> Result<Desk, AllocError>
        requires { AreNames chairs.items }
        ensures { IfOk result (λ desk. desk ≡ record { chairs = chairs.items; history = [] }) }
    {
        let tables = Tables::empty(alloc)?;
        edition_laws(&tables);
        let entries = Vec::new(alloc);
        let index = CommandIndex::new(alloc);
        Ok(Desk {
            alloc,
            chairs,
            index,
            entries,
            tables,
        })
    }

    // The desk of these chairs that has done what was read again, or memory is wanting.
    fn of_reopened(alloc: Global, chairs: Vec<Name>, reopened: Reopened) -> Result<Desk, AllocError>
        requires names { AreNames chairs.items }
        requires legal { IsLegal chairs.items (history_of reopened.entries) }
        requires kept { AreKept reopened.entries reopened.tables }
        requires bytes { reopened.tables.bytes ≤ MOST_ROW_BYTES }
        requires editions { EditionsMakeRules (history_of reopened.entries) }
        ensures { IfOk result (λ desk. desk ≡ record { chairs = chairs.items; history = history_of reopened.entries }) }
    {
        let index = index_of(alloc, &reopened.entries)?;
        let Reopened { entries, tables } = reopened;
        Ok(Desk {
            alloc,
            chairs,
            index,
            entries,
            tables,
        })
    }

    /// The desk of these chairs that a keeper's rows open, read from place 0 until there is none. Each row is replayed by the
    /// rules that hold for a new command; its caller isn't looked up among the chairs, so that a chair who left doesn't spoil
    /// the rows. Benches are empty; a job that was not published is waiting, or stale where an edit came later. A kept lottery
    /// is trusted in nothing: it is checked again.
    pub fn reopen<P: Keeper>(
        alloc: Global,
        keeper: &mut P,
        chairs: Vec<Name>,
    ) -> Result<Desk, OpenFault>
        requires { AreNames chairs.items }
        ensures chairs { IfOk result (λ desk. desk.chairs ≡ chairs.items) }

        // The history is what the rows open, where the keeper tells them, and it is legal in any case.
        ensures opened { IsSome (P.rows keeper.new) → IfOk result (λ desk. Opens (told_rows (P.rows keeper.new)) desk.history) }
        ensures told { IfOk result (λ desk. Tells (P.rows keeper.new) (rows desk.history)) }
        ensures legal { IfOk result (λ desk. IsLegal desk.chairs desk.history) }
        ensures published { IfOk result (λ desk. EachPublished desk.history) }
        ensures best { IfOk result (λ desk. EachBest desk.history) }
        ensures benches { IfOk result (λ desk. (bench : ℕ) → held desk.history bench ≡ None) }

        // Damage names the first row from which no history follows, and an opened desk says that there is no such row.
        ensures damaged { IsSome (P.rows keeper.new) → IfErr result (NamesDamage (told_rows (P.rows keeper.new))) }
        ensures sound { IsSome (P.rows keeper.new) → OnOk result ((place : ℕ) → ¬ (IsDamaged (told_rows (P.rows keeper.new)) place)) }
        ensures only { IsSome (P.rows keeper.new) → IfOk result (λ desk. (H : History) → Opens (told_rows (P.rows keeper.new)) H → H ≡ desk.history) }

        // No row changes, and the keeper's fault has its cause.
        ensures same { SameRows (P.rows keeper.old) (P.rows keeper.new) }
        ensures later { P.faults keeper.old ≤ P.faults keeper.new }
        ensures fault { IsErrOf result OpenFault.Keeper → Rose (P.faults keeper.old) (P.faults keeper.new) }
    {
        evidence_laws();
        let reopened = match reopen(alloc, keeper) {
            Ok(reopened) => reopened,
            Err(fault) => return Err(fault),
        };
        match Desk::of_reopened(alloc, chairs, reopened) {
            Ok(desk) => Ok(desk),
            Err(_) => Err(OpenFault::Memory),
        }
    }

    /// What the desk answers to a request. A command that is accepted is kept as one row more. A refusal, want of memory and
    /// a keeper's fault leave the desk and the rows as they were.
    pub fn answer<P: Keeper>(
        &mut self,
        keeper: &mut P,
        request: Request,
    ) -> Result<Answered, Refusal>
        requires told { Tells (P.rows keeper.old) (rows self.old.history) }
        requires may { MayAsk self.old.history request }
        ensures step { Does (step self.old.chairs self.old.history request) self.old.history result self.new.history }
        ensures chairs { self.new.chairs ≡ self.old.chairs }
        ensures told { Tells (P.rows keeper.new) (rows self.new.history) }
        ensures untold { IsSome (P.rows keeper.new) → IsSome (P.rows keeper.old) }
        ensures later { P.faults keeper.old ≤ P.faults keeper.new }
        ensures fault { IsErrOf result Refusal.KeeperFault → Rose (P.faults keeper.old) (P.faults keeper.new) }
        ensures ends { IsEnd request → ¬ (IsErrOf result Refusal.Memory) }
        ensures published { EachPublished self.new.history }
        ensures best { EachBest self.new.history }
    {
        evidence_laws();
        let answered = ask(
            self.alloc,
            keeper,
            &self.chairs,
            &mut self.index,
            &mut self.entries,
            &mut self.tables,
            request,
        );
        edition_laws(&self.tables);
        answered
    }

    /// The number of the present edition. Takes no memory.
    pub fn now(&self) -> u64
        ensures { result ≡ edits self.now.history }
    {
        looks::now(&self.tables)
    }

    /// What a job came to; `None` where there is no such job. Takes no memory.
    pub fn outcome(&self, job: u64) -> Option<Outcome>
        ensures { result ≡ outcome self.now.history job }
    {
        looks::outcome_of(&self.tables, job)
    }

    /// The number of entries of the history, which is legal, and each publication of it is of a best lottery. Takes no
    /// memory.
    pub fn entries(&self) -> u64
        ensures count { result ≡ length self.now.history }
        ensures few { result < 2 ^ 63 }
        ensures legal { IsLegal self.now.chairs self.now.history }
        ensures best { EachBest self.now.history }
    {
        evidence_laws();
        self.entries.len() as u64
    }

    /// The least place in the history, from this one on, at which the bench lets go of its job, done or not. Places count from
    /// 0, in the order of time. Takes no memory.
    pub fn let_go(&self, bench: u32, from: u64) -> Option<u64>
        requires { bench < BENCHES }
        ensures { result ≡ let_go self.now.history bench from }
    {
        let_go(&self.entries, bench, from)
    }

    /// The number of publications. Takes no memory.
    pub fn publications(&self) -> u64
        ensures { result ≡ length (publications self.now.history) }
    {
        looks::publications(&self.tables)
    }

    /// What the publication of a number has drawn; `None` where there is no such publication, and before its draw. Takes no
    /// memory.
    pub fn drawn(&self, publication: u64) -> Option<Drawn<'_>>
        ensures { option_map value_of result ≡ drawn_of self.now.history (nth_of (publications self.now.history) publication) }
    {
        drawn_of(&self.entries, &self.tables, publication)
    }
}
