//! A desk with its keeper, and what its benches were given.

ghost use Rattle.std.specs.Prelude.{◌≡◌, ◌<◌, [], IfOk, IfSome};
ghost use Rattle.desk_history.specs.declared.refusals.TheConstants.{BENCHES};
ghost use Rattle.desk_history.specs.Courses.{Does};
ghost use Rattle.desk_history.specs.Laws.{IsAtWork};
ghost use Rattle.desk_history.specs.Steps.{MayAsk, step};
ghost use Rattle.desk_laws.specs.Reopened.{AreNames};
ghost use Rattle.desk_cases.specs.Rooms.{IfTaken};

use crate::replies::print_reply;
use crate::rows::rows_of;
use crate::solving::solved;
use desk_history::{Answered, Refusal, Request, Snapshot, Work};
use desk_keeper::{MemoryKeeper, Name};
use desk_reopening::OpenFault;
use job_desk::Desk;
use std::alloc::{AllocError, Global};
use std::marker::Model;

/// What a bench was given with its job.
#[derive(Drop)]
pub(crate) struct Given {
    pub bench: u32,
    pub snapshot: Snapshot,
}

/// A desk over a keeper in memory that has its rows. What each bench was given is kept until it lets its job go. Contracts see
/// the desk.
#[derive(Drop)]
pub(crate) struct Room {
    desk: Desk,
    keeper: MemoryKeeper,
    given: Vec<Given>,
}

impl Model for Room {
    ghost use Rattle.job_desk.specs.Desks.{DeskValue};
    ghost use Rattle.desk_cases.specs.Rooms.{IsRoom};

    ghost Value = { DeskValue };

    ghost view = { λ r. r.desk };

    ghost invariant = { λ r. IsRoom r.desk r.keeper r.given };
}

impl Room {
    /// A new desk of these chairs, over a keeper without rows of which listed calls fail.
    pub(crate) fn new(alloc: Global, chairs: Vec<Name>, fails: Vec<u64>) -> Result<Room, AllocError>
        requires { AreNames chairs.items }
    {
        let desk = Desk::new(alloc, chairs)?;
        let keeper = MemoryKeeper::new(Vec::new(alloc), fails);
        let given = Vec::new(alloc);
        Ok(Room {
            desk,
            keeper,
            given,
        })
    }

    /// The desk.
    pub(crate) fn desk(&self) -> &Desk
        ensures { result.now ≡ self.now }
    {
        &self.desk
    }

    /// What the desk answers.
    pub(crate) fn answer(&mut self, request: Request) -> Result<Answered, Refusal>
        requires { MayAsk self.old.history request }
        ensures { Does (step self.old.chairs self.old.history request) self.old.history result self.new.history }
    {
        self.desk.answer(&mut self.keeper, request)
    }

    /// A copy of the rows of the keeper.
    pub(crate) fn rows(&mut self, alloc: Global) -> anyhow::Result<Vec<Vec<u8>>> {
        rows_of(alloc, &mut self.keeper)
    }

    /// The desk is opened again from its rows, with empty benches; it stays as it was where that fails.
    pub(crate) fn reopen(&mut self, alloc: Global, chairs: Vec<Name>) -> Result<(), OpenFault>
        requires { AreNames chairs.items }
    {
        let desk = match Desk::reopen(alloc, &mut self.keeper, chairs) {
            Ok(desk) => desk,
            Err(fault) => return Err(fault),
        };
        self.desk = desk;
        self.given = Vec::new(alloc);
        Ok(())
    }

    // What a bench was given, which it has no more.
    fn given_to(&mut self, bench: u32) -> Option<Snapshot>
        ensures same { self.new ≡ self.old }
        ensures work { IfSome result (IsAtWork self.old.history) }
    {
        let place = self.given.iter().position(|its| its.bench == bench)?;
        let Given { snapshot, .. } = self.given.remove(place);
        Some(snapshot)
    }

    // Notes what a bench was given.
    fn note(&mut self, bench: u32, snapshot: Snapshot) -> Result<(), AllocError>
        requires { IsAtWork self.old.history snapshot }
    {
        self.given.push(Given { bench, snapshot })?;
        Ok(())
    }

    // Notes what a bench was given, if it was.
    fn note_taken(&mut self, bench: u32, reply: Result<Answered, Refusal>) -> Result<(), AllocError>
        requires { IfTaken (IsAtWork self.old.history) reply }
    {
        match reply {
            Ok(answered) => match answered {
                Answered::Taken(snapshot) => self.note(bench, snapshot),
                _ => Ok(()),
            },
            Err(_) => Ok(()),
        }
    }

    /// A bench takes a job.
    pub(crate) fn take(&mut self, rt: &HostRuntime, bench: u32) -> anyhow::Result<()>
        requires { bench < BENCHES }
    {
        let reply = self.answer(Request::Take { bench });
        print_reply(rt, &reply)?;
        self.note_taken(bench, reply)?;
        Ok(())
    }

    /// A bench hands in what its job came to. Without a job it hands in that memory was wanting for job 0, which no bench has.
    pub(crate) fn solve(&mut self, rt: &HostRuntime, bench: u32) -> anyhow::Result<()>
        requires { bench < BENCHES }
    {
        let (job, work) = match self.given_to(bench) {
            Some(given) => (given.job, solved(rt.alloc(), given)),
            None => (0, Work::OutOfMemory),
        };
        let reply = self.answer(Request::Finish { bench, job, work });
        print_reply(rt, &reply)
    }

    /// A bench hands in that memory was wanting; without a job, for job 0.
    pub(crate) fn give_up(&mut self, rt: &HostRuntime, bench: u32) -> anyhow::Result<()>
        requires { bench < BENCHES }
    {
        let job = match self.given_to(bench) {
            Some(given) => given.job,
            None => 0,
        };
        let work = Work::OutOfMemory;
        let reply = self.answer(Request::Finish { bench, job, work });
        print_reply(rt, &reply)
    }

    /// A bench lets its job go.
    pub(crate) fn release(&mut self, rt: &HostRuntime, bench: u32) -> anyhow::Result<()>
        requires { bench < BENCHES }
    {
        let _given = self.given_to(bench);
        let reply = self.answer(Request::Release { bench });
        print_reply(rt, &reply)
    }
}
