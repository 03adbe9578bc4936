//! The case that is being read.

ghost use Rattle.std.specs.Prelude.{◌<◌, IfOk};
ghost use Rattle.desk_history.specs.declared.refusals.TheConstants.{BENCHES};
ghost use Rattle.desk_laws.specs.Reopened.{AreNames};

use crate::commands::{look_of, named_of};
use crate::outcomes::print_outcome;
use crate::parts::cut;
use crate::replies::{print_piece, print_reply};
use crate::rooms::Room;
use crate::rows::{check_rows, print_rows, spoil};
use anyhow::bail;
use desk_history::{Answered, BENCHES, Look, Request};
use desk_keeper::{MemoryKeeper, Name, is_chair_name};
use desk_reopening::OpenFault;
use job_desk::{Desk, Drawn};
use std::alloc::Global;
use std::mem;

/// The desk that was opened last, and the calls of the next one's keeper that fail.
#[derive(Drop)]
pub(crate) struct Cases {
    room: Room,
    chairs: String,
    failing: Vec<u64>,
}

fn chairs_of(alloc: Global, names: &str) -> anyhow::Result<Vec<Name>>
    ensures { IfOk result (λ chairs. AreNames chairs.items) }
{
    let mut chairs = Vec::new(alloc);
    for name in names.split_whitespace() {
        if !is_chair_name(name) {
            bail!("{name} is no name of a chair");
        }
        chairs.push(Name::read(alloc, name)?)?;
    }
    Ok(chairs)
}

fn bench_of(word: &str) -> anyhow::Result<u32>
    ensures { IfOk result (λ bench. bench < BENCHES) }
{
    let bench = word.parse::<u32>()?;
    if bench >= BENCHES {
        bail!("{word} is no bench");
    }
    Ok(bench)
}

fn print_opened<T: Drop>(rt: &HostRuntime, opened: Result<T, OpenFault>) -> anyhow::Result<()> {
    match opened {
        Ok(_) => println!(rt; "opened")?,
        Err(OpenFault::Damaged { row }) => println!(rt; "damaged row {row}")?,
        Err(OpenFault::Keeper) => println!(rt; "the keeper failed")?,
        Err(OpenFault::Memory) => bail!("memory was wanting"),
    }
    Ok(())
}

fn print_outcome_of(rt: &HostRuntime, desk: &Desk, job: u64) -> anyhow::Result<()> {
    match desk.outcome(job) {
        Some(outcome) => print_outcome(rt, outcome),
        None => {
            println!(rt; "no job")?;
            Ok(())
        }
    }
}

fn print_drawn(rt: &HostRuntime, desk: &Desk, publication: u64) -> anyhow::Result<()> {
    match desk.drawn(publication) {
        Some(Drawn { piece, ticket, .. }) => {
            print!(rt; "ticket {ticket} ")?;
            print_piece(rt, piece)
        }
        None => {
            println!(rt; "nothing drawn")?;
            Ok(())
        }
    }
}

fn print_let_go(rt: &HostRuntime, desk: &Desk, rest: &str) -> anyhow::Result<()> {
    let (bench, from) = cut(rest);
    match desk.let_go(bench_of(bench)?, from.parse::<u64>()?) {
        Some(place) => println!(rt; "let go at {place}")?,
        None => println!(rt; "not let go")?,
    }
    Ok(())
}

impl Cases {
    /// A desk without chairs.
    pub(crate) fn new(alloc: Global) -> anyhow::Result<Cases> {
        Ok(Cases {
            room: Room::new(alloc, Vec::new(alloc), Vec::new(alloc))?,
            chairs: String::new(alloc),
            failing: Vec::new(alloc),
        })
    }

    fn open(&mut self, alloc: Global, names: &str) -> anyhow::Result<()> {
        let failing = mem::replace(&mut self.failing, Vec::new(alloc));
        self.room = Room::new(alloc, chairs_of(alloc, names)?, failing)?;
        self.chairs = String::from_str(alloc, names)?;
        Ok(())
    }

    fn reopen(&mut self, rt: &HostRuntime) -> anyhow::Result<()> {
        let chairs = chairs_of(rt.alloc(), self.chairs.as_str())?;
        print_opened(rt, self.room.reopen(rt.alloc(), chairs))
    }

    // Opens a desk from a copy of the rows, of which one is spoiled.
    fn spoil(&mut self, rt: &HostRuntime, rest: &str) -> anyhow::Result<()> {
        let alloc = rt.alloc();
        let chairs = chairs_of(alloc, self.chairs.as_str())?;
        let mut rows = self.room.rows(alloc)?;
        spoil(alloc, &mut rows, rest)?;
        let mut keeper = MemoryKeeper::new(rows, Vec::new(alloc));
        print_opened(rt, Desk::reopen(alloc, &mut keeper, chairs))
    }

    fn look(&mut self, rt: &HostRuntime, rest: &str) -> anyhow::Result<()> {
        let (caller, rest) = cut(rest);
        let what = look_of(rest)?;
        let caller = Name::read(rt.alloc(), caller)?;
        print_reply(rt, &self.room.answer(Request::Look { caller, what }))
    }

    fn check_rows(&mut self, rt: &HostRuntime) -> anyhow::Result<()> {
        let alloc = rt.alloc();
        let rows = self.room.rows(alloc)?;
        let (caller, _) = cut(self.chairs.as_str());
        let caller = Name::read(alloc, caller)?;
        let what = Look::Rules;
        match self.room.answer(Request::Look { caller, what }) {
            Ok(Answered::Rules(rules)) => check_rows(rt, &rules, rows.as_slice()),
            _ => bail!("the present rules were not shown"),
        }
    }

    fn command(&mut self, rt: &HostRuntime, word: &str, rest: &str) -> anyhow::Result<()> {
        let named = named_of(rt.alloc(), word, rest)?;
        print_reply(rt, &self.room.answer(Request::Do(named)))
    }

    // What the desk and the keeper say of themselves, and commands.
    fn tell(&mut self, rt: &HostRuntime, word: &str, rest: &str) -> anyhow::Result<()> {
        let desk = self.room.desk();
        match word {
            "now" => println!(rt; "now {}", desk.now())?,
            "outcome" => print_outcome_of(rt, desk, rest.parse::<u64>()?)?,
            "entries" => println!(rt; "entries {}", desk.entries())?,
            "let-go" => print_let_go(rt, desk, rest)?,
            "publications" => println!(rt; "publications {}", desk.publications())?,
            "drawn" => print_drawn(rt, desk, rest.parse::<u64>()?)?,
            "rows" => {
                let rows = self.room.rows(rt.alloc())?;
                print_rows(rt, rows.as_slice())?;
            }
            "check-rows" => self.check_rows(rt)?,
            _ => self.command(rt, word, rest)?,
        }
        Ok(())
    }

    /// Does what a line says.
    pub(crate) fn take_line(&mut self, rt: &HostRuntime, line: &str) -> anyhow::Result<()> {
        let (word, rest) = cut(line);
        match word {
            "case" => println!(rt; "case {rest}")?,
            "fail" => self.failing.push(rest.parse::<u64>()?)?,
            "chairs" => self.open(rt.alloc(), rest)?,
            "look" => self.look(rt, rest)?,
            "take" => self.room.take(rt, bench_of(rest)?)?,
            "solve" => self.room.solve(rt, bench_of(rest)?)?,
            "out-of-memory" => self.room.give_up(rt, bench_of(rest)?)?,
            "release" => self.room.release(rt, bench_of(rest)?)?,
            "reopen" => self.reopen(rt)?,
            "spoil" => self.spoil(rt, rest)?,
            _ => self.tell(rt, word, rest)?,
        }
        Ok(())
    }
}
