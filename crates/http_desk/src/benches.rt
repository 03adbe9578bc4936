// What is asked of a desk with one bench, and the replies.

ghost use Rattle.std.specs.Prelude.{◌≡◌, ◌≤◌, IfOk, IsErrOf, IsSome, Result};
ghost use Rattle.edge_io.specs.Counts.{Rose};
ghost use Rattle.desk_keeper.specs.Keepers.{Tells};
ghost use Rattle.desk_history.specs.Courses.{Does};
ghost use Rattle.desk_history.specs.Rows.{rows};
ghost use Rattle.desk_history.specs.Steps.{MayAsk, step};
ghost use Rattle.desk_replies.specs.Accepted.{ShowsRight};
ghost use Rattle.desk_replies.specs.Replies.{reply_of};
ghost use Rattle.desk_routes.specs.Served.{IsServed};
ghost use Rattle.desk_routes.specs.declared.places.Asked.TheVariants as asked;
ghost use Rattle.desk_routes.specs.declared.places.Routes.TheVariants.{ChairsAndWorker};
ghost use Rattle.desk_history.specs.declared.refusals.Refusal.{Refusal};
ghost use Rattle.desk_history.specs.declared.replies.Answered.{Answered};
ghost use Rattle.job_desk.specs.Desks.{IsEnd};
ghost use Rattle.http_desk.specs.Given.{IsGiven, given_after};
ghost use Rattle.http_desk.specs.Hosts.{Replies};
ghost use Rattle.http_desk.specs.Sessions.{Serves, SessionValue};

use crate::looks::look_of;
use crate::worker::handed_in;
use desk_history::{Answered, Refusal, Request, Snapshot};
use desk_keeper::Keeper;
use desk_laws::evidence_laws;
use desk_replies::reply_of;
use desk_routes::Asked;
use http_messages::Reply;
use http_stream::HandleFault;
use job_desk::Desk;
use std::alloc::Global;

// The bench of a session.
const BENCH: u32 = 0;

// Asks the desk. What it shows of rules is shown with a right answer.
fn answer<P: Keeper>(desk: &mut Desk, keeper: &mut P, request: Request) -> Result<Answered, Refusal>
    requires told { Tells (P.rows keeper.old) (rows desk.old.history) }
    requires may { MayAsk desk.old.history request }
    ensures step { Does (step desk.old.chairs desk.old.history request) desk.old.history result desk.new.history }
    ensures chairs { desk.new.chairs ≡ desk.old.chairs }
    ensures told { Tells (P.rows keeper.new) (rows desk.new.history) }
    ensures untold { IsSome (P.rows keeper.new) → IsSome (P.rows keeper.old) }
    ensures later { P.faults keeper.old ≤ P.faults keeper.new }
    ensures fault { IsErrOf result Refusal.KeeperFault → Rose (P.faults keeper.old) (P.faults keeper.new) }
    ensures ends { IsEnd request → ¬ (IsErrOf result Refusal.Memory) }
    ensures right { IfOk result ShowsRight }
{
    evidence_laws();
    // The history is legal.
    let _entries = desk.entries();
    desk.answer(keeper, request)
}

// The reply to what the desk answered, or memory is wanting for it.
fn reply_to(alloc: Global, answer: &Result<Answered, Refusal>) -> Result<Reply, HandleFault>
    requires { IfOk answer.now ShowsRight }
    ensures { Replies (reply_of answer.now) result }
{
    match reply_of(alloc, answer) {
        Ok(reply) => Ok(reply),
        Err(_) => Err(HandleFault::Memory),
    }
}

// Asks the desk, and replies.
fn reply<P: Keeper>(
    alloc: Global,
    desk: &mut Desk,
    keeper: &mut P,
    request: Request,
) -> (Result<Answered, Refusal>, Result<Reply, HandleFault>)
    requires told { Tells (P.rows keeper.old) (rows desk.old.history) }
    requires may { MayAsk desk.old.history request }
    ensures step { Does (step desk.old.chairs desk.old.history request) desk.old.history result.0 desk.new.history }
    ensures chairs { desk.new.chairs ≡ desk.old.chairs }
    ensures told { Tells (P.rows keeper.new) (rows desk.new.history) }
    ensures untold { IsSome (P.rows keeper.new) → IsSome (P.rows keeper.old) }
    ensures later { P.faults keeper.old ≤ P.faults keeper.new }
    ensures fault { IsErrOf result.0 Refusal.KeeperFault → Rose (P.faults keeper.old) (P.faults keeper.new) }
    ensures ends { IsEnd request → ¬ (IsErrOf result.0 Refusal.Memory) }
    ensures reply { Replies (reply_of result.0) result.1 }
{
    let answer = answer(desk, keeper, request);
    let reply = reply_to(alloc, &answer);
    (answer, reply)
}

// A chair's request.
fn ask_for_chair<P: Keeper>(
    alloc: Global,
    desk: &mut Desk,
    keeper: &mut P,
    request: Request,
) -> Result<Reply, HandleFault>
    requires told { Tells (P.rows keeper.old) (rows desk.old.history) }
    requires may { MayAsk desk.old.history request }
    ensures step { (answer : Result Answered Refusal) × Does (step desk.old.chairs desk.old.history request) desk.old.history answer desk.new.history × Replies (reply_of answer) result × (IsErrOf answer Refusal.KeeperFault → Rose (P.faults keeper.old) (P.faults keeper.new)) }
    ensures chairs { desk.new.chairs ≡ desk.old.chairs }
    ensures told { Tells (P.rows keeper.new) (rows desk.new.history) }
    ensures untold { IsSome (P.rows keeper.new) → IsSome (P.rows keeper.old) }
    ensures later { P.faults keeper.old ≤ P.faults keeper.new }
{
    let (_answer, reply) = reply(alloc, desk, keeper, request);
    reply
}

// Notes what the bench was given, if it was.
fn note_taken(given: &mut Option<Snapshot>, answer: Result<Answered, Refusal>)
    ensures { given.new ≡ given_after given.old answer }
{
    match answer {
        Ok(answered) => match answered {
            Answered::Taken(snapshot) => *given = Some(snapshot),
            _ => (),
        },
        Err(_) => (),
    }
}

// The bench takes a job, and what it was given is kept.
fn take<P: Keeper>(
    alloc: Global,
    desk: &mut Desk,
    keeper: &mut P,
    given: &mut Option<Snapshot>,
) -> Result<Reply, HandleFault>
    requires told { Tells (P.rows keeper.old) (rows desk.old.history) }
    requires given { IsGiven desk.old.history given.old }
    ensures serves { Serves (record { desk = desk.old; faults = P.faults keeper.old }) asked.Take result (record { desk = desk.new; faults = P.faults keeper.new }) }
    ensures told { Tells (P.rows keeper.new) (rows desk.new.history) }
    ensures untold { IsSome (P.rows keeper.new) → IsSome (P.rows keeper.old) }
    ensures given { IsGiven desk.new.history given.new }
{
    let (answer, reply) = reply(alloc, desk, keeper, Request::Take { bench: BENCH });
    note_taken(given, answer);
    reply
}

// The bench hands in what the rules that it was given come to. Without a job it hands in that memory was wanting for job 0, which
// no bench has.
fn finish<P: Keeper>(
    alloc: Global,
    desk: &mut Desk,
    keeper: &mut P,
    given: &mut Option<Snapshot>,
) -> Result<Reply, HandleFault>
    requires told { Tells (P.rows keeper.old) (rows desk.old.history) }
    requires given { IsGiven desk.old.history given.old }
    ensures serves { Serves (record { desk = desk.old; faults = P.faults keeper.old }) asked.Finish result (record { desk = desk.new; faults = P.faults keeper.new }) }
    ensures told { Tells (P.rows keeper.new) (rows desk.new.history) }
    ensures untold { IsSome (P.rows keeper.new) → IsSome (P.rows keeper.old) }
    ensures given { IsGiven desk.new.history given.new }
{
    let (job, work) = handed_in(alloc, given.take());
    let bench = BENCH;
    let (_answer, reply) = reply(alloc, desk, keeper, Request::Finish { bench, job, work });
    reply
}

// The bench lets its job go.
fn release<P: Keeper>(
    alloc: Global,
    desk: &mut Desk,
    keeper: &mut P,
    given: &mut Option<Snapshot>,
) -> Result<Reply, HandleFault>
    requires told { Tells (P.rows keeper.old) (rows desk.old.history) }
    requires given { IsGiven desk.old.history given.old }
    ensures serves { Serves (record { desk = desk.old; faults = P.faults keeper.old }) asked.Release result (record { desk = desk.new; faults = P.faults keeper.new }) }
    ensures told { Tells (P.rows keeper.new) (rows desk.new.history) }
    ensures untold { IsSome (P.rows keeper.new) → IsSome (P.rows keeper.old) }
    ensures given { IsGiven desk.new.history given.new }
{
    *given = None;
    let (_answer, reply) = reply(alloc, desk, keeper, Request::Release { bench: BENCH });
    reply
}

// Asks the desk what is asked.
pub(crate) fn ask<P: Keeper>(
    alloc: Global,
    desk: &mut Desk,
    keeper: &mut P,
    given: &mut Option<Snapshot>,
    asked: Asked,
) -> Result<Reply, HandleFault>
    requires told { Tells (P.rows keeper.old) (rows desk.old.history) }
    requires given { IsGiven desk.old.history given.old }
    requires served { IsServed ChairsAndWorker asked }
    ensures serves { Serves (record { desk = desk.old; faults = P.faults keeper.old }) asked result (record { desk = desk.new; faults = P.faults keeper.new }) }
    ensures told { Tells (P.rows keeper.new) (rows desk.new.history) }
    ensures untold { IsSome (P.rows keeper.new) → IsSome (P.rows keeper.old) }
    ensures given { IsGiven desk.new.history given.new }
{
    match asked {
        Asked::Do(its) => ask_for_chair(alloc, desk, keeper, Request::Do(its)),
        Asked::Look { caller, what } => {
            let what = look_of(what);
            ask_for_chair(alloc, desk, keeper, Request::Look { caller, what })
        }
        Asked::Take => take(alloc, desk, keeper, given),
        Asked::Finish => finish(alloc, desk, keeper, given),
        Asked::Release => release(alloc, desk, keeper, given),
    }
}
