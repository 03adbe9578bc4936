// The replies to requests that the desk refuses.

ghost use Rattle.std.specs.Prelude.{◌≡◌, IfOk};
ghost use Rattle.desk_replies.specs.Built.{members};
ghost use Rattle.desk_replies.specs.Refusals.{limit_word, refusal_members, refusal_word, reply_of_refusal, status_of, with_details, with_limit};

use crate::accepted::object_reply;
use crate::import_faults::with_fault;
use crate::objects::Object;
use desk_history::Refusal;
use http::StatusCode;
use http_messages::Reply;
use std::alloc::{AllocError, Global};
use venue_rules::LimitFault;

#[tactic(auto, unfolding(crate::specs::Refusals::status_of))]
fn status_of(refusal: &Refusal) -> StatusCode
    ensures { result ≡ status_of refusal.now }
{
    match refusal {
        Refusal::UnknownChair => StatusCode::FORBIDDEN,
        Refusal::IdReused { entry: _ } => StatusCode::CONFLICT,
        Refusal::OtherBase { now: _ } => StatusCode::CONFLICT,
        Refusal::Import { row: _, code: _ } => StatusCode::UNPROCESSABLE_ENTITY,
        Refusal::Limit(_) => StatusCode::UNPROCESSABLE_ENTITY,
        Refusal::UnknownJob => StatusCode::NOT_FOUND,
        Refusal::NotDone => StatusCode::CONFLICT,
        Refusal::Stale { now: _ } => StatusCode::CONFLICT,
        Refusal::NotCertified => StatusCode::CONFLICT,
        Refusal::AlreadyPublished { number: _ } => StatusCode::CONFLICT,
        Refusal::UnknownPublication => StatusCode::NOT_FOUND,
        Refusal::AlreadyDrawn { ticket: _ } => StatusCode::CONFLICT,
        Refusal::NoJob => StatusCode::CONFLICT,
        Refusal::BenchFull { job: _ } => StatusCode::CONFLICT,
        Refusal::BenchEmpty => StatusCode::CONFLICT,
        Refusal::BadTicket => StatusCode::UNPROCESSABLE_ENTITY,
        Refusal::HistoryFull {
            commands: _,
            bytes: _,
        } => StatusCode::UNPROCESSABLE_ENTITY,
        Refusal::KeeperFault => StatusCode::SERVICE_UNAVAILABLE,
        Refusal::Memory => StatusCode::INSUFFICIENT_STORAGE,
    }
}

#[tactic(auto, unfolding(crate::specs::Refusals::limit_word))]
fn limit_word(fault: &LimitFault) -> &'static str
    ensures { result.now ≡ limit_word fault.now }
{
    match fault {
        LimitFault::TooMuchDemand { sum: _ } => "too-much-demand",
        LimitFault::LockForbidden {
            paper: _,
            reviewer: _,
        } => "lock-forbidden",
        LimitFault::TooManyPairs { count: _ } => "too-many-pairs",
    }
}

#[tactic(auto, unfolding(crate::specs::Refusals::refusal_word))]
fn refusal_word(refusal: &Refusal) -> &'static str
    ensures { result.now ≡ refusal_word refusal.now }
{
    match refusal {
        Refusal::UnknownChair => "unknown-chair",
        Refusal::IdReused { entry: _ } => "id-reused",
        Refusal::OtherBase { now: _ } => "other-base",
        Refusal::Import { row: _, code: _ } => "import",
        Refusal::Limit(fault) => limit_word(fault),
        Refusal::UnknownJob => "unknown-job",
        Refusal::NotDone => "not-done",
        Refusal::Stale { now: _ } => "stale",
        Refusal::NotCertified => "not-certified",
        Refusal::AlreadyPublished { number: _ } => "already-published",
        Refusal::UnknownPublication => "unknown-publication",
        Refusal::AlreadyDrawn { ticket: _ } => "already-drawn",
        Refusal::NoJob => "no-job",
        Refusal::BenchFull { job: _ } => "bench-full",
        Refusal::BenchEmpty => "bench-empty",
        Refusal::BadTicket => "bad-ticket",
        Refusal::HistoryFull {
            commands: _,
            bytes: _,
        } => "history-full",
        Refusal::KeeperFault => "keeper-fault",
        Refusal::Memory => "memory",
    }
}

// The limit that rules pass, by a number or by the first pair.
fn with_limit(object: Object, fault: &LimitFault) -> Result<Object, AllocError>
    ensures { IfOk result (λ made. members made ≡ with_limit fault.now (members object)) }
{
    match fault {
        LimitFault::TooMuchDemand { sum } => object.with_number("sum", *sum),
        LimitFault::LockForbidden { paper, reviewer } => {
            let object = object.with_text("reviewer", reviewer.text())?;
            object.with_text("paper", paper.text())
        }
        LimitFault::TooManyPairs { count } => object.with_number("count", *count),
    }
}

fn with_room(object: Object, commands: u64, bytes: u64) -> Result<Object, AllocError>
    ensures { IfOk result (λ made. members made ≡ with_details (Refusal.HistoryFull commands bytes) (members object)) }
{
    let object = object.with_number("commands", commands)?;
    object.with_number("bytes", bytes)
}

// What a refusal tells beside its word.
fn with_details(object: Object, refusal: &Refusal) -> Result<Object, AllocError>
    ensures { IfOk result (λ made. members made ≡ with_details refusal.now (members object)) }
{
    match refusal {
        Refusal::IdReused { entry } => object.with_number("entry", *entry),
        Refusal::OtherBase { now } => object.with_number("now", *now),
        Refusal::Import { row, code } => with_fault(object, *row, *code),
        Refusal::Limit(fault) => with_limit(object, fault),
        Refusal::Stale { now } => object.with_number("now", *now),
        Refusal::AlreadyPublished { number } => object.with_number("publication", *number),
        Refusal::AlreadyDrawn { ticket } => object.with_number("ticket", u64::from(*ticket)),
        Refusal::BenchFull { job } => object.with_number("job", *job),
        Refusal::HistoryFull { commands, bytes } => with_room(object, *commands, *bytes),
        _ => Ok(object),
    }
}

/// The reply to a request that the desk refuses, or memory is wanting.
pub fn reply_of_refusal(alloc: Global, refusal: &Refusal) -> Result<Reply, AllocError>
    ensures { IfOk result (λ reply. reply ≡ reply_of_refusal refusal.now) }
{
    let object = with_details(Object::new(alloc), refusal)?;
    let object = object.with_text("refused", refusal_word(refusal))?;
    object_reply(status_of(refusal), object)
}
