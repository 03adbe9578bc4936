// The replies to requests that the desk accepts.

ghost use Rattle.std.specs.Prelude.{◌≡◌, IfOk};
ghost use Rattle.match_rules.specs.declared.answer.Mode.{Mode};
ghost use Rattle.publication.specs.Certificates.{certificate_text};
ghost use Rattle.publication.specs.RulesText.{rules_text};
ghost use Rattle.desk_keeper.specs.Rows.{mode_word};
ghost use Rattle.desk_history.specs.Steps.{IsRight};
ghost use Rattle.desk_replies.specs.Built.{members};
ghost use Rattle.desk_replies.specs.Accepted.{ShowsRight, drawn_members, finished_members, job_members, number_members, object_reply, pairs_text, reply_of_answer, taken_members, text_reply};

use crate::certificate_texts::{certificate_text, rules_text};
use crate::objects::Object;
use crate::outcomes::{with_outcome, with_worth};
use crate::pair_texts::pairs_text;
use desk_history::{Answered, Outcome, PairIds};
use http::StatusCode;
use http_messages::{MediaType, Reply};
use match_rules::{Mode, Rules};
use publication::Certificate;
use std::alloc::{AllocError, Global};

/// A reply of this status whose body is an object.
pub fn object_reply(status: StatusCode, object: Object) -> Result<Reply, AllocError>
    ensures { IfOk result (λ reply. reply ≡ object_reply status (members object)) }
{
    let body = object.into_text()?;
    Ok(Reply::new(status, MediaType::Json, body))
}

fn text_reply(text: Vec<u8>) -> Reply
    ensures { result ≡ text_reply text.items }
{
    Reply::new(StatusCode::OK, MediaType::PlainText, text)
}

// An object of one number.
fn number_reply(alloc: Global, key: &str, amount: u64) -> Result<Reply, AllocError>
    ensures { IfOk result (λ reply. reply ≡ object_reply 200 (number_members key.now amount)) }
{
    let object = Object::new(alloc).with_number(key, amount)?;
    object_reply(StatusCode::OK, object)
}

fn drawn_reply(alloc: Global, publication: u64, ticket: u32) -> Result<Reply, AllocError>
    ensures { IfOk result (λ reply. reply ≡ object_reply 200 (drawn_members publication ticket)) }
{
    let object = Object::new(alloc).with_number("ticket", u64::from(ticket))?;
    let object = object.with_number("publication", publication)?;
    object_reply(StatusCode::OK, object)
}

fn taken_reply(alloc: Global, edition: u64, job: u64) -> Result<Reply, AllocError>
    ensures { IfOk result (λ reply. reply ≡ object_reply 200 (taken_members edition job)) }
{
    let object = Object::new(alloc).with_number("job", job)?;
    let object = object.with_number("edition", edition)?;
    object_reply(StatusCode::OK, object)
}

fn mode_word(mode: Mode) -> &'static str
    ensures { result.now ≡ mode_word mode }
{
    match mode {
        Mode::Whole => "whole",
        Mode::Fair => "fair",
    }
}

// What a look at a job shows.
fn job_object(
    alloc: Global,
    job: u64,
    edition: u64,
    mode: Mode,
    outcome: Outcome,
) -> Result<Object, AllocError>
    ensures { IfOk result (λ object. members object ≡ job_members job edition mode outcome) }
{
    let object = with_worth(Object::new(alloc), outcome)?;
    let object = with_outcome(object, outcome)?;
    let object = object.with_text("mode", mode_word(mode))?;
    let object = object.with_number("job", job)?;
    object.with_number("edition", edition)
}

fn job_reply(
    alloc: Global,
    job: u64,
    edition: u64,
    mode: Mode,
    outcome: Outcome,
) -> Result<Reply, AllocError>
    ensures { IfOk result (λ reply. reply ≡ object_reply 200 (job_members job edition mode outcome)) }
{
    let object = job_object(alloc, job, edition, mode, outcome)?;
    object_reply(StatusCode::OK, object)
}

fn finished_reply(alloc: Global, job: u64, outcome: Outcome) -> Result<Reply, AllocError>
    ensures { IfOk result (λ reply. reply ≡ object_reply 200 (finished_members job outcome)) }
{
    let object = with_outcome(Object::new(alloc), outcome)?;
    let object = object.with_number("job", job)?;
    object_reply(StatusCode::OK, object)
}

fn rules_reply(alloc: Global, rules: &Rules) -> Result<Reply, AllocError>
    ensures { IfOk result (λ reply. reply ≡ text_reply (rules_text rules.now)) }
{
    let text = rules_text(alloc, rules)?;
    Ok(text_reply(text))
}

fn certificate_reply(alloc: Global, certificate: &Certificate) -> Result<Reply, AllocError>
    requires { (mode : Mode) × IsRight certificate.now.rules mode certificate.now.answer }
    ensures { IfOk result (λ reply. reply ≡ text_reply (certificate_text certificate.now.rules certificate.now.answer)) }
{
    let text = certificate_text(alloc, certificate)?;
    Ok(text_reply(text))
}

fn pairs_reply(alloc: Global, pairs: &[PairIds]) -> Result<Reply, AllocError>
    ensures { IfOk result (λ reply. reply ≡ text_reply (pairs_text pairs.now)) }
{
    let text = pairs_text(alloc, pairs)?;
    Ok(text_reply(text))
}

/// The reply to a request that the desk accepts, or memory is wanting. Takes the memory of the body twice over at most.
pub fn reply_of_answer(alloc: Global, answered: &Answered) -> Result<Reply, AllocError>
    requires { ShowsRight answered.now }
    ensures { IfOk result (λ reply. reply ≡ reply_of_answer answered.now) }
{
    match answered {
        Answered::Edited { edition } => number_reply(alloc, "edition", *edition),
        Answered::Submitted { job } => number_reply(alloc, "job", *job),
        Answered::Published { publication } => number_reply(alloc, "publication", *publication),
        Answered::Drawn {
            publication,
            ticket,
        } => drawn_reply(alloc, *publication, *ticket),
        Answered::Edition { edition } => number_reply(alloc, "edition", *edition),
        Answered::Rules(rules) => rules_reply(alloc, rules),
        Answered::Job {
            job,
            edition,
            mode,
            outcome,
        } => job_reply(alloc, *job, *edition, *mode, *outcome),
        Answered::Certificate(certificate) => certificate_reply(alloc, certificate),
        Answered::Pairs { pairs } => pairs_reply(alloc, pairs.as_slice()),
        Answered::Taken(snapshot) => taken_reply(alloc, snapshot.edition, snapshot.job),
        Answered::Finished { job, outcome } => finished_reply(alloc, *job, *outcome),
        Answered::Released { job } => number_reply(alloc, "job", *job),
    }
}
