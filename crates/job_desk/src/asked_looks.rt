// What chairs look at. An answer owns what it holds, so that is copied, and nothing else.

ghost use Rattle.std.specs.Prelude.{◌≡◌, ◌<◌, ℕ, All, IfOk, List, Some, length, map};
ghost use Rattle.match_rules.specs.Answers.{AnswerMatches};
ghost use Rattle.match_rules.specs.Rules.{paper_at, reviewer_at};
ghost use Rattle.desk_history.specs.declared.replies.Answered.TheVariants as answered;
ghost use Rattle.desk_history.specs.Courses.{history_of};
ghost use Rattle.desk_history.specs.Histories.{History, brought_at, edits, job_of, nth_of, publications};
ghost use Rattle.desk_history.specs.Looks.{answer_look, decided_look, ids_of, job_look, look_step, pairs_look, publication_look, rules_at, shown, ticket_look, told};
ghost use Rattle.desk_history.specs.Opened.{IsLegal};
ghost use Rattle.desk_history.specs.Tables.{AreTables};
ghost use Rattle.job_desk.specs.Looking.{IsTold};

use crate::drawing::{brought_at, drawn_piece, evidence};
use crate::looks::{job_look, now, rules_now};
use desk_history::{Answered, Entry, Job, Look, Outcome, PairIds, PairList, Refusal, Tables, nth};
use match_rules::{PaperId, RULES_TICKETS, ReviewerId, Rules};
use publication::Certificate;
use std::alloc::{AllocError, Global};

// The rules of the present edition.
fn rules_look(alloc: Global, tables: &Tables) -> Result<Answered, Refusal>
    ensures { (H : History) → AreTables H tables.now → IsTold (told (answered.Rules (rules_at H (edits H)))) result }
{
    match rules_now(alloc, tables) {
        Ok(rules) => Ok(Answered::Rules(rules)),
        Err(_) => Err(Refusal::Memory),
    }
}

// An equal certificate.
fn copy(alloc: Global, shown: &Certificate) -> Result<Certificate, AllocError>
    ensures { IfOk result (λ copy. copy ≡ shown.now) }
{
    let rules = shown.rules.copy(alloc)?;
    let answer = shown.answer.copy(alloc)?;
    Ok(Certificate { rules, answer })
}

// Rules and the answer to them.
fn certificate_look(alloc: Global, shown: &Certificate) -> Result<Answered, Refusal>
    ensures { IsTold (told (answered.Certificate shown.now)) result }
{
    match copy(alloc, shown) {
        Ok(certificate) => Ok(Answered::Certificate(certificate)),
        Err(_) => Err(Refusal::Memory),
    }
}

// What the entry at a place brought, where a job was decided with an answer.
fn evidence_look(
    alloc: Global,
    entries: &Vec<Entry>,
    decided: Option<u64>,
) -> Result<Answered, Refusal>
    ensures { IsTold (shown Refusal.NotCertified (brought_at (history_of entries.now) decided)) result }
{
    match brought_at(entries, decided) {
        None => Err(Refusal::NotCertified),
        Some(shown) => certificate_look(alloc, shown),
    }
}

// The rules of a job and its answer, where it has one.
fn decided_look(
    alloc: Global,
    entries: &Vec<Entry>,
    now: u64,
    job: Job,
) -> Result<Answered, Refusal>
    requires { now ≡ edits (history_of entries.now) }
    ensures { IsTold (decided_look (history_of entries.now) job job.outcome) result }
{
    match job.outcome {
        Outcome::Waiting => Err(Refusal::NotDone),
        Outcome::Taken => Err(Refusal::NotDone),
        Outcome::Stale { .. } => Err(Refusal::Stale { now }),
        Outcome::OutOfMemory => Err(Refusal::NotCertified),
        Outcome::Certified { .. } => evidence_look(alloc, entries, job.decided),
        Outcome::Infeasible { .. } => evidence_look(alloc, entries, job.decided),
    }
}

// The rules and the answer of the job of a number.
fn answer_look(
    alloc: Global,
    entries: &Vec<Entry>,
    tables: &Tables,
    number: u64,
) -> Result<Answered, Refusal>
    requires { AreTables (history_of entries.now) tables.now }
    ensures { IsTold (answer_look (history_of entries.now) (job_of (history_of entries.now) number)) result }
{
    match nth(tables.jobs.as_slice(), number) {
        None => Err(Refusal::UnknownJob),
        Some(job) => decided_look(alloc, entries, tables.edits, job),
    }
}

// The rules and the lottery of the publication of a number.
fn publication_look(
    alloc: Global,
    entries: &Vec<Entry>,
    tables: &Tables,
    number: u64,
) -> Result<Answered, Refusal>
    requires { AreTables (history_of entries.now) tables.now }
    ensures { IsTold (publication_look (history_of entries.now) (nth_of (publications (history_of entries.now)) number)) result }
{
    match nth(tables.publications.as_slice(), number) {
        None => Err(Refusal::UnknownPublication),
        Some(publication) => match evidence(entries, tables, publication.job) {
            None => Err(Refusal::UnknownPublication),
            Some(shown) => certificate_look(alloc, shown),
        },
    }
}

// The id of the paper at a place of the rules.
fn paper_id(alloc: Global, rules: &Rules, paper: u32) -> Result<PaperId, AllocError>
    requires { paper < length rules.now.papers }
    ensures { IfOk result (λ id. id ≡ (paper_at rules.now paper).id) }
{
    rules.papers()[paper as usize].id.copy(alloc)
}

// The id of the reviewer at a place of the rules.
fn reviewer_id(alloc: Global, rules: &Rules, reviewer: u32) -> Result<ReviewerId, AllocError>
    requires { reviewer < length rules.now.reviewers }
    ensures { IfOk result (λ id. id ≡ (reviewer_at rules.now reviewer).id) }
{
    rules.reviewers()[reviewer as usize].id.copy(alloc)
}

// The ids of the pair at a place of the rules.
fn ids_of(alloc: Global, rules: &Rules, place: u32) -> Result<PairIds, AllocError>
    requires { place < length rules.now.pairs }
    ensures { IfOk result (λ ids. ids ≡ ids_of rules.now place) }
{
    let pair = rules.pairs()[place as usize];
    let paper = paper_id(alloc, rules, pair.paper)?;
    let reviewer = reviewer_id(alloc, rules, pair.reviewer)?;
    Ok(PairIds { paper, reviewer })
}

// The ids of the pairs at places of the rules.
fn pairs_at(alloc: Global, rules: &Rules, places: &[u32]) -> Result<Vec<PairIds>, AllocError>
    requires { All (λ e. e < length rules.now.pairs) places.now }
    ensures { IfOk result (λ pairs. pairs.items ≡ map (ids_of rules.now) places.now) }
{
    let mut pairs = Vec::new(alloc);
    for place in places {
        let ids = ids_of(alloc, rules, *place)?;
        pairs.push(ids)?;
    }
    Ok(pairs)
}

// The pairs that a ticket draws of an answer to rules.
fn pairs_look(alloc: Global, shown: &Certificate, ticket: u32) -> Result<Answered, Refusal>
    requires { AnswerMatches shown.now.rules shown.now.answer }
    ensures { IsTold (pairs_look (Some shown.now) ticket) result }
{
    match drawn_piece(&shown.answer, ticket) {
        None => Err(Refusal::BadTicket),
        Some(piece) => match pairs_at(alloc, &shown.rules, piece.pairs.as_slice()) {
            Ok(pairs) => Ok(Answered::Pairs {
                pairs: PairList::from_vec(pairs),
            }),
            Err(_) => Err(Refusal::Memory),
        },
    }
}

// The pairs that a ticket draws of the publication of a number.
fn ticket_look(
    alloc: Global,
    entries: &Vec<Entry>,
    tables: &Tables,
    number: u64,
    ticket: u64,
) -> Result<Answered, Refusal>
    requires tables { AreTables (history_of entries.now) tables.now }
    requires legal { (chairs : List (List ℕ)) × IsLegal chairs (history_of entries.now) }
    ensures { IsTold (ticket_look (history_of entries.now) (nth_of (publications (history_of entries.now)) number) ticket) result }
{
    let publication = match nth(tables.publications.as_slice(), number) {
        None => return Err(Refusal::UnknownPublication),
        Some(publication) => publication,
    };
    if ticket >= RULES_TICKETS as u64 {
        return Err(Refusal::BadTicket);
    }
    match evidence(entries, tables, publication.job) {
        None => Err(Refusal::UnknownPublication),
        Some(shown) => pairs_look(alloc, shown, ticket as u32),
    }
}

/// What a chair looks at, or why it isn't shown. Copies what the answer holds: rules, an answer or ids, once.
pub fn look(
    alloc: Global,
    entries: &Vec<Entry>,
    tables: &Tables,
    what: Look,
) -> Result<Answered, Refusal>
    requires tables { AreTables (history_of entries.now) tables.now }
    requires legal { (chairs : List (List ℕ)) × IsLegal chairs (history_of entries.now) }
    ensures { IsTold (look_step (history_of entries.now) what) result }
{
    match what {
        Look::Edition => Ok(Answered::Edition {
            edition: now(tables),
        }),
        Look::Rules => rules_look(alloc, tables),
        Look::Job { job } => job_look(tables, job),
        Look::Answer { job } => answer_look(alloc, entries, tables, job),
        Look::Publication { number } => publication_look(alloc, entries, tables, number),
        Look::Ticket {
            publication,
            ticket,
        } => ticket_look(alloc, entries, tables, publication, ticket),
    }
}
