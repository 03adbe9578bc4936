// The text of the lottery of a job that is published.

ghost use Rattle.std.specs.Prelude.{◌≡◌, ◌<◌, ◌≤◌, ℕ, List, IfErr, IfOk, None, Some, length};
ghost use Rattle.edge_io.specs.Counts.{HasCause};
ghost use Rattle.edge_io.specs.Told.{Adds};
ghost use Rattle.match_rules.specs.declared.answer.Mode.{Mode};
ghost use Rattle.text_lines.specs.declared.number.TheConstants.{MOST_AMOUNT};
ghost use Rattle.publication.specs.Certificates.{IsCertificate, IsSpelled, answer_text};
ghost use Rattle.desk_history.specs.Courses.{history_of};
ghost use Rattle.desk_history.specs.Histories.{edits, job_of};
ghost use Rattle.desk_history.specs.Opened.{IsLegal};
ghost use Rattle.desk_history.specs.Refusals.{publish_refusal};
ghost use Rattle.desk_history.specs.Rows.{publishes, text_of};
ghost use Rattle.desk_history.specs.Steps.{IsRight};
ghost use Rattle.desk_history.specs.Tables.{AreTables};

use crate::drawing::evidence;
use desk_history::{Entry, Refusal, Tables};
use desk_laws::evidence_laws;
use edge_io::{Io, Sink};
use match_rules::{Answer, Rules};
use publication::{Certificate, write_answer};
use std::alloc::Global;

// A sink that holds a text in memory. A write for which there is no room fails, and adds nothing.
#[derive(Drop)]
struct TextSink {
    held: Vec<u8>,
    faults: u64,
}

impl Sink for TextSink {
    ghost faults = { λ s. s.faults };

    ghost taken = { λ s. Some s.held.items };

    fn write(&mut self, piece: &[u8]) -> Result<usize, Io>
        requires { 0 < length piece.now }
        ensures some { IfOk result (λ n. 1 ≤ n) }
        ensures fits { IfOk result (λ n. n ≤ length piece.now) }
        ensures taken { Adds (Some self.old.held.items) (Some self.new.held.items) result piece.now }
        ensures cause { HasCause self.old.faults self.new.faults result }
    {
        match self.held.extend_from_slice(piece) {
            Ok(()) => Ok(piece.len()),
            Err(_) => {
                self.faults = self.faults.saturating_add(1);
                Err(Io::Failed)
            }
        }
    }
}

/// The text of an answer to rules, or memory is wanting.
pub fn text_of_answer(alloc: Global, rules: &Rules, answer: &Answer) -> Result<Vec<u8>, Refusal>
    requires matching { IsCertificate rules.now answer.now }
    ensures text { IfOk result (λ text. text.items ≡ answer_text answer.now) }
    ensures memory { IfErr result (λ refusal. refusal ≡ Refusal.Memory) }
{
    let mut sink = TextSink {
        held: Vec::new(alloc),
        faults: 0,
    };
    match write_answer(rules, answer, &mut sink) {
        Ok(()) => Ok(sink.held),
        Err(_) => Err(Refusal::Memory),
    }
}

// A law: a number of 64 bits is at most the greatest that a text has.
fn is_amount(number: u64)
    ensures { number ≤ MOST_AMOUNT }
{
    let _number = number;
}

// A law: what the types of an answer keep by themselves.
fn is_spelled(answer: &Answer)
    ensures { IsSpelled answer.now }
{
    match answer {
        Answer::Lottery(winning) => {
            let _pieces = winning.lottery.pieces();
        }
        Answer::Infeasible(blocked) => {
            is_amount(blocked.need);
            is_amount(blocked.room);
        }
    }
}

// The text of a right answer, or memory is wanting.
fn text_of_right(alloc: Global, shown: &Certificate) -> Result<Vec<u8>, Refusal>
    requires { (mode : Mode) × IsRight shown.now.rules mode shown.now.answer }
    ensures text { IfOk result (λ text. text.items ≡ answer_text shown.now.answer) }
    ensures memory { IfErr result (λ refusal. refusal ≡ Refusal.Memory) }
{
    // The rules keep their conditions.
    let _pairs = shown.rules.pairs();
    is_spelled(&shown.answer);
    evidence_laws();
    text_of_answer(alloc, &shown.rules, &shown.answer)
}

/// The text of what the publish of a job publishes, or memory is wanting.
pub fn text_published(
    alloc: Global,
    entries: &Vec<Entry>,
    tables: &Tables,
    job: u64,
) -> Result<Vec<u8>, Refusal>
    requires tables { AreTables (history_of entries.now) tables.now }
    requires legal { (chairs : List (List ℕ)) × IsLegal chairs (history_of entries.now) }
    requires right { publish_refusal (edits (history_of entries.now)) None (job_of (history_of entries.now) job) ≡ None }
    ensures text { IfOk result (λ text. text.items ≡ text_of (publishes (history_of entries.now) job None)) }
    ensures memory { IfErr result (λ refusal. refusal ≡ Refusal.Memory) }
{
    evidence_laws();
    match evidence(entries, tables, job) {
        None => Ok(Vec::new(alloc)),
        Some(shown) => text_of_right(alloc, shown),
    }
}
