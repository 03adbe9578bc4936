// Rules, and the answer to them, as text.

ghost use Rattle.std.specs.Prelude.{◌≡◌, ◌<◌, ◌≤◌, ◌++◌, Some, IfOk, length};
ghost use Rattle.edge_io.specs.Counts.{HasCause};
ghost use Rattle.edge_io.specs.Told.{Adds};
ghost use Rattle.match_rules.specs.declared.answer.Mode.{Mode};
ghost use Rattle.text_lines.specs.declared.number.TheConstants.{MOST_AMOUNT};
ghost use Rattle.publication.specs.Certificates.{IsCertificate, IsSpelled, answer_text, certificate_text};
ghost use Rattle.publication.specs.RulesText.{rules_text};
ghost use Rattle.desk_history.specs.Steps.{IsRight};

use edge_io::{Io, Sink};
use match_rules::{Answer, Rules};
use publication::{Certificate, write_answer, write_rules};
use std::alloc::{AllocError, Global};

// A sink that holds a text in memory. A write for which there is no room fails, and adds nothing.
#[derive(Drop)]
struct TextSink {
    held: Vec<u8>,
    faults: u64,
}

impl Sink for TextSink {
    ghost faults = { λ s. s.faults };

    ghost taken = { λ s. Some s.held.items };

    fn write(&mut self, piece: &[u8]) -> Result<usize, Io>
        requires { 0 < length piece.now }
        ensures some { IfOk result (λ n. 1 ≤ n) }
        ensures fits { IfOk result (λ n. n ≤ length piece.now) }
        ensures taken { Adds (Some self.old.held.items) (Some self.new.held.items) result piece.now }
        ensures cause { HasCause self.old.faults self.new.faults result }
    {
        match self.held.extend_from_slice(piece) {
            Ok(()) => Ok(piece.len()),
            Err(_) => {
                self.faults = self.faults.saturating_add(1);
                Err(Io::Failed)
            }
        }
    }
}

/// The text of rules.
pub fn rules_text(alloc: Global, rules: &Rules) -> Result<Vec<u8>, AllocError>
    ensures { IfOk result (λ text. text.items ≡ rules_text rules.now) }
{
    let mut sink = TextSink {
        held: Vec::new(alloc),
        faults: 0,
    };
    match write_rules(rules, &mut sink) {
        Ok(()) => Ok(sink.held),
        Err(_) => Err(AllocError),
    }
}

// The text of an answer behind a text.
fn with_answer(text: Vec<u8>, rules: &Rules, answer: &Answer) -> Result<Vec<u8>, AllocError>
    requires { IsCertificate rules.now answer.now }
    ensures { IfOk result (λ made. made.items ≡ text.items ++ answer_text answer.now) }
{
    let mut sink = TextSink {
        held: text,
        faults: 0,
    };
    match write_answer(rules, answer, &mut sink) {
        Ok(()) => Ok(sink.held),
        Err(_) => Err(AllocError),
    }
}

// A law: a number of 64 bits is at most the greatest that a text has.
fn is_amount(number: u64)
    ensures { number ≤ MOST_AMOUNT }
{
    let _number = number;
}

// A law: what the types of an answer keep by themselves.
fn is_spelled(answer: &Answer)
    ensures { IsSpelled answer.now }
{
    match answer {
        Answer::Lottery(winning) => {
            let _pieces = winning.lottery.pieces();
        }
        Answer::Infeasible(blocked) => {
            is_amount(blocked.need);
            is_amount(blocked.room);
        }
    }
}

// A law: rules and a right answer to them have a text.
#[tactic(auto, using(crate::proofs::RightAnswers::right_certificate))]
fn is_certificate(certificate: &Certificate)
    requires { (mode : Mode) × IsRight certificate.now.rules mode certificate.now.answer }
    ensures { IsCertificate certificate.now.rules certificate.now.answer }
{
    // The rules keep their conditions.
    let _pairs = certificate.rules.pairs();
    is_spelled(&certificate.answer);
}

/// The text of rules and of a right answer to them.
pub fn certificate_text(alloc: Global, certificate: &Certificate) -> Result<Vec<u8>, AllocError>
    requires { (mode : Mode) × IsRight certificate.now.rules mode certificate.now.answer }
    ensures { IfOk result (λ text. text.items ≡ certificate_text certificate.now.rules certificate.now.answer) }
{
    is_certificate(certificate);
    let text = rules_text(alloc, &certificate.rules)?;
    with_answer(text, &certificate.rules, &certificate.answer)
}
