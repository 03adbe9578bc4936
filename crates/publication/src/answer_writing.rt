// Writing the text of an answer.
ghost use Rattle.std.specs.Prelude.{◌≡◌, Ok};
ghost use Rattle.edge_io.specs.Counts.{HasCause};
ghost use Rattle.edge_io.specs.Told.{AddsAll};
ghost use Rattle.publication.specs.AnswerReading.{certificate_at};
ghost use Rattle.publication.specs.Certificates.{IsCertificate, answer_text, certificate_text};
ghost use Rattle.publication.specs.Waiting.{Puts};

use crate::cut_writing::put_blocked;
use crate::lottery_writing::put_lottery;
use edge_io::{Io, Sink, write_all};
use match_rules::{Answer, Rules};
use text_lines::LineBuffer;

fn put_answer<K: Sink>(answer: &Answer, waiting: &mut LineBuffer, sink: &mut K) -> Result<(), Io>
    ensures puts { Puts (K.taken sink.old) waiting.old (K.taken sink.new) waiting.new result (answer_text answer.now) }
    ensures cause { HasCause (K.faults sink.old) (K.faults sink.new) result }
{
    match answer {
        Answer::Lottery(winning) => put_lottery(winning, waiting, sink),
        Answer::Infeasible(blocked) => put_blocked(blocked, waiting, sink),
    }
}

/// Appends the text of an answer that matches these rules, and whose level is unasked exactly in the mode whole, a write for
/// some hundred bytes. After `Failed` a front of it was appended. Takes no memory.
pub fn write_answer<K: Sink>(rules: &Rules, answer: &Answer, sink: &mut K) -> Result<(), Io>
    requires matching { IsCertificate rules.now answer.now }
    ensures taken { AddsAll (K.taken sink.old) (K.taken sink.new) result (answer_text answer.now) }
    ensures cause { HasCause (K.faults sink.old) (K.faults sink.new) result }

    // The text of the rules with this text behind it is read as these rules and this answer.
    ensures again { certificate_at (record { number = 1; bytes = certificate_text rules.now answer.now }) ≡ Ok (rules.now, answer.now) }
{
    let mut waiting = LineBuffer::new();
    put_answer(answer, &mut waiting, sink)?;
    write_all(sink, waiting.as_slice())
}
