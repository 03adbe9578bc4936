// Reading the text of an answer: a lottery, or a cut that forbids all.
ghost use Rattle.std.specs.Prelude.{◌≤◌, IsSome, IfOk};
ghost use Rattle.edge_io.specs.Told.{TellsNoMore};
ghost use Rattle.text_lines.specs.Reading.{Gives, FaultHasCause, cursor};
ghost use Rattle.publication.specs.AnswerReading.{answer_at};
ghost use Rattle.publication.specs.Certificates.{IsAnswerFor, SuitsItsMode};

use crate::answer_forms::{AnswerKind, KindLine};
use crate::answer_text::read_lottery;
use crate::infeasible_text::read_infeasible;
use edge_io::Source;
use match_rules::{Answer, MOST_PAIRS, Sizes};
use std::alloc::Global;
use text_lines::{Lines, ReadError, read_line};

/// Reads the text of an answer, for the rules that it answers.
#[tactic(auto, unfolding(crate::specs::AnswerReading::answer_at))]
pub fn read_answer<S: Source>(
    alloc: Global,
    lines: &mut Lines,
    source: &mut S,
    sizes: Sizes,
) -> Result<Answer, ReadError>
    requires { sizes.pairs ≤ MOST_PAIRS }
    ensures reads { IsSome (S.left source.new) → Gives (λ answer. answer) result (cursor lines.new (S.left source.new)) (answer_at sizes (cursor lines.old (S.left source.old))) }
    ensures suits { IfOk result SuitsItsMode }
    ensures fits { IfOk result (IsAnswerFor sizes) }
    ensures untold { TellsNoMore (S.left source.old) (S.left source.new) }
    ensures cause { FaultHasCause (S.faults source.old) (S.faults source.new) (S.left source.new) result }
{
    match read_line(alloc, lines, source, &mut KindLine {}, &[])? {
        AnswerKind::Lottery => {
            let winning = read_lottery(alloc, lines, source, sizes)?;
            Ok(Answer::Lottery(winning))
        }
        AnswerKind::Infeasible => {
            let blocked = read_infeasible(alloc, lines, source, sizes)?;
            Ok(Answer::Infeasible(blocked))
        }
    }
}
