// Rules and the answer to them, read from one text.
ghost use Rattle.std.specs.Prelude.{◌≡◌, ◌≤◌, ℕ, List, [], ◌++◌, Some, IsSome, IfOk, IfErr, OnOk, IsErrOf, Ok, MatchResult};
ghost use Rattle.edge_io.specs.Counts.{Rose};
ghost use Rattle.edge_io.specs.Told.{told, TellsNoMore};
ghost use Rattle.match_rules.specs.declared.answer.Answer.{Answer};
ghost use Rattle.match_rules.specs.Rules.{RulesValue};
ghost use Rattle.text_lines.specs.declared.fault.TextFault.{TextFault};
ghost use Rattle.text_lines.specs.FirstFault.{HasFault};
ghost use Rattle.text_lines.specs.Reading.{Fails, FaultHasCause, cursor};
ghost use Rattle.publication.specs.AnswerReading.{certificate_at};
ghost use Rattle.publication.specs.Certificates.{IsCertificate, certificate_text, parts_of};
ghost use Rattle.publication.specs.DueLines.{certificate_due};
ghost use Rattle.publication.specs.Refusals.{IsRefused, RefusedFor, ReadAs};

use crate::answer::read_answer;
use crate::refusal::{ReadRefusal, refusal_of};
use crate::rules_reading::read_rules;
use edge_io::Source;
use match_rules::{Answer, Rules, Sizes};
use std::alloc::Global;
use text_lines::{Lines, ReadError};

/// Rules and the answer to them.
#[derive(Drop)]
pub struct Certificate {
    pub rules: Rules,
    pub answer: Answer,
}

#[tactic(auto, unfolding(crate::specs::AnswerReading::certificate_at))]
fn read_parts<S: Source>(
    alloc: Global,
    mut lines: Lines,
    source: &mut S,
) -> Result<Certificate, ReadError>
    ensures reads { IsSome (S.left source.new) → MatchResult result (λ certificate. certificate_at (cursor lines (S.left source.old)) ≡ Ok (certificate.rules, certificate.answer)) (λ e. Fails e (certificate_at (cursor lines (S.left source.old)))) }
    ensures matching { IfOk result (λ certificate. IsCertificate certificate.rules certificate.answer) }
    ensures end { IsSome (S.left source.new) → OnOk result (told (S.left source.new) ≡ []) }
    ensures untold { TellsNoMore (S.left source.old) (S.left source.new) }
    ensures cause { FaultHasCause (S.faults source.old) (S.faults source.new) (S.left source.new) result }
{
    let rules = read_rules(alloc, &mut lines, source)?;
    let answer = read_answer(alloc, &mut lines, source, Sizes::of(&rules))?;
    lines.finish(source)?;
    Ok(Certificate { rules, answer })
}

/// Reads the text of rules and of the answer to them, all that the source has. Takes the memory of the rules, of the
/// answer, of the longest line and 65,536 bytes. Lines are counted through both texts, from 1.
pub fn read_certificate<S: Source>(
    alloc: Global,
    source: &mut S,
) -> Result<Certificate, ReadRefusal>
    // What is read keeps all conditions, whatever the source tells.
    ensures matching { IfOk result (λ certificate. IsCertificate certificate.rules certificate.answer) }

    // Where the source tells its bytes: they are the text of what is read, nothing is left of them, and only they are
    // read so.
    ensures found { IsSome (S.left source.new) → IfOk result (λ certificate. told (S.left source.old) ≡ certificate_text certificate.rules certificate.answer) }
    ensures end { IsSome (S.left source.new) → OnOk result (told (S.left source.new) ≡ []) }
    ensures only { IsSome (S.left source.new) → (rules : RulesValue) (answer : Answer) → IsCertificate rules answer → told (S.left source.old) ≡ certificate_text rules answer → ReadAs parts_of (rules, answer) result }

    // Other bytes are refused, exactly for their first fault; where they end too early, all were taken from the source.
    ensures refused { IsSome (S.left source.new) → IfErr result (IsRefused certificate_due (told (S.left source.old))) }
    ensures exact { IsSome (S.left source.new) → (fault : TextFault) → HasFault certificate_due (told (S.left source.old)) (Some fault) → RefusedFor fault result }
    ensures truncated { IsSome (S.left source.new) → IsErrOf result ReadRefusal.Truncated → told (S.left source.new) ≡ [] }

    // No certificate is a front of another one.
    ensures apart { (rules others : RulesValue) (answer other : Answer) (more : List ℕ) → IsCertificate rules answer → IsCertificate others other → certificate_text rules answer ≡ certificate_text others other ++ more → more ≡ [] }

    ensures untold { TellsNoMore (S.left source.old) (S.left source.new) }
    ensures later { S.faults source.old ≤ S.faults source.new }
    ensures fault { IsErrOf result ReadRefusal.ReadFault → Rose (S.faults source.old) (S.faults source.new) }
{
    let Ok(lines) = Lines::new(alloc) else {
        return Err(ReadRefusal::Memory);
    };
    match read_parts(alloc, lines, source) {
        Ok(certificate) => Ok(certificate),
        Err(error) => Err(refusal_of(error)),
    }
}
