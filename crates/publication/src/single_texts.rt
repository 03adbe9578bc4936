// Rules alone, or an answer alone, read from its text.
ghost use Rattle.std.specs.Prelude.{◌≡◌, ◌≢◌, ◌≤◌, ℕ, List, [], ◌++◌, Some, IsSome, IfOk, IfErr, OnOk, IsErrOf, Ok, Err, MatchResult};
ghost use Rattle.edge_io.specs.Counts.{Rose};
ghost use Rattle.edge_io.specs.Told.{told, TellsNoMore};
ghost use Rattle.match_rules.specs.declared.answer.Answer.{Answer};
ghost use Rattle.match_rules.specs.Rules.{RulesValue, AreRules};
ghost use Rattle.match_rules.specs.Sound.{sizes_of};
ghost use Rattle.text_lines.specs.declared.fault.TextFault.{TextFault};
ghost use Rattle.text_lines.specs.FirstFault.{HasFault};
ghost use Rattle.text_lines.specs.Reading.{Fails, FaultHasCause, cursor};
ghost use Rattle.publication.specs.Certificates.{IsCertificate, answer_text};
ghost use Rattle.publication.specs.DueLines.{answer_due, rules_due};
ghost use Rattle.publication.specs.Refusals.{IsRefused, RefusedFor, ReadAs};
ghost use Rattle.publication.specs.RulesText.{rules_text};
ghost use Rattle.publication.specs.WholeTexts.{answer_whole_at, rules_whole_at};

use crate::refusal::{ReadRefusal, refusal_of};
use crate::{answer, rules_reading};
use edge_io::{Source, SureSource};
use match_rules::{Answer, MOST_PAIRS, Rules, Sizes};
use std::alloc::Global;
use text_lines::{Lines, ReadError};

// The rules, and the end.
#[tactic(auto, unfolding(crate::specs::WholeTexts::rules_whole_at))]
fn rules_and_end<S: Source>(
    alloc: Global,
    mut lines: Lines,
    source: &mut S,
) -> Result<Rules, ReadError>
    ensures reads { IsSome (S.left source.new) → MatchResult result (λ rules. rules_whole_at (cursor lines (S.left source.old)) ≡ Ok rules) (λ e. Fails e (rules_whole_at (cursor lines (S.left source.old)))) }
    ensures kept { IfOk result AreRules }
    ensures end { IsSome (S.left source.new) → OnOk result (told (S.left source.new) ≡ []) }
    ensures untold { TellsNoMore (S.left source.old) (S.left source.new) }
    ensures cause { FaultHasCause (S.faults source.old) (S.faults source.new) (S.left source.new) result }
{
    let rules = rules_reading::read_rules(alloc, &mut lines, source)?;
    lines.finish(source)?;
    Ok(rules)
}

/// Reads the text of rules, all that the source has. Takes the memory of the rules, of the longest line and 65,536 bytes.
pub fn read_rules<S: Source>(alloc: Global, source: &mut S) -> Result<Rules, ReadRefusal>
    ensures kept { IfOk result AreRules }

    // Where the source tells its bytes: they are the text of what is read, nothing is left of them, and only they are
    // read so.
    ensures found { IsSome (S.left source.new) → IfOk result (λ rules. told (S.left source.old) ≡ rules_text rules) }
    ensures end { IsSome (S.left source.new) → OnOk result (told (S.left source.new) ≡ []) }
    ensures only { IsSome (S.left source.new) → (rules : RulesValue) → AreRules rules → told (S.left source.old) ≡ rules_text rules → ReadAs (λ (r : RulesValue). r) rules result }

    // Other bytes are refused, exactly for their first fault; where they end too early, all were taken from the source.
    ensures refused { IsSome (S.left source.new) → IfErr result (IsRefused rules_due (told (S.left source.old))) }
    ensures exact { IsSome (S.left source.new) → (fault : TextFault) → HasFault rules_due (told (S.left source.old)) (Some fault) → RefusedFor fault result }
    ensures truncated { IsSome (S.left source.new) → IsErrOf result ReadRefusal.Truncated → told (S.left source.new) ≡ [] }

    // No text of rules is a front of another one.
    ensures apart { (rules others : RulesValue) (more : List ℕ) → AreRules rules → AreRules others → rules_text rules ≡ rules_text others ++ more → more ≡ [] }

    ensures untold { TellsNoMore (S.left source.old) (S.left source.new) }
    ensures later { S.faults source.old ≤ S.faults source.new }
    ensures fault { IsErrOf result ReadRefusal.ReadFault → Rose (S.faults source.old) (S.faults source.new) }
{
    let Ok(lines) = Lines::new(alloc) else {
        return Err(ReadRefusal::Memory);
    };
    match rules_and_end(alloc, lines, source) {
        Ok(rules) => Ok(rules),
        Err(error) => Err(refusal_of(error)),
    }
}

// The sizes of rules, which keep all conditions, as any part of them tells.
fn kept_sizes(rules: &Rules) -> Sizes
    ensures same { result ≡ sizes_of rules.now }
    ensures few { result.pairs ≤ MOST_PAIRS }
    ensures kept { AreRules rules.now }
{
    let _limit = rules.limit();
    Sizes::of(rules)
}

// The answer to these rules, and the end.
#[tactic(auto, unfolding(crate::specs::WholeTexts::answer_whole_at))]
fn answer_and_end(
    alloc: Global,
    mut lines: Lines,
    source: &mut SureSource,
    rules: &Rules,
) -> Result<Answer, ReadError>
    ensures reads { MatchResult result (λ answer. answer_whole_at (sizes_of rules.now) (cursor lines (Some source.old.left)) ≡ Ok answer) (λ e. Fails e (answer_whole_at (sizes_of rules.now) (cursor lines (Some source.old.left)))) }
    ensures matching { IfOk result (IsCertificate rules.now) }
    ensures cause { FaultHasCause 0 0 (Some source.new.left) result }
{
    let answer = answer::read_answer(alloc, &mut lines, source, kept_sizes(rules))?;
    lines.finish(source)?;
    Ok(answer)
}

/// Reads the text of an answer to these rules, which is the whole of the bytes. Takes the memory of the answer, of a copy
/// of the bytes, of the longest line and 65,536 bytes. Lines are counted from the first of the answer. `ReadFault` doesn't
/// come.
pub fn read_answer(alloc: Global, rules: &Rules, bytes: &[u8]) -> Result<Answer, ReadRefusal>
    ensures matching { IfOk result (IsCertificate rules.now) }

    // The bytes are the text of what is read, and only they are read so.
    ensures found { IfOk result (λ answer. bytes.now ≡ answer_text answer) }
    ensures only { (answer : Answer) → IsCertificate rules.now answer → bytes.now ≡ answer_text answer → ReadAs (λ (a : Answer). a) answer result }

    // Other bytes are refused, exactly for their first fault.
    ensures refused { IfErr result (IsRefused (answer_due (sizes_of rules.now)) bytes.now) }
    ensures exact { (fault : TextFault) → HasFault (answer_due (sizes_of rules.now)) bytes.now (Some fault) → RefusedFor fault result }
    ensures no_fault { result ≢ Err ReadRefusal.ReadFault }

    // No text of an answer is a front of another one.
    ensures apart { (answer other : Answer) (more : List ℕ) → IsCertificate rules.now answer → IsCertificate rules.now other → answer_text answer ≡ answer_text other ++ more → more ≡ [] }
{
    let Ok(lines) = Lines::new(alloc) else {
        return Err(ReadRefusal::Memory);
    };
    let Ok(copy) = Vec::from_slice(alloc, bytes) else {
        return Err(ReadRefusal::Memory);
    };
    match answer_and_end(alloc, lines, &mut SureSource::new(copy), rules) {
        Ok(answer) => Ok(answer),
        Err(error) => Err(refusal_of(error)),
    }
}
