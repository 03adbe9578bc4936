// Whether a guessed cut is one that counts.

ghost use Rattle.std.specs.Prelude.{◌↔◌, IsTrue, length, pos};
ghost use Rattle.match_rules.specs.declared.answer.Sieve.TheVariants.{Above};
ghost use Rattle.match_rules.specs.Answers.{AreMarks, CutMatches};
ghost use Rattle.match_rules.specs.Evidence.{Violated};
ghost use Rattle.match_rules.specs.Rules.{most_score};

use crate::lowering::TOP;
use dual_check::is_violated;
use match_rules::{Cut, Places, Rules, Sieve};

// Whether places are marks of so many.
fn are_marks(places: &Places, count: u32) -> bool
    ensures { IsTrue result ↔ AreMarks count places.now }
{
    let below = places.are_below(count);
    if !below {
        return false;
    }
    places.do_ascend()
}

// Whether the lists of a cut are places of the rules.
fn is_known(rules: &Rules, cut: &Cut) -> bool
    ensures { IsTrue result ↔ CutMatches rules.now cut.now }
{
    let papers = are_marks(&cut.papers, rules.papers().len() as u32);
    if !papers {
        return false;
    }
    let groups = are_marks(&cut.groups, rules.group_count());
    if !groups {
        return false;
    }
    are_marks(&cut.reviewers, rules.reviewers().len() as u32)
}

/// Whether a cut is one of the rules, and violated with the locked pairs alone.
pub(crate) fn bars_locked(rules: &Rules, cut: &Cut) -> bool
    ensures known { IsTrue result → CutMatches rules.now cut.now }
    ensures above { IsTrue result → Violated rules.now (Above (pos most_score)) cut.now }
{
    let known = is_known(rules, cut);
    if !known {
        return false;
    }
    is_violated(rules, Sieve::Above { score: TOP }, cut)
}
