// The first clause of the check that an answer breaks.
ghost use Rattle.std.specs.Prelude.{◌≡◌, ◌↔◌, ◌==◌, ◌&&◌, List, IsNone};
ghost use Rattle.match_rules.specs.declared.answer.Blocked.{Blocked};
ghost use Rattle.match_rules.specs.declared.answer.Sieve.TheVariants.{All as EveryPair};
ghost use Rattle.match_rules.specs.declared.answer.Winning.{Winning};
ghost use Rattle.match_rules.specs.declared.lottery.Piece.{Piece};
ghost use Rattle.match_rules.specs.Answers.{AnswerMatches, Certified, CutMatches, IsBlocked, SharesMatch, SuitsMode, WinningMatches};
ghost use Rattle.match_rules.specs.Assignments.{Best, Fits};
ghost use Rattle.match_rules.specs.Breaks.{unless};
ghost use Rattle.match_rules.specs.Sound.{sizes_of};
ghost use Rattle.match_rules.specs.Thresholds.{sieve_of};
ghost use Rattle.publication.specs.Certificates.{SuitsItsMode};
ghost use Rattle.publication.specs.Checks.{total_break, bound_break, worth_break, evidence_break, lottery_break, cut_break, check_break_of, Holds};

use crate::threshold_checking::broken_threshold;
use dual_check::{Excess, bound, excess};
use match_rules::{
    Answer, Blocked, Break, Level, Rules, Scratch, Sieve, Winning, first_break, shares_score,
};

// A break where a test doesn't hold.
pub(crate) fn unless(holds: bool, broken: Break) -> Option<Break>
    ensures { result ≡ unless holds broken }
{
    if holds { None } else { Some(broken) }
}

// Clause 11.
fn broken_total(rules: &Rules, winning: &Winning) -> Option<Break>
    requires { SharesMatch rules.now winning.now.shares }
    ensures { result ≡ total_break rules.now winning.now }
{
    let printed = winning.total;
    let counted = shares_score(rules, &winning.shares);
    unless(printed == counted, Break::Total { printed, counted })
}

// The pairs that a level keeps.
fn sieve_of(level: &Level) -> Sieve
    ensures { result ≡ sieve_of level.now }
{
    match level {
        Level::Unasked => Sieve::All,
        Level::Free => Sieve::All,
        Level::At { score, .. } => Sieve::AtLeast { score: *score },
    }
}

// Clause 12.
fn broken_bound(rules: &Rules, winning: &Winning) -> Option<Break>
    requires { WinningMatches rules.now winning.now }
    ensures { result ≡ bound_break rules.now winning.now }
{
    let total = winning.total;
    let bound = bound(rules, sieve_of(&winning.level), &winning.prices);
    unless(total == bound, Break::Bound { total, bound })
}

// Clauses 11 and 12.
fn broken_worth(rules: &Rules, winning: &Winning) -> Option<Break>
    requires { WinningMatches rules.now winning.now }
    ensures { result ≡ worth_break rules.now winning.now }
{
    match broken_total(rules, winning) {
        Some(broken) => Some(broken),
        None => broken_bound(rules, winning),
    }
}

// The clauses of the threshold, and 11 and 12.
fn broken_evidence(rules: &Rules, winning: &Winning) -> Option<Break>
    requires { WinningMatches rules.now winning.now }
    ensures { result ≡ evidence_break rules.now winning.now }
{
    match broken_threshold(rules, &winning.level, &winning.shares) {
        Some(broken) => Some(broken),
        None => broken_worth(rules, winning),
    }
}

// The first broken clause of a lottery.
#[tactic(auto, unfolding(crate::specs::Checks::lottery_break))]
fn broken_lottery(rules: &Rules, winning: &Winning, scratch: &mut Scratch) -> Option<Break>
    requires matching { WinningMatches rules.now winning.now }
    requires scratch { scratch.old ≡ sizes_of rules.now }
    ensures exact { result ≡ lottery_break rules.now winning.now }
    ensures kept { scratch.new ≡ scratch.old }
{
    match first_break(rules, &winning.shares, &winning.lottery, scratch) {
        Some(broken) => Some(broken),
        None => broken_evidence(rules, winning),
    }
}

// The same, with what it says of a lottery.
fn check_lottery(rules: &Rules, winning: &Winning, scratch: &mut Scratch) -> Option<Break>
    requires matching { WinningMatches rules.now winning.now }
    requires scratch { scratch.old ≡ sizes_of rules.now }
    ensures exact { result ≡ lottery_break rules.now winning.now }
    ensures kept { scratch.new ≡ scratch.old }
    ensures certified { IsNone result → SuitsMode winning.now.mode winning.now.level → Certified rules.now winning.now.mode winning.now }
    ensures only { Certified rules.now winning.now.mode winning.now → IsNone result }
    ensures best { IsNone result → Best rules.now (sieve_of winning.now.level) winning.now.lottery }
{
    // The rules and the pieces keep their conditions.
    let _pairs = rules.pairs();
    let _pieces = winning.lottery.pieces();
    broken_lottery(rules, winning, scratch)
}

// Whether the printed need and room of a cut are the counted ones.
fn is_counted(blocked: &Blocked, need: u64, room: u64) -> bool
    ensures { result ≡ ((blocked.now.need == need) && (blocked.now.room == room)) }
{
    if blocked.need != need {
        return false;
    }
    blocked.room == room
}

// The first broken clause of a cut.
#[tactic(auto, unfolding(crate::specs::Checks::cut_break))]
fn broken_cut(rules: &Rules, blocked: &Blocked) -> Option<Break>
    requires { CutMatches rules.now blocked.now.cut }
    ensures { result ≡ cut_break rules.now blocked.now }
{
    let Excess { need, room } = excess(rules, Sieve::All, &blocked.cut);
    let counted = is_counted(blocked, need, room);
    match unless(counted, Break::Counted { need, room }) {
        Some(broken) => Some(broken),
        None => unless(room < need, Break::NotViolated { need, room }),
    }
}

// The same, with what it says of the cut.
fn check_cut(rules: &Rules, blocked: &Blocked) -> Option<Break>
    requires { CutMatches rules.now blocked.now.cut }
    ensures exact { result ≡ cut_break rules.now blocked.now }
    ensures blocked { IsNone result ↔ IsBlocked rules.now blocked.now }
    ensures none { IsNone result → (lottery : List Piece) → ¬ (Fits rules.now EveryPair lottery) }
{
    // The rules keep their conditions.
    let _pairs = rules.pairs();
    broken_cut(rules, blocked)
}

/// The first broken clause of the check, and in it the least piece and then the least place. None comes exactly where an
/// answer whose level is unasked exactly in the mode whole is valid. The scratch has to be made for the rules. Takes no memory.
pub fn check(rules: &Rules, answer: &Answer, scratch: &mut Scratch) -> Option<Break>
    requires matching { AnswerMatches rules.now answer.now }
    requires scratch { scratch.old ≡ sizes_of rules.now }
    ensures exact { result ≡ check_break_of rules.now answer.now }
    ensures kept { scratch.new ≡ scratch.old }

    // No clause is broken exactly where the answer is valid.
    ensures holds { IsNone result → SuitsItsMode answer.now → Holds rules.now answer.now }
    ensures only { Holds rules.now answer.now → IsNone result }

    // Then no lottery of any size under the sieve of its level has more for each ticket, or none of any size fits.
    ensures best { IsNone result → (winning : Winning) → answer.now ≡ Answer.Lottery winning → Best rules.now (sieve_of winning.level) winning.lottery }
    ensures none { IsNone result → (blocked : Blocked) → answer.now ≡ Answer.Infeasible blocked → (lottery : List Piece) → ¬ (Fits rules.now EveryPair lottery) }
{
    match answer {
        Answer::Lottery(winning) => check_lottery(rules, winning, scratch),
        Answer::Infeasible(blocked) => check_cut(rules, blocked),
    }
}
