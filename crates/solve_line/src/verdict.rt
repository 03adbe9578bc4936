// What rules came to.

ghost use Rattle.std.specs.Prelude.{◌≡◌};
ghost use Rattle.match_rules.specs.Answers.{AnswerMatches};
ghost use Rattle.match_rules.specs.Assignments.{Best};
ghost use Rattle.match_rules.specs.Thresholds.{sieve_of};
ghost use Rattle.solve_line.specs.Verdicts.{IfLottery, IsVerdict};

use match_rules::{Answer, Mode, Rules};
use std::marker::Model;

/// Rules, and what they came to in a mode: a certified lottery, or a cut that shows that no lottery fits.
#[derive(Drop)]
pub struct Verdict {
    pub(crate) rules: Rules,
    pub(crate) mode: Mode,
    pub(crate) answer: Answer,
}

impl Model for Verdict {
    ghost use Rattle.solve_line.specs.Verdicts.{VerdictValue, IsVerdict};

    ghost Value = { VerdictValue };

    ghost view = { λ v. record { rules = v.rules; mode = v.mode; answer = v.answer } };

    ghost invariant = { λ v. IsVerdict v.rules v.mode v.answer };
}

impl Verdict {
    /// The rules.
    pub fn rules(&self) -> &Rules
        ensures { result.now ≡ self.now.rules }
    {
        &self.rules
    }

    /// The mode.
    pub fn mode(&self) -> Mode
        ensures { result ≡ self.now.mode }
    {
        self.mode
    }

    /// The answer. A lottery is best: no lottery of any size under the sieve of its level has more for each ticket.
    pub fn answer(&self) -> &Answer
        ensures value { result.now ≡ self.now.answer }
        ensures verdict { IsVerdict self.now.rules self.now.mode result.now }
        ensures matching { AnswerMatches self.now.rules result.now }
        ensures best { IfLottery result.now (λ winning. Best self.now.rules (sieve_of winning.level) winning.lottery) }
    {
        // The rules keep their conditions.
        let _pairs = self.rules.pairs();
        &self.answer
    }

    /// The rules and the answer, without taking memory.
    pub fn into_parts(self) -> (Rules, Answer)
        ensures rules { result.0 ≡ self.rules }
        ensures answer { result.1 ≡ self.answer }
        ensures verdict { IsVerdict result.0 self.mode result.1 }
    {
        (self.rules, self.answer)
    }
}

/// Memory was wanting: the rules are handed back.
#[derive(Drop)]
pub struct Unsolved {
    /// The rules.
    pub rules: Rules,
}
