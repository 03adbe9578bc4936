// From rules to their verdict.

ghost use Rattle.std.specs.Prelude.{◌≡◌, ◌↔◌, IfErr, IfOk};
ghost use Rattle.match_rules.specs.declared.answer.Mode.TheVariants.{Whole, Fair};
ghost use Rattle.match_rules.specs.declared.answer.Sieve.TheVariants.{All as EveryPair};
ghost use Rattle.match_rules.specs.Answers.{CutIsViolated};
ghost use Rattle.match_rules.specs.Assignments.{Best};
ghost use Rattle.match_rules.specs.Plain.{Plain};
ghost use Rattle.match_rules.specs.Thresholds.{CanFit, HasLevel, sieve_of};
ghost use Rattle.fair_threshold.specs.Search.{NoShares};
ghost use Rattle.solve_line.specs.Verdicts.{IfLottery, IsInfeasible, IsLevelFor, IsLottery, IsVerdict, IsWon, NoneFits};

use crate::blocking::{block, count};
use crate::verdict::{Unsolved, Verdict};
use crate::winning::{sieve_of, win};
use bounded_network::{Amounts, compile};
use fair_threshold::{FoundLevel, level_of};
use flow_solver::{Solution, solve as solve_network};
use match_rules::{Answer, Level, Mode, Rules, Sieve, Winning};
use std::alloc::{AllocError, Global};

// The answer of the mode whole.
fn solve_whole(alloc: Global, rules: &Rules) -> Result<Answer, AllocError>
    requires plain { Plain rules.now }
    ensures { IfOk result (IsVerdict rules.now Whole) }
{
    let network = compile(alloc, rules, Sieve::All, Amounts::Tickets)?;
    match solve_network(alloc, &network)? {
        Solution::Solved { flow, potentials } => {
            let winning = win(
                alloc,
                rules,
                Mode::Whole,
                Level::Unasked,
                &flow,
                &potentials,
            )?;
            Ok(Answer::Lottery(winning))
        }
        Solution::Unsat { marks } => {
            let blocked = block(alloc, rules, &marks)?;
            Ok(Answer::Infeasible(blocked))
        }
    }
}

// The lottery of a level at which shares fit.
fn solve_level(alloc: Global, rules: &Rules, level: Level) -> Result<Winning, AllocError>
    requires plain { Plain rules.now }
    requires level { IsLevelFor rules.now Fair level }
    requires some { ¬ (NoShares rules.now (sieve_of level)) }
    ensures { IfOk result (IsWon rules.now Fair) }
{
    let network = compile(alloc, rules, sieve_of(&level), Amounts::Tickets)?;
    match solve_network(alloc, &network)? {
        Solution::Solved { flow, potentials } => {
            win(alloc, rules, Mode::Fair, level, &flow, &potentials)
        }
        Solution::Unsat { marks: _marks } => unreachable!(),
    }
}

// The answer of the mode fair.
fn solve_fair(alloc: Global, rules: &Rules) -> Result<Answer, AllocError>
    requires plain { Plain rules.now }
    ensures { IfOk result (IsVerdict rules.now Fair) }
{
    // The rules keep their conditions.
    let _pairs = rules.pairs();
    match level_of(alloc, rules)? {
        FoundLevel::Free => {
            let winning = solve_level(alloc, rules, Level::Free)?;
            Ok(Answer::Lottery(winning))
        }
        FoundLevel::At {
            score,
            shares: _shares,
            cut,
        } => {
            let winning = solve_level(alloc, rules, Level::At { score, cut })?;
            Ok(Answer::Lottery(winning))
        }
        FoundLevel::NoneFits { cut } => Ok(Answer::Infeasible(count(rules, Mode::Fair, cut))),
    }
}

// The answer of a mode.
fn solve_mode(alloc: Global, rules: &Rules, mode: Mode) -> Result<Answer, AllocError>
    requires plain { Plain rules.now }
    ensures { IfOk result (IsVerdict rules.now mode) }
{
    match mode {
        Mode::Whole => solve_whole(alloc, rules),
        Mode::Fair => solve_fair(alloc, rules),
    }
}

/// The verdict on rules in a mode: a best lottery exactly where some lottery fits, else a cut that shows that none does. In the
/// mode fair the lottery is best among those under the greatest feasible threshold. Where memory was wanting the rules are
/// handed back.
///
/// The mode whole costs one least-cost flow of the rules and the pieces; the mode fair costs `fair_threshold::level_of` beside.
pub fn solve(alloc: Global, rules: Rules, mode: Mode) -> Result<Verdict, Unsolved>
    requires plain { Plain rules }

    // The verdict is on these rules, in this mode.
    ensures rules { IfOk result (λ verdict. verdict.rules ≡ rules) }
    ensures mode { IfOk result (λ verdict. verdict.mode ≡ mode) }
    ensures verdict { IfOk result (λ verdict. IsVerdict rules mode verdict.answer) }

    // A lottery comes exactly where some lottery fits, in either mode.
    ensures feasible { IfOk result (λ verdict. IsLottery verdict.answer ↔ CanFit rules EveryPair) }
    ensures infeasible { IfOk result (λ verdict. IsInfeasible verdict.answer ↔ NoneFits rules) }

    // No lottery of any size under the sieve of its level has more for each ticket; in the mode whole, none at all.
    ensures best { IfOk result (λ verdict. IfLottery verdict.answer (λ winning. Best rules (sieve_of winning.level) winning.lottery)) }
    ensures whole { IfOk result (λ verdict. mode ≡ Whole → IfLottery verdict.answer (λ winning. Best rules EveryPair winning.lottery)) }

    // In the mode fair the level is the threshold of the rules, and a cut shows that nothing fits above it.
    ensures level { IfOk result (λ verdict. mode ≡ Fair → IfLottery verdict.answer (λ winning. HasLevel rules winning.level)) }
    ensures above { IfOk result (λ verdict. mode ≡ Fair → IfLottery verdict.answer (λ winning. CutIsViolated rules winning.level)) }

    ensures back { IfErr result (λ unsolved. unsolved.rules ≡ rules) }
{
    // The rules keep their conditions.
    let _pairs = rules.pairs();
    match solve_mode(alloc, &rules, mode) {
        Ok(answer) => Ok(Verdict {
            rules,
            mode,
            answer,
        }),
        Err(_) => Err(Unsolved { rules }),
    }
}
