// Kept lotteries: they are read and checked again, and trusted in nothing.

ghost use Rattle.std.specs.Prelude.{◌≡◌, ◌↔◌, IfOk, IsTrue};
ghost use Rattle.match_rules.specs.Rules.{AreRules};
ghost use Rattle.publication.specs.Certificates.{IsCertificate};
ghost use Rattle.publication.specs.Checks.{Holds};
ghost use Rattle.desk_history.specs.SameCommands.{is_same_mode};
ghost use Rattle.desk_reopening.specs.Replaying.{Finds, IsKeptLottery, IsReadAs, fault_of_reading, is_lottery_in};

use crate::faults::ReplayFault;
use match_rules::{Answer, Mode, Rules, Scratch};
use publication::{ReadRefusal, check, read_answer};
use std::alloc::{AllocError, Global};

// Rules keep all their conditions, as any part of them tells.
fn keep_conditions(rules: &Rules)
    ensures { AreRules rules.now }
{
    let _limit = rules.limit();
}

fn fault_of_reading(refusal: ReadRefusal) -> ReplayFault
    ensures { result ≡ fault_of_reading refusal }
{
    match refusal {
        ReadRefusal::Memory => ReplayFault::Memory,
        _ => ReplayFault::Damaged,
    }
}

// The answer to these rules whose text this is.
fn read_whole(alloc: Global, rules: &Rules, text: &[u8]) -> Result<Answer, ReplayFault>
    ensures { Finds (IsReadAs rules.now text.now) result }
{
    keep_conditions(rules);
    match read_answer(alloc, rules, text) {
        Ok(answer) => Ok(answer),
        Err(refusal) => Err(fault_of_reading(refusal)),
    }
}

fn is_same_mode(a: Mode, b: Mode) -> bool
    ensures { result ≡ is_same_mode a b }
{
    match (a, b) {
        (Mode::Whole, Mode::Whole) => true,
        (Mode::Fair, Mode::Fair) => true,
        _ => false,
    }
}

fn is_lottery_in(answer: &Answer, mode: Mode) -> bool
    ensures { result ≡ is_lottery_in mode answer.now }
{
    match answer {
        Answer::Lottery(winning) => is_same_mode(winning.mode, mode),
        Answer::Infeasible(_) => false,
    }
}

// Whether an answer breaks no clause of the check.
fn holds(alloc: Global, rules: &Rules, answer: &Answer) -> Result<bool, AllocError>
    requires { IsCertificate rules.now answer.now }
    ensures { IfOk result (λ holds. IsTrue holds ↔ Holds rules.now answer.now) }
{
    let mut scratch = Scratch::new(alloc, rules)?;
    Ok(check(rules, answer, &mut scratch).is_none())
}

/// A lottery of this mode that is certified for these rules, where its text is the whole of the bytes. Takes the memory
/// of the lottery, of a copy of its text, of the scratch of the check and 65,536 bytes.
pub fn read_lottery(
    alloc: Global,
    rules: &Rules,
    mode: Mode,
    text: &[u8],
) -> Result<Answer, ReplayFault>
    ensures { Finds (IsKeptLottery rules.now mode text.now) result }
{
    keep_conditions(rules);
    let answer = match read_whole(alloc, rules, text) {
        Ok(answer) => answer,
        Err(fault) => return Err(fault),
    };
    if !is_lottery_in(&answer, mode) {
        return Err(ReplayFault::Damaged);
    }
    let valid = match holds(alloc, rules, &answer) {
        Ok(valid) => valid,
        Err(_) => return Err(ReplayFault::Memory),
    };
    if valid {
        Ok(answer)
    } else {
        Err(ReplayFault::Damaged)
    }
}
