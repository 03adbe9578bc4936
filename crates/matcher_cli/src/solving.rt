// The solution of the rules of the files of a folder.
ghost use Rattle.std.specs.Prelude.{◌≡◌, ◌≢◌, ◌⊎◌, ◌≤◌, IsSome};
ghost use Rattle.edge_io.specs.Counts.{HasCause, Rose};
ghost use Rattle.edge_io.specs.Files.{told_files};
ghost use Rattle.edge_io.specs.Told.{AddsAll, told};
ghost use Rattle.publication.specs.Certificates.{IsCertificate, IsSpelled, certificate_text};
ghost use Rattle.text_lines.specs.declared.number.TheConstants.{MOST_AMOUNT};
ghost use Rattle.matcher_cli.specs.FolderRules.{rules_in};
ghost use Rattle.matcher_cli.specs.Solving.{IsSolved, IsSolvedExactly, Solves, SolvesRules, status_of};

use crate::folder_rules::tell_fault;
use crate::status::Status;
use edge_io::{Folder, Io, Sink};
use editions::load;
use match_rules::{Answer, Mode, Rules};
use publication::{write_answer, write_rules};
use solve_line::{Verdict, solve};
use std::alloc::Global;

// A law: a number of 64 bits is at most the greatest that a text has.
fn is_amount(number: u64)
    ensures { number ≤ MOST_AMOUNT }
{
    let _number = number;
}

/// A law: what the types of an answer keep by themselves.
pub(crate) fn is_spelled(answer: &Answer)
    ensures { IsSpelled answer.now }
{
    match answer {
        Answer::Lottery(winning) => {
            let _pieces = winning.lottery.pieces();
        }
        Answer::Infeasible(blocked) => {
            is_amount(blocked.need);
            is_amount(blocked.room);
        }
    }
}

// Writes rules and their answer.
fn write_both<K: Sink>(rules: &Rules, answer: &Answer, sink: &mut K) -> Result<(), Io>
    requires matching { IsCertificate rules.now answer.now }
    ensures taken { AddsAll (K.taken sink.old) (K.taken sink.new) result (certificate_text rules.now answer.now) }
    ensures cause { HasCause (K.faults sink.old) (K.faults sink.new) result }
{
    write_rules(rules, sink)?;
    write_answer(rules, answer, sink)
}

/// The status of an answer that was written.
pub(crate) fn status_of(answer: &Answer) -> Status
    ensures { result ≡ status_of answer.now }
{
    match answer {
        Answer::Lottery(_) => Status::Done,
        Answer::Infeasible(_) => Status::Infeasible,
    }
}

// Writes a verdict.
fn write_verdict<K: Sink>(verdict: &Verdict, sink: &mut K) -> Status
    ensures solves { SolvesRules result verdict.now.rules verdict.now.mode (told (K.taken sink.old)) (K.taken sink.new) }
    ensures cause { result ≡ Status.WriteFault → Rose (K.faults sink.old) (K.faults sink.new) }
    ensures exact { IsSolved verdict.now.rules result }
    ensures written { (result ≢ Status.ReadFault) × (result ≢ Status.Memory) }
{
    let rules = verdict.rules();
    let answer = verdict.answer();
    // The rules and the answer keep their conditions.
    let _pairs = rules.pairs();
    is_spelled(answer);
    match write_both(rules, answer, sink) {
        Ok(()) => status_of(answer),
        Err(_) => Status::WriteFault,
    }
}

// Solves rules, and writes them and what they came to.
fn solve_rules<K: Sink>(alloc: Global, rules: Rules, mode: Mode, sink: &mut K) -> Status
    ensures solves { SolvesRules result rules mode (told (K.taken sink.old)) (K.taken sink.new) }
    ensures exact { IsSolved rules result }
    ensures cause { result ≡ Status.WriteFault → Rose (K.faults sink.old) (K.faults sink.new) }
    ensures quiet { (result ≡ Status.ReadFault) ⊎ (result ≡ Status.Memory) → K.taken sink.new ≡ K.taken sink.old }
{
    match solve(alloc, rules, mode) {
        Ok(verdict) => write_verdict(&verdict, sink),
        Err(_) => Status::Memory,
    }
}

/// Writes the rules of the files of a folder and what they came to in a mode, or the line of what is wrong with
/// them.
pub(crate) fn serve_solution<F: Folder, K: Sink>(
    alloc: Global,
    mode: Mode,
    folder: &mut F,
    sink: &mut K,
) -> Status
    ensures solves { IsSome (F.files folder.new) → Solves result (told_files (F.files folder.old)) mode (told (K.taken sink.old)) (K.taken sink.new) }
    ensures exact { IsSome (F.files folder.new) → IsSolvedExactly (rules_in (told_files (F.files folder.old))) result }
    ensures usage { result ≢ Status.Usage }
    ensures unkept { result ≢ Status.KeeperFault }
    ensures undamaged { result ≢ Status.Damaged }
    ensures read_fault { result ≡ Status.ReadFault → Rose (F.faults folder.old) (F.faults folder.new) }
    ensures write_fault { result ≡ Status.WriteFault → Rose (K.faults sink.old) (K.faults sink.new) }
    ensures quiet { (result ≡ Status.ReadFault) ⊎ (result ≡ Status.Memory) → K.taken sink.new ≡ K.taken sink.old }
{
    match load(alloc, folder) {
        Ok(edited) => solve_rules(alloc, edited.rules, mode, sink),
        Err(fault) => tell_fault(&fault, sink),
    }
}
