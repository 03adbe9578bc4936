// A made conference: the rules of its files, and what they come to.
ghost use Rattle.std.specs.Prelude.{◌≡◌, ◌≢◌, ◌≤◌, IfOk};
ghost use Rattle.edge_io.specs.Counts.{Rose};
ghost use Rattle.edge_io.specs.Told.{told};
ghost use Rattle.made_conference.specs.declared.pairs.TheConstants.{MOST_BLOCKS};
ghost use Rattle.made_conference.specs.Tables.{made_files};
ghost use Rattle.matcher_cli.specs.Making.{Makes, MakesRules, line_due, made_rules};
ghost use Rattle.matcher_cli.specs.Solving.{IsSolved, IsSolvedExactly};

use crate::folder_rules::tell_fault;
use crate::lines::valid_line;
use crate::made_line::made_line;
use crate::solving::{is_spelled, status_of};
use crate::status::Status;
use crate::sure_folder::SureFolder;
use edge_io::{Sink, write_all};
use editions::load;
use made_conference::made_folder;
use match_rules::{Answer, Mode, Rules, Scratch};
use publication::check;
use solve_line::{Verdict, solve};
use std::alloc::{AllocError, Global};
use text_lines::LineBuffer;

// The line that is due for what the rules of a made conference came to.
fn line_due(seed: u32, size: u32, rules: &Rules, answer: &Answer) -> LineBuffer
    ensures { result ≡ line_due seed size rules.now answer.now }
{
    match answer {
        Answer::Lottery(winning) => made_line(seed, size, rules, &winning.total),
        Answer::Infeasible(_) => valid_line(answer),
    }
}

// Writes the line of a verdict.
fn write_made<K: Sink>(seed: u32, size: u32, verdict: &Verdict, sink: &mut K) -> Status
    requires { verdict.now.mode ≡ Mode.Whole }
    ensures makes { MakesRules result seed size verdict.now.rules (told (K.taken sink.old)) (K.taken sink.new) }
    ensures exact { IsSolved verdict.now.rules result }
    ensures cause { result ≡ Status.WriteFault → Rose (K.faults sink.old) (K.faults sink.new) }
    ensures written { result ≢ Status.Memory }
{
    let rules = verdict.rules();
    let answer = verdict.answer();
    // The rules and the answer keep their conditions.
    let _pairs = rules.pairs();
    is_spelled(answer);
    match write_all(sink, line_due(seed, size, rules, answer).as_slice()) {
        Ok(()) => status_of(answer),
        Err(_) => Status::WriteFault,
    }
}

// Checks a verdict, which breaks no clause, and writes its line.
fn tell_verdict<K: Sink>(
    alloc: Global,
    seed: u32,
    size: u32,
    verdict: &Verdict,
    sink: &mut K,
) -> Status
    requires { verdict.now.mode ≡ Mode.Whole }
    ensures makes { MakesRules result seed size verdict.now.rules (told (K.taken sink.old)) (K.taken sink.new) }
    ensures exact { IsSolved verdict.now.rules result }
    ensures cause { result ≡ Status.WriteFault → Rose (K.faults sink.old) (K.faults sink.new) }
    ensures quiet { result ≡ Status.Memory → K.taken sink.new ≡ K.taken sink.old }
{
    let rules = verdict.rules();
    let answer = verdict.answer();
    let Ok(mut scratch) = Scratch::new(alloc, rules) else {
        return Status::Memory;
    };
    match check(rules, answer, &mut scratch) {
        None => write_made(seed, size, verdict, sink),
        Some(_) => unreachable!(),
    }
}

// Solves the rules of a made conference, and says what they came to.
fn make_rules<K: Sink>(alloc: Global, seed: u32, size: u32, rules: Rules, sink: &mut K) -> Status
    ensures makes { MakesRules result seed size rules (told (K.taken sink.old)) (K.taken sink.new) }
    ensures exact { IsSolved rules result }
    ensures cause { result ≡ Status.WriteFault → Rose (K.faults sink.old) (K.faults sink.new) }
    ensures quiet { result ≡ Status.Memory → K.taken sink.new ≡ K.taken sink.old }
{
    match solve(alloc, rules, Mode::Whole) {
        Ok(verdict) => tell_verdict(alloc, seed, size, &verdict, sink),
        Err(_) => Status::Memory,
    }
}

// The files of a made conference.
fn made_files(alloc: Global, seed: u32, size: u32) -> Result<SureFolder, AllocError>
    requires { size ≤ MOST_BLOCKS }
    ensures { IfOk result (λ folder. folder ≡ made_files seed size) }
{
    let folder = made_folder(alloc, u64::from(seed), size)?;
    Ok(SureFolder::new(folder))
}

// Loads the files of a made conference, and says what their rules came to.
fn make_folder<K: Sink>(
    alloc: Global,
    seed: u32,
    size: u32,
    files: SureFolder,
    sink: &mut K,
) -> Status
    requires { files ≡ made_files seed size }
    ensures makes { Makes result seed size (made_rules seed size) (told (K.taken sink.old)) (K.taken sink.new) }
    ensures exact { IsSolvedExactly (made_rules seed size) result }
    ensures cause { result ≡ Status.WriteFault → Rose (K.faults sink.old) (K.faults sink.new) }
    ensures quiet { result ≡ Status.Memory → K.taken sink.new ≡ K.taken sink.old }
{
    let mut folder = files;
    match load(alloc, &mut folder) {
        Ok(edited) => make_rules(alloc, seed, size, edited.rules, sink),
        Err(fault) => tell_fault(&fault, sink),
    }
}

/// Makes the files of a conference in memory, and writes the line of what their rules have and of the total of a best lottery of
/// them, the line of a cut that shows that no lottery fits, or the line of what is wrong with the files.
pub(crate) fn serve_making<K: Sink>(alloc: Global, seed: u32, size: u32, sink: &mut K) -> Status
    requires { size ≤ MOST_BLOCKS }
    ensures makes { Makes result seed size (made_rules seed size) (told (K.taken sink.old)) (K.taken sink.new) }
    ensures exact { IsSolvedExactly (made_rules seed size) result }
    ensures usage { result ≢ Status.Usage }
    ensures unkept { result ≢ Status.KeeperFault }
    ensures undamaged { result ≢ Status.Damaged }
    ensures unread { result ≢ Status.ReadFault }
    ensures write_fault { result ≡ Status.WriteFault → Rose (K.faults sink.old) (K.faults sink.new) }
    ensures quiet { result ≡ Status.Memory → K.taken sink.new ≡ K.taken sink.old }
{
    match made_files(alloc, seed, size) {
        Ok(files) => make_folder(alloc, seed, size, files, sink),
        Err(_) => Status::Memory,
    }
}
