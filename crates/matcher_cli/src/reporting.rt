// The report of a certificate.
ghost use Rattle.std.specs.Prelude.{◌≡◌, ◌≢◌, ◌⊎◌, [], None, IsSome};
ghost use Rattle.edge_io.specs.Counts.{Rose};
ghost use Rattle.edge_io.specs.Told.{told};
ghost use Rattle.command_words.specs.Commands.{IsReportWithin};
ghost use Rattle.match_rules.specs.Answers.{Certified};
ghost use Rattle.match_rules.specs.Rules.{AreRules};
ghost use Rattle.publication.specs.Certificates.{IsCertificate};
ghost use Rattle.publication.specs.Checks.{check_break_of, Holds};
ghost use Rattle.reports.specs.Reports.{report_text};
ghost use Rattle.matcher_cli.specs.Reporting.{IsReportedExactly, Reports, ReportsAnswer};
ghost use Rattle.matcher_cli.specs.Verdicts.{FrontWritten, Written};

use crate::lines::{broken_line, valid_line};
use crate::status::Status;
use crate::text_refusals::tell_refusal;
use edge_io::{Sink, Source, write_all};
use match_rules::{Answer, Rules, Scratch, Winning};
use publication::{check, read_certificate};
use reports::{Report, ReportFault, report};
use std::alloc::Global;

// Writes the report of a certified lottery.
fn write_report<K: Sink>(
    alloc: Global,
    rules: &Rules,
    winning: &Winning,
    what: Report,
    sink: &mut K,
) -> Status
    requires rules { AreRules rules.now }
    requires certified { Certified rules.now winning.now.mode winning.now }
    requires ticket { IsReportWithin what }
    ensures status { (result ≡ Status.Done) ⊎ ((result ≡ Status.WriteFault) ⊎ (result ≡ Status.Memory)) }
    ensures written { result ≡ Status.Done → Written (told (K.taken sink.old)) (K.taken sink.new) (report_text rules.now winning.now what) }
    ensures front { result ≡ Status.WriteFault → FrontWritten (told (K.taken sink.old)) (K.taken sink.new) (report_text rules.now winning.now what) }
    ensures cause { result ≡ Status.WriteFault → Rose (K.faults sink.old) (K.faults sink.new) }
    ensures quiet { result ≡ Status.Memory → K.taken sink.new ≡ K.taken sink.old }
{
    match report(alloc, rules, winning, what, sink) {
        Ok(()) => Status::Done,
        Err(ReportFault::WriteFault) => Status::WriteFault,
        Err(ReportFault::Memory) => Status::Memory,
    }
}

// Writes what is due for an answer that breaks no clause.
fn report_valid<K: Sink>(
    alloc: Global,
    rules: &Rules,
    answer: &Answer,
    what: Report,
    sink: &mut K,
) -> Status
    requires rules { AreRules rules.now }
    requires unbroken { check_break_of rules.now answer.now ≡ None }
    requires valid { Holds rules.now answer.now }
    requires ticket { IsReportWithin what }
    ensures reports { ReportsAnswer result what rules.now answer.now (told (K.taken sink.old)) (K.taken sink.new) }
    ensures cause { result ≡ Status.WriteFault → Rose (K.faults sink.old) (K.faults sink.new) }
    ensures quiet { (result ≡ Status.ReadFault) ⊎ (result ≡ Status.Memory) → K.taken sink.new ≡ K.taken sink.old }
{
    match answer {
        Answer::Lottery(winning) => write_report(alloc, rules, winning, what, sink),
        Answer::Infeasible(_) => match write_all(sink, valid_line(answer).as_slice()) {
            Ok(()) => Status::Infeasible,
            Err(_) => Status::WriteFault,
        },
    }
}

// Writes what is due for rules and an answer, which it checks first.
fn report_answer<K: Sink>(
    alloc: Global,
    rules: &Rules,
    answer: &Answer,
    what: Report,
    sink: &mut K,
) -> Status
    requires certificate { IsCertificate rules.now answer.now }
    requires ticket { IsReportWithin what }
    ensures reports { ReportsAnswer result what rules.now answer.now (told (K.taken sink.old)) (K.taken sink.new) }
    ensures cause { result ≡ Status.WriteFault → Rose (K.faults sink.old) (K.faults sink.new) }
    ensures quiet { (result ≡ Status.ReadFault) ⊎ (result ≡ Status.Memory) → K.taken sink.new ≡ K.taken sink.old }
{
    let Ok(mut scratch) = Scratch::new(alloc, rules) else {
        return Status::Memory;
    };
    match check(rules, answer, &mut scratch) {
        None => report_valid(alloc, rules, answer, what, sink),
        Some(broken) => match write_all(sink, broken_line(&broken).as_slice()) {
            Ok(()) => Status::Broken,
            Err(_) => Status::WriteFault,
        },
    }
}

/// Reads a certificate, checks it, and writes a report of its lottery, the line of the first clause that it breaks, or the line of
/// the cut that shows that no lottery fits.
pub(crate) fn serve_report<S: Source, K: Sink>(
    alloc: Global,
    what: Report,
    source: &mut S,
    sink: &mut K,
) -> Status
    requires { IsReportWithin what }
    ensures reports { IsSome (S.left source.new) → Reports result what (told (S.left source.old)) (told (K.taken sink.old)) (K.taken sink.new) }
    ensures exact { IsSome (S.left source.new) → IsReportedExactly (told (S.left source.old)) result }
    ensures end { IsSome (S.left source.new) → (result ≡ Status.Done) ⊎ ((result ≡ Status.Broken) ⊎ (result ≡ Status.Infeasible)) → told (S.left source.new) ≡ [] }
    ensures usage { result ≢ Status.Usage }
    ensures unkept { result ≢ Status.KeeperFault }
    ensures undamaged { result ≢ Status.Damaged }
    ensures read_fault { result ≡ Status.ReadFault → Rose (S.faults source.old) (S.faults source.new) }
    ensures write_fault { result ≡ Status.WriteFault → Rose (K.faults sink.old) (K.faults sink.new) }
    ensures quiet { (result ≡ Status.ReadFault) ⊎ (result ≡ Status.Memory) → K.taken sink.new ≡ K.taken sink.old }
{
    match read_certificate(alloc, source) {
        Ok(certificate) => report_answer(
            alloc,
            &certificate.rules,
            &certificate.answer,
            what,
            sink,
        ),
        Err(refusal) => tell_refusal(refusal, sink),
    }
}
