//! Writes the reports of each certificate of its standard input: shares, loads, papers, institutions, and ticket 7000. A line
//! `case` stands before each certificate.
#![tactic(auto)]

ghost use Rattle.std.specs.Prelude.{◌≡◌};
ghost use Rattle.match_rules.specs.Answers.{WinningMatches};
ghost use Rattle.match_rules.specs.Assignments.{tickets};
ghost use Rattle.publication.specs.Certificates.{IsCertificate};
ghost use Rattle.reports.specs.Reports.{IsAskedOf};

use anyhow::bail;
use edge_io::{Sink, SureSource, WriteSink};
use match_rules::{Answer, Rules, Scratch, Winning};
use publication::{Certificate, check, read_certificate};
use reports::{Report, report};
use std::alloc::Global;
use std::io::Read;
use std::str;

fn show<K: Sink>(
    alloc: Global,
    rules: &Rules,
    winning: &Winning,
    what: Report,
    sink: &mut K,
) -> anyhow::Result<()>
    requires matching { WinningMatches rules.now winning.now }
    requires ticket { IsAskedOf winning.now.lottery what }
{
    match report(alloc, rules, winning, what, sink) {
        Ok(()) => Ok(()),
        Err(_) => bail!("a report could not be written"),
    }
}

fn show_all<K: Sink>(
    alloc: Global,
    rules: &Rules,
    winning: &Winning,
    sink: &mut K,
) -> anyhow::Result<()>
    requires matching { WinningMatches rules.now winning.now }
    requires tickets { tickets winning.now.lottery ≡ 10000 }
{
    show(alloc, rules, winning, Report::Shares, sink)?;
    show(alloc, rules, winning, Report::Loads, sink)?;
    show(alloc, rules, winning, Report::Papers, sink)?;
    show(alloc, rules, winning, Report::Institutions, sink)?;
    show(
        alloc,
        rules,
        winning,
        Report::Ticket { ticket: 7_000 },
        sink,
    )
}

// The reports of a certificate, of which no clause may be broken.
fn show_certificate<K: Sink>(
    alloc: Global,
    certificate: &Certificate,
    sink: &mut K,
) -> anyhow::Result<()>
    requires { IsCertificate certificate.now.rules certificate.now.answer }
{
    let rules = &certificate.rules;
    let mut scratch = Scratch::new(alloc, rules)?;
    if check(rules, &certificate.answer, &mut scratch).is_some() {
        bail!("a clause is broken");
    }
    match &certificate.answer {
        Answer::Lottery(winning) => show_all(alloc, rules, winning, sink),
        Answer::Infeasible(_) => bail!("there is no lottery"),
    }
}

fn show_text(rt: &HostRuntime, text: &str) -> anyhow::Result<()> {
    let alloc = rt.alloc();
    let bytes = Vec::from_slice(alloc, text.as_bytes())?;
    let Ok(certificate) = read_certificate(alloc, &mut SureSource::new(bytes)) else {
        bail!("a certificate can't be read");
    };
    show_certificate(alloc, &certificate, &mut WriteSink::new(rt.stdout()))
}

fn run(rt: &HostRuntime) -> anyhow::Result<()> {
    let mut bytes = Vec::new(rt.alloc());
    rt.stdin().read_to_end(&mut bytes)?;
    for text in str::from_utf8(bytes.as_slice())?.split("case\n").skip(1) {
        show_text(rt, text)?;
    }
    Ok(())
}

fn main(rt: HostRuntime) -> anyhow::Result<()> {
    run(&rt)
}
