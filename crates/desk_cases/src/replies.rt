//! Replies, as they are printed.

use crate::outcomes::{mode_word, print_outcome};
use crate::refusals::print_refusal;
use anyhow::bail;
use desk_history::{Answered, PairIds, Refusal, Snapshot};
use edge_io::{Io, SureSink};
use match_rules::{Answer, Level, Piece, Rules, Winning};
use publication::{Certificate, write_rules};
use std::str;

fn print_rules(rt: &HostRuntime, rules: &Rules) -> anyhow::Result<()> {
    let mut sink = SureSink::new(rt.alloc());
    if write_rules(rules, &mut sink) == Err(Io::Failed) {
        bail!("writing failed");
    }
    print!(rt; "{}", str::from_utf8(sink.bytes())?)?;
    Ok(())
}

/// Prints a piece, and ends the line.
pub(crate) fn print_piece(rt: &HostRuntime, piece: &Piece) -> anyhow::Result<()> {
    print!(rt; "piece {}", piece.weight)?;
    for pair in piece.pairs.as_slice() {
        print!(rt; " {pair}")?;
    }
    println!(rt; "")?;
    Ok(())
}

fn print_level(rt: &HostRuntime, level: &Level) -> anyhow::Result<()> {
    match level {
        Level::Unasked => println!(rt; "threshold none")?,
        Level::Free => println!(rt; "threshold free")?,
        Level::At { score, .. } => println!(rt; "threshold {score}")?,
    }
    Ok(())
}

fn print_lottery(rt: &HostRuntime, winning: &Winning) -> anyhow::Result<()> {
    println!(rt;
        "lottery {} total {}",
        mode_word(winning.mode),
        winning.total
    )?;
    print_level(rt, &winning.level)?;
    for piece in winning.lottery.pieces() {
        print_piece(rt, piece)?;
    }
    Ok(())
}

fn print_certificate(rt: &HostRuntime, certificate: &Certificate) -> anyhow::Result<()> {
    print_rules(rt, &certificate.rules)?;
    match &certificate.answer {
        Answer::Lottery(winning) => print_lottery(rt, winning),
        Answer::Infeasible(blocked) => {
            println!(rt;
                "infeasible {} need {} room {}",
                mode_word(blocked.mode),
                blocked.need,
                blocked.room
            )?;
            Ok(())
        }
    }
}

fn print_pairs(rt: &HostRuntime, pairs: &[PairIds]) -> anyhow::Result<()> {
    print!(rt; "pairs")?;
    for pair in pairs {
        print!(rt; " {},{}", pair.paper.text(), pair.reviewer.text())?;
    }
    println!(rt; "")?;
    Ok(())
}

fn print_taken(rt: &HostRuntime, given: &Snapshot) -> anyhow::Result<()> {
    println!(rt;
        "taken job {} edition {} {}",
        given.job,
        given.edition,
        mode_word(given.mode)
    )?;
    Ok(())
}

// What a command or an end is answered.
fn print_done(rt: &HostRuntime, answered: &Answered) -> anyhow::Result<()> {
    match answered {
        Answered::Edited { edition } => println!(rt; "edited edition {edition}")?,
        Answered::Submitted { job } => println!(rt; "submitted job {job}")?,
        Answered::Published { publication } => println!(rt; "published {publication}")?,
        Answered::Drawn {
            publication,
            ticket,
        } => println!(rt; "drawn of {publication} ticket {ticket}")?,
        Answered::Released { job } => println!(rt; "released job {job}")?,
        Answered::Finished { job, outcome } => {
            print!(rt; "finished job {job} ")?;
            print_outcome(rt, *outcome)?;
        }
        _ => {}
    }
    Ok(())
}

fn print_answered(rt: &HostRuntime, answered: &Answered) -> anyhow::Result<()> {
    match answered {
        Answered::Edition { edition } => println!(rt; "edition {edition}")?,
        Answered::Rules(rules) => print_rules(rt, rules)?,
        Answered::Job {
            job,
            edition,
            mode,
            outcome,
        } => {
            print!(rt; "job {job} edition {edition} {} ", mode_word(*mode))?;
            print_outcome(rt, *outcome)?;
        }
        Answered::Certificate(certificate) => print_certificate(rt, certificate)?,
        Answered::Pairs { pairs } => print_pairs(rt, pairs.as_slice())?,
        Answered::Taken(given) => print_taken(rt, given)?,
        _ => print_done(rt, answered)?,
    }
    Ok(())
}

/// Prints what a request is answered.
pub(crate) fn print_reply(
    rt: &HostRuntime,
    reply: &Result<Answered, Refusal>,
) -> anyhow::Result<()> {
    match reply {
        Ok(answered) => print_answered(rt, answered),
        Err(refusal) => print_refusal(rt, refusal),
    }
}
