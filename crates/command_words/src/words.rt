// The command that words ask for.
ghost use Rattle.std.specs.Prelude.{◌≡◌, map, drop, None, Some, [], Err, Ok, IfOk, unwrap_or, codes};
ghost use Rattle.std.specs.String.{string_bytes};
ghost use Rattle.clap.specs.Words.{all_of, rows_of, found_of};
ghost use Rattle.command_words.specs.Chairs.{AreChairs};
ghost use Rattle.command_words.specs.Commands.{command_of, command_of_few, command_of_plain, command_of_three, command_of_two, command_of_word, command_of_words, make_of, mode_of_word, report_of_ticket, report_of_word, session_of, IsWithinLimits};
ghost use Rattle.command_words.specs.Hyphens.{is_plain, are_plain};

use crate::chairs::may_be_chairs;
use crate::found::find_words;
use clap::ArgMatches;
use match_rules::Mode;
use reports::Report;
use std::alloc::Global;
use text_lines::{LineCode, number_from};

/// The greatest seed of a made conference.
pub const MOST_SEED: u32 = 4_294_967_295;

/// The greatest size of a made conference.
pub const MOST_SIZE: u32 = 25;

/// The greatest ticket of a report. A certified lottery has one more.
pub const MOST_TICKET: u32 = 9_999;

/// What a list of words asks for.
#[derive(Clone, Copy)]
pub enum Command {
    /// The check of a certificate.
    Check,
    /// The rules of the current folder.
    Rules,
    /// These rules and a best lottery in a mode, or a cut that shows that none fits.
    Solve(Mode),
    /// A made conference, and the total of a best lottery of it.
    Make {
        /// What its numbers are drawn from.
        seed: u32,
        /// How many blocks it has, from 1 to 25.
        size: u32,
    },
    /// A report of a certified lottery.
    Report(Report),
    /// The desk over a stream of requests. Its chairs are the words behind the first.
    Session,
}

/// Why words were not read.
#[derive(Clone, Copy, Debug, PartialEq, Eq)]
pub enum WordsFault {
    /// The words are taken in no form.
    Usage,
    /// Memory was wanting.
    Memory,
}

fn is_plain(word: &str) -> bool
    ensures { result ≡ is_plain word.now }
{
    match word.as_bytes() {
        [b'-', ..] => false,
        _ => true,
    }
}

fn are_plain(words: &[String]) -> bool
    ensures { result ≡ are_plain (map string_bytes words.now) }
{
    for word in words {
        if !is_plain(word.as_str()) {
            return false;
        }
    }
    true
}

fn command_of_word(word: &str) -> Option<Command>
    ensures { result ≡ command_of_word word.now }
{
    match word {
        "check" => Some(Command::Check),
        "rules" => Some(Command::Rules),
        _ => None,
    }
}

// The mode that a word names.
fn mode_of_word(word: &str) -> Option<Mode>
    ensures { result ≡ mode_of_word word.now }
{
    match word {
        "whole" => Some(Mode::Whole),
        "fair" => Some(Mode::Fair),
        _ => None,
    }
}

// The report that a word names.
fn report_of_word(word: &str) -> Option<Report>
    ensures { result ≡ report_of_word word.now }
{
    match word {
        "shares" => Some(Report::Shares),
        "loads" => Some(Report::Loads),
        "papers" => Some(Report::Papers),
        "institutions" => Some(Report::Institutions),
        _ => None,
    }
}

// The report of a ticket.
fn report_of_ticket(word: &str, number: &str) -> Option<Report>
    ensures { result ≡ report_of_ticket word.now number.now }
{
    match word {
        "ticket" => Some(Report::Ticket {
            ticket: number_from(number, 0, MOST_TICKET).ok()?,
        }),
        _ => None,
    }
}

fn command_of_two(word: &str, other: &str) -> Option<Command>
    ensures { result ≡ command_of_two word.now other.now }
{
    match word {
        "solve" => Some(Command::Solve(mode_of_word(other)?)),
        "report" => Some(Command::Report(report_of_word(other)?)),
        _ => None,
    }
}

// The making of a seed and a size.
fn make_of(seed: Result<u32, LineCode>, size: Result<u32, LineCode>) -> Option<Command>
    ensures { result ≡ make_of seed size }
{
    Some(Command::Make {
        seed: seed.ok()?,
        size: size.ok()?,
    })
}

fn command_of_three(word: &str, other: &str, third: &str) -> Option<Command>
    ensures { result ≡ command_of_three word.now other.now third.now }
{
    match word {
        "make" => make_of(
            number_from(other, 0, MOST_SEED),
            number_from(third, 1, MOST_SIZE),
        ),
        "report" => Some(Command::Report(report_of_ticket(other, third)?)),
        _ => None,
    }
}

fn session_of(chairs: &[&str]) -> Option<Command>
    ensures { result ≡ session_of (map (λ word. word.now) chairs.now) }
{
    if may_be_chairs(chairs) {
        Some(Command::Session)
    } else {
        None
    }
}

fn command_of_few(word: &str, others: &[&str]) -> Option<Command>
    ensures { result ≡ command_of_few word.now (map (λ word. word.now) others.now) }
{
    match others {
        [] => command_of_word(word),
        [other] => command_of_two(word, other),
        [other, third] => command_of_three(word, other, third),
        _ => None,
    }
}

fn command_of_words(word: &str, others: &[&str]) -> Option<Command>
    ensures { result ≡ command_of_words word.now (map (λ word. word.now) others.now) }
{
    match word {
        "session" => session_of(others),
        _ => command_of_few(word, others),
    }
}

fn command_of_plain(words: &[&str]) -> Option<Command>
    ensures { result ≡ command_of_plain (map (λ word. word.now) words.now) }
{
    match words {
        [] => None,
        [word, others @ ..] => command_of_words(word, others),
    }
}

fn command_found(matches: &ArgMatches<'_>) -> Option<Command>
    ensures { result ≡ command_of_plain (unwrap_or (all_of (codes "word") (rows_of (found_of matches.now))) []) }
{
    match matches.get_strs("word") {
        Some(words) => command_of_plain(words),
        None => None,
    }
}

/// The command that the words behind the program's name ask for. No word may be shortened, and there are no options. The words behind
/// `session` are 1 to 16 names of chairs, no two of them equal.
pub fn read_words(alloc: Global, words: &[String]) -> Result<Command, WordsFault>
    ensures taken { IfOk result (λ command. command_of (map string_bytes words.now) ≡ Some command) }
    ensures within { IfOk result IsWithinLimits }
    ensures chairs { result ≡ Ok Command.Session → AreChairs (drop 1 (map string_bytes words.now)) }
    ensures refused { result ≡ Err WordsFault.Usage → command_of (map string_bytes words.now) ≡ None }
{
    if !are_plain(words) {
        return Err(WordsFault::Usage);
    }
    let Ok(matches) = find_words(alloc, words) else {
        return Err(WordsFault::Memory);
    };
    match command_found(&matches) {
        Some(command) => Ok(command),
        None => Err(WordsFault::Usage),
    }
}
