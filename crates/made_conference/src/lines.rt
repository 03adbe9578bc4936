// The lines of the tables of a made conference, put together without taking memory.
ghost use Rattle.std.specs.Prelude.{◌≡◌, ◌+◌, ◌≤◌, ◌++◌, ◌∷◌, [], length};
ghost use Rattle.text_lines.specs.Texts.{line_of};
ghost use Rattle.made_conference.specs.Rows.{four_digits, last_digit, paper_id, reviewer_id, institution_id, value_text, paper_row, reviewer_row, value_row, bid_row};

use crate::bids::{Bid, bid_word};
use crate::pairs::MadePair;
use text_lines::LineBuffer;

fn last_digit(number: u32) -> u8
    ensures { result ≡ last_digit number }
{
    b'0' + (number % 10) as u8
}

#[tactic(auto, unfolding(crate::specs::Rows::four_digits))]
fn four_digits(number: u32) -> [u8; 4]
    ensures { result ≡ four_digits number }
{
    [
        last_digit(number / 1_000),
        last_digit(number / 100),
        last_digit(number / 10),
        last_digit(number),
    ]
}

#[tactic(auto, unfolding(crate::specs::Rows::paper_id))]
fn push_paper(line: &mut LineBuffer, paper: u32)
    requires { length line.old ≤ 100 }
    ensures text { line.new ≡ line.old ++ paper_id paper }
    ensures size { length line.new ≡ length line.old + 5 }
{
    line.push(b"p");
    line.push(&four_digits(paper));
}

#[tactic(auto, unfolding(crate::specs::Rows::reviewer_id))]
fn push_reviewer(line: &mut LineBuffer, reviewer: u32)
    requires { length line.old ≤ 100 }
    ensures text { line.new ≡ line.old ++ reviewer_id reviewer }
    ensures size { length line.new ≡ length line.old + 5 }
{
    line.push(b"r");
    line.push(&four_digits(reviewer));
}

#[tactic(auto, unfolding(crate::specs::Rows::institution_id))]
fn push_institution(line: &mut LineBuffer, number: u32)
    requires { length line.old ≤ 100 }
    ensures text { line.new ≡ line.old ++ institution_id number }
    ensures few { length line.new ≤ length line.old + 21 }
{
    line.push(b"i");
    line.push_number(u64::from(number % 9));
}

#[tactic(auto, unfolding(crate::specs::Rows::value_text))]
fn push_value(line: &mut LineBuffer, value: u32)
    requires { length line.old ≤ 100 }
    ensures text { line.new ≡ line.old ++ value_text value }
    ensures few { length line.new ≤ length line.old + 25 }
{
    line.push_number(u64::from(value / 10_000));
    line.push(b".");
    line.push(&four_digits(value));
}

// A line that begins with a paper and a reviewer, each with its comma.
fn begun_with(pair: &MadePair) -> LineBuffer
    ensures text { result ≡ paper_id pair.now.paper ++ (44 ∷ (reviewer_id pair.now.reviewer ++ (44 ∷ []))) }
    ensures size { length result ≡ 12 }
{
    let mut line = LineBuffer::new();
    push_paper(&mut line, pair.paper);
    line.push(b",");
    push_reviewer(&mut line, pair.reviewer);
    line.push(b",");
    line
}

/// The line of a paper.
pub(crate) fn paper_line(paper: u32) -> LineBuffer
    ensures { result ≡ line_of (paper_row paper) }
{
    let mut line = LineBuffer::new();
    push_paper(&mut line, paper);
    line.push(b",,");
    push_institution(&mut line, paper);
    line.push(b"\n");
    line
}

/// The line of a reviewer.
pub(crate) fn reviewer_line(reviewer: u32) -> LineBuffer
    ensures { result ≡ line_of (reviewer_row reviewer) }
{
    let mut line = LineBuffer::new();
    push_reviewer(&mut line, reviewer);
    line.push(b",");
    push_institution(&mut line, reviewer);
    line.push(b",,\n");
    line
}

/// The line of a pair's value.
pub(crate) fn value_line(pair: &MadePair) -> LineBuffer
    ensures { result ≡ line_of (value_row pair.now) }
{
    let mut line = begun_with(pair);
    push_value(&mut line, pair.value);
    line.push(b"\n");
    line
}

/// The line of a pair's bid.
pub(crate) fn bid_line(pair: &MadePair, bid: Bid) -> LineBuffer
    ensures { result ≡ line_of (bid_row pair.now bid) }
{
    let mut line = begun_with(pair);
    line.push(bid_word(bid).as_bytes());
    line.push(b"\n");
    line
}
