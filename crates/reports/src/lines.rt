// The lines of tables, put together without taking memory.
ghost use Rattle.std.specs.Prelude.{◌≡◌, ◌+◌, ◌<◌, ◌≤◌, true, ◌++◌, ◌∷◌, length, decimal};
ghost use Rattle.std.specs.Fmt.{signed_decimal};
ghost use Rattle.match_rules.specs.Id.{is_id, is_institution};
ghost use Rattle.text_lines.specs.Texts.{line_of};
ghost use Rattle.reports.specs.Tables.{paper_of, reviewer_of};

use match_rules::{RulePair, Rules};
use text_lines::LineBuffer;

/// A line that begins with an id.
pub(crate) fn begun_with(id: &str) -> LineBuffer
    requires { is_id id.now ≡ true }
    ensures text { result ≡ id.now }
    ensures few { length result ≤ 128 }
{
    let mut line = LineBuffer::new();
    line.push(id.as_bytes());
    line
}

/// A line that begins with the name of an institution.
pub(crate) fn begun_with_institution(name: &str) -> LineBuffer
    requires { is_institution name.now ≡ true }
    ensures text { result ≡ name.now }
    ensures few { length result ≤ 128 }
{
    let mut line = LineBuffer::new();
    line.push(name.as_bytes());
    line
}

// One more field of a line: a comma and an id.
fn push_id(line: &mut LineBuffer, id: &str)
    requires room { length line.old ≤ 128 }
    requires id { is_id id.now ≡ true }
    ensures text { line.new ≡ line.old ++ (44 ∷ id.now) }
    ensures few { length line.new ≤ length line.old + 129 }
{
    line.push(b",");
    line.push(id.as_bytes());
}

/// One more field of a line: a comma and a number.
pub(crate) fn push_number(line: &mut LineBuffer, number: u64)
    requires { length line.old ≤ 400 }
    ensures text { line.new ≡ line.old ++ (44 ∷ decimal number) }
    ensures few { length line.new ≤ length line.old + 21 }
{
    line.push(b",");
    line.push_number(number);
}

/// One more field of a line: a comma and a signed number.
pub(crate) fn push_signed(line: &mut LineBuffer, number: i128)
    requires { length line.old ≤ 400 }
    ensures text { line.new ≡ line.old ++ (44 ∷ signed_decimal number) }
    ensures few { length line.new ≤ length line.old + 41 }
{
    line.push(b",");
    line.push_signed(number);
}

/// One more field of a line: a comma and the score of a pair.
pub(crate) fn push_score(line: &mut LineBuffer, pair: &RulePair)
    requires { length line.old ≤ 400 }
    ensures text { line.new ≡ line.old ++ (44 ∷ signed_decimal pair.now.score) }
    ensures few { length line.new ≤ length line.old + 41 }
{
    push_signed(line, i128::from(pair.score));
}

/// The end of a line.
pub(crate) fn end_line(line: &mut LineBuffer)
    requires { length line.old ≤ 500 }
    ensures text { line.new ≡ line_of line.old }
    ensures few { length line.new ≤ length line.old + 1 }
{
    line.push(b"\n");
}

// The id of the paper of a pair.
fn paper_of(rules: &Rules, pair: usize) -> &str
    requires { pair < length rules.now.pairs }
    ensures same { result.now ≡ paper_of rules.now pair }
    ensures kept { is_id result.now ≡ true }
{
    let paper = rules.pairs()[pair].paper as usize;
    rules.papers()[paper].id.text()
}

// The id of the reviewer of a pair.
fn reviewer_of(rules: &Rules, pair: usize) -> &str
    requires { pair < length rules.now.pairs }
    ensures same { result.now ≡ reviewer_of rules.now pair }
    ensures kept { is_id result.now ≡ true }
{
    let reviewer = rules.pairs()[pair].reviewer as usize;
    rules.reviewers()[reviewer].id.text()
}

/// A line that begins with the ids of the paper and of the reviewer of a pair.
pub(crate) fn begun_with_pair(rules: &Rules, pair: usize) -> LineBuffer
    requires { pair < length rules.now.pairs }
    ensures text { result ≡ paper_of rules.now pair ++ (44 ∷ reviewer_of rules.now pair) }
    ensures few { length result ≤ 257 }
{
    let mut line = begun_with(paper_of(rules, pair));
    push_id(&mut line, reviewer_of(rules, pair));
    line
}
