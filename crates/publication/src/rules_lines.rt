// The lines of the text of rules, put together without taking memory.
ghost use Rattle.std.specs.Prelude.{◌≡◌, ◌+◌, ◌≤◌, true, ◌++◌, ◌∷◌, [], length, decimal};
ghost use Rattle.std.specs.Fmt.{signed_decimal};
ghost use Rattle.std.specs.Option.{option_map_or};
ghost use Rattle.match_rules.specs.Id.{is_id};
ghost use Rattle.text_lines.specs.Forms.{count_line};
ghost use Rattle.text_lines.specs.Texts.{line_of};
ghost use Rattle.publication.specs.RulesText.{paper_line, reviewer_line, pair_line};

use match_rules::{Institution, RulePair, RulePaper, RuleReviewer};
use text_lines::LineBuffer;

// A line that begins with an id.
fn begun_with(id: &str) -> LineBuffer
    requires { is_id id.now ≡ true }
    ensures text { result ≡ id.now }
    ensures few { length result ≤ 128 }
{
    let mut line = LineBuffer::new();
    line.push(id.as_bytes());
    line
}

// One more field of a line: a space and a number.
fn push_number(line: &mut LineBuffer, number: u32)
    requires { length line.old ≤ 400 }
    ensures text { line.new ≡ line.old ++ (32 ∷ decimal number) }
    ensures few { length line.new ≤ length line.old + 21 }
{
    line.push(b" ");
    line.push_number(u64::from(number));
}

// One more field of a line: a space and a signed number.
fn push_score(line: &mut LineBuffer, score: i64)
    requires { length line.old ≤ 400 }
    ensures text { line.new ≡ line.old ++ (32 ∷ signed_decimal score) }
    ensures few { length line.new ≤ length line.old + 41 }
{
    line.push(b" ");
    line.push_signed(i128::from(score));
}

// The last field of a reviewer, where there is an institution.
fn push_institution(line: &mut LineBuffer, institution: &Option<Institution>)
    requires { length line.old ≤ 300 }
    ensures text { line.new ≡ line.old ++ option_map_or (λ name. 32 ∷ name) institution.now [] }
    ensures few { length line.new ≤ length line.old + 129 }
{
    if let Some(institution) = institution {
        line.push(b" ");
        line.push(institution.text().as_bytes());
    }
}

// The end of a line.
fn end_line(line: &mut LineBuffer)
    requires { length line.old ≤ 500 }
    ensures { line.new ≡ line_of line.old }
{
    line.push(b"\n");
}

/// The line of a word and a number.
pub(crate) fn count_line(word: &[u8], number: u64) -> LineBuffer
    requires { length word.now ≤ 64 }
    ensures text { result ≡ line_of (count_line word.now number) }
    ensures few { length result ≤ length word.now + 22 }
{
    let mut line = LineBuffer::new();
    line.push(word);
    line.push(b" ");
    line.push_number(number);
    end_line(&mut line);
    line
}

/// The line of a paper.
pub(crate) fn paper_line(paper: &RulePaper) -> LineBuffer
    ensures { result ≡ line_of (paper_line paper.now) }
{
    let mut line = begun_with(paper.id.text());
    push_number(&mut line, paper.demand);
    end_line(&mut line);
    line
}

/// The line of a reviewer.
pub(crate) fn reviewer_line(reviewer: &RuleReviewer) -> LineBuffer
    ensures { result ≡ line_of (reviewer_line reviewer.now) }
{
    let mut line = begun_with(reviewer.id.text());
    push_number(&mut line, reviewer.least);
    push_number(&mut line, reviewer.greatest);
    push_institution(&mut line, &reviewer.institution);
    end_line(&mut line);
    line
}

/// The line of a pair.
pub(crate) fn pair_line(pair: &RulePair) -> LineBuffer
    ensures { result ≡ line_of (pair_line pair.now) }
{
    let mut line = LineBuffer::new();
    line.push_number(u64::from(pair.paper));
    push_number(&mut line, pair.reviewer);
    push_score(&mut line, pair.score);
    push_number(&mut line, pair.floor);
    push_number(&mut line, pair.cap);
    end_line(&mut line);
    line
}
