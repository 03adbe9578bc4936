// The lines that the check writes.
ghost use Rattle.std.specs.Prelude.{◌≡◌, ◌≤◌, length, codes};
ghost use Rattle.matcher_cli.specs.Serving.{damage_line};
ghost use Rattle.matcher_cli.specs.Lines.{level_words, lottery_line, valid_line, broken_line, one_number, two_numbers, three_numbers, one_signed, two_signed, line_code_word, wrong_line, fault_line};

use match_rules::{Answer, Break, Level};
use text_lines::{LineBuffer, LineCode, TextFault};

/// A labelled number and a line feed.
#[tactic(auto, unfolding(crate::specs::Lines::one_number))]
pub(crate) fn one_number(label: &[u8], number: u64) -> LineBuffer
    requires { length label.now ≤ 64 }
    ensures { result ≡ one_number label.now number }
{
    let mut line = LineBuffer::new();
    line.push_labelled(label, number);
    line.push(b"\n");
    line
}

#[tactic(auto, unfolding(crate::specs::Lines::two_numbers))]
fn two_numbers(label: &[u8], number: u64, other: &[u8], second: u64) -> LineBuffer
    requires label { length label.now ≤ 64 }
    requires other { length other.now ≤ 64 }
    ensures { result ≡ two_numbers label.now number other.now second }
{
    let mut line = LineBuffer::new();
    line.push_labelled(label, number);
    line.push_labelled(other, second);
    line.push(b"\n");
    line
}

#[tactic(auto, unfolding(crate::specs::Lines::three_numbers))]
fn three_numbers(
    label: &[u8],
    number: u64,
    other: &[u8],
    second: u64,
    last: &[u8],
    third: u64,
) -> LineBuffer
    requires label { length label.now ≤ 64 }
    requires other { length other.now ≤ 64 }
    requires last { length last.now ≤ 64 }
    ensures { result ≡ three_numbers label.now number other.now second last.now third }
{
    let mut line = LineBuffer::new();
    line.push_labelled(label, number);
    line.push_labelled(other, second);
    line.push_labelled(last, third);
    line.push(b"\n");
    line
}

#[tactic(auto, unfolding(crate::specs::Lines::one_signed))]
fn one_signed(label: &[u8], number: i128) -> LineBuffer
    requires { length label.now ≤ 64 }
    ensures { result ≡ one_signed label.now number }
{
    let mut line = LineBuffer::new();
    line.push_labelled_signed(label, number);
    line.push(b"\n");
    line
}

#[tactic(auto, unfolding(crate::specs::Lines::two_signed))]
fn two_signed(label: &[u8], number: &i128, other: &[u8], second: &i128) -> LineBuffer
    requires label { length label.now ≤ 64 }
    requires other { length other.now ≤ 64 }
    ensures { result ≡ two_signed label.now number.now other.now second.now }
{
    let mut line = LineBuffer::new();
    line.push_labelled_signed(label, *number);
    line.push_labelled_signed(other, *second);
    line.push(b"\n");
    line
}

#[tactic(auto, unfolding(crate::specs::Lines::line_code_word))]
fn line_code_word(code: LineCode) -> &'static [u8]
    ensures word { result.now ≡ line_code_word code }
    ensures few { length result.now ≤ 32 }
{
    match code {
        LineCode::TooLong => b"too-long",
        LineCode::NotUtf8 => b"not-utf8",
        LineCode::Form => b"form",
        LineCode::Number => b"number",
        LineCode::Range => b"range",
        LineCode::Id => b"id",
        LineCode::Order => b"order",
    }
}

#[tactic(auto, unfolding(crate::specs::Lines::wrong_line))]
fn wrong_line(number: u64, code: LineCode) -> LineBuffer
    ensures { result ≡ wrong_line number code }
{
    let mut line = LineBuffer::new();
    line.push_labelled(b"refused line ", number);
    line.push(b" ");
    line.push(line_code_word(code));
    line.push(b"\n");
    line
}

fn only_words(words: &[u8]) -> LineBuffer
    requires { length words.now ≤ 64 }
    ensures { result ≡ words.now }
{
    let mut line = LineBuffer::new();
    line.push(words);
    line
}

/// The line of the fault of a text.
#[tactic(auto, unfolding(crate::specs::Lines::fault_line))]
pub(crate) fn fault_line(fault: TextFault) -> LineBuffer
    ensures { result ≡ fault_line fault }
{
    match fault {
        TextFault::Truncated => only_words(b"refused truncated\n"),
        TextFault::Trailing => only_words(b"refused trailing\n"),
        TextFault::BadLine { number, code } => wrong_line(number, code),
    }
}

/// The line of a broken clause.
pub fn broken_line(broken: &Break) -> LineBuffer
    ensures { result ≡ broken_line broken.now }
{
    match *broken {
        Break::Tickets { sum } => one_number(b"broken 1 sum ", sum),
        Break::Demand {
            piece,
            paper,
            count,
        } => in_piece(b"broken 2 piece ", piece, b" paper ", paper, count),
        Break::Load {
            piece,
            reviewer,
            count,
        } => in_piece(b"broken 3 piece ", piece, b" reviewer ", reviewer, count),
        Break::Group {
            piece,
            group,
            count,
        } => in_piece(b"broken 4 piece ", piece, b" group ", group, count),
        Break::Lock { piece, pair } => two_numbers(
            b"broken 5 piece ",
            u64::from(piece),
            b" pair ",
            u64::from(pair),
        ),
        Break::Share {
            pair,
            printed,
            counted,
        } => three_numbers(
            b"broken 6 pair ",
            u64::from(pair),
            b" printed ",
            printed,
            b" counted ",
            counted,
        ),
        Break::Cap { pair } => one_number(b"broken 7 pair ", u64::from(pair)),
        Break::Below { pair } => one_number(b"broken 8 pair ", u64::from(pair)),
        Break::NoSuchScore { score } => one_signed(b"broken 9 score ", i128::from(score)),
        Break::Above { need, room } => two_numbers(b"broken 10 need ", need, b" room ", room),
        Break::Total {
            ref printed,
            ref counted,
        } => two_signed(b"broken 11 printed ", printed, b" counted ", counted),
        Break::Bound {
            ref total,
            ref bound,
        } => two_signed(b"broken 12 total ", total, b" bound ", bound),
        Break::Counted { need, room } => two_numbers(b"broken 13 need ", need, b" room ", room),
        Break::NotViolated { need, room } => two_numbers(b"broken 14 need ", need, b" room ", room),
    }
}

fn in_piece(label: &[u8], piece: u32, what: &[u8], place: u32, count: u32) -> LineBuffer
    requires label { length label.now ≤ 64 }
    requires what { length what.now ≤ 64 }
    ensures { result ≡ three_numbers label.now piece what.now place (codes " count ") count }
{
    three_numbers(
        label,
        u64::from(piece),
        what,
        u64::from(place),
        b" count ",
        u64::from(count),
    )
}

// The mode and the threshold of a valid lottery, of which the level tells both.
#[tactic(auto, unfolding(crate::specs::Lines::level_words))]
fn level_words(level: &Level) -> LineBuffer
    ensures words { result ≡ level_words level.now }
    ensures few { length result ≤ 64 }
{
    match level {
        Level::Unasked => only_words(b"valid whole threshold none"),
        Level::Free => only_words(b"valid fair threshold free"),
        Level::At { score, .. } => {
            let mut line = LineBuffer::new();
            line.push_labelled_signed(b"valid fair threshold ", i128::from(*score));
            line
        }
    }
}

// The line of a valid lottery.
#[tactic(auto, unfolding(crate::specs::Lines::lottery_line))]
fn lottery_line(level: &Level, total: &i128, pieces: u64) -> LineBuffer
    ensures { result ≡ lottery_line level.now total.now pieces }
{
    let mut line = level_words(level);
    line.push_labelled_signed(b" total ", *total);
    line.push_labelled(b" pieces ", pieces);
    line.push(b"\n");
    line
}

/// The line of a valid answer.
pub fn valid_line(answer: &Answer) -> LineBuffer
    ensures { result ≡ valid_line answer.now }
{
    match answer {
        Answer::Lottery(winning) => {
            let pieces = winning.lottery.pieces();
            lottery_line(&winning.level, &winning.total, pieces.len() as u64)
        }
        Answer::Infeasible(blocked) => two_numbers(
            b"valid infeasible need ",
            blocked.need,
            b" room ",
            blocked.room,
        ),
    }
}

/// The line of a damaged row, by its place from 0.
#[tactic(auto, unfolding(crate::specs::Serving::damage_line))]
pub(crate) fn damage_line(place: u64) -> LineBuffer
    ensures { result ≡ damage_line place }
{
    one_number(b"damaged row ", place)
}
