// Writing the text of a lottery.
ghost use Rattle.std.specs.Prelude.{◌≤◌, ◌++◌, length, codes, decimal};
ghost use Rattle.std.specs.Fmt.{signed_decimal};
ghost use Rattle.edge_io.specs.Counts.{HasCause};
ghost use Rattle.text_lines.specs.Forms.{section_text};
ghost use Rattle.text_lines.specs.Texts.{line_of, lines_of};
ghost use Rattle.publication.specs.AnswerForms.{piece_line, total_line};
ghost use Rattle.publication.specs.AnswerText.{answer_head_text, price_list_text, prices_text, worth_text, level_text, dealt_text, pieces_text, lottery_text};
ghost use Rattle.publication.specs.AskedForms.{asked_of, score_line, threshold_line};
ghost use Rattle.publication.specs.Waiting.{Puts};

use crate::cut_writing::{put_cut, put_mode};
use crate::waiting::{put_count, put_number, put_places, put_signed, put_text};
use edge_io::{Io, Sink};
use match_rules::{Level, Piece, Prices, Winning};
use text_lines::LineBuffer;

fn put_price_lines<K: Sink>(
    prices: &[i64],
    waiting: &mut LineBuffer,
    sink: &mut K,
) -> Result<(), Io>
    ensures puts { Puts (K.taken sink.old) waiting.old (K.taken sink.new) waiting.new result (lines_of signed_decimal prices.now) }
    ensures cause { HasCause (K.faults sink.old) (K.faults sink.new) result }
{
    for price in prices {
        put_signed(i128::from(*price), waiting, sink)?;
    }
    Ok(())
}

fn put_share_lines<K: Sink>(
    shares: &[u32],
    waiting: &mut LineBuffer,
    sink: &mut K,
) -> Result<(), Io>
    ensures puts { Puts (K.taken sink.old) waiting.old (K.taken sink.new) waiting.new result (lines_of decimal shares.now) }
    ensures cause { HasCause (K.faults sink.old) (K.faults sink.new) result }
{
    for share in shares {
        put_number(*share, waiting, sink)?;
    }
    Ok(())
}

fn put_piece<K: Sink>(piece: &Piece, waiting: &mut LineBuffer, sink: &mut K) -> Result<(), Io>
    ensures puts { Puts (K.taken sink.old) waiting.old (K.taken sink.new) waiting.new result (line_of (piece_line piece.now)) }
    ensures cause { HasCause (K.faults sink.old) (K.faults sink.new) result }
{
    let mut weight = LineBuffer::new();
    weight.push_number(u64::from(piece.weight));
    put_places(weight.as_slice(), piece.pairs.as_slice(), waiting, sink)
}

fn put_piece_lines<K: Sink>(
    pieces: &[Piece],
    waiting: &mut LineBuffer,
    sink: &mut K,
) -> Result<(), Io>
    ensures puts { Puts (K.taken sink.old) waiting.old (K.taken sink.new) waiting.new result (lines_of piece_line pieces.now) }
    ensures cause { HasCause (K.faults sink.old) (K.faults sink.new) result }
{
    for piece in pieces {
        put_piece(piece, waiting, sink)?;
    }
    Ok(())
}

fn put_price_list<K: Sink>(
    word: &[u8],
    prices: &[i64],
    waiting: &mut LineBuffer,
    sink: &mut K,
) -> Result<(), Io>
    requires { length word.now ≤ 64 }
    ensures puts { Puts (K.taken sink.old) waiting.old (K.taken sink.new) waiting.new result (price_list_text word.now prices.now) }
    ensures cause { HasCause (K.faults sink.old) (K.faults sink.new) result }
{
    put_count(word, prices.len() as u64, waiting, sink)?;
    put_price_lines(prices, waiting, sink)
}

fn put_prices<K: Sink>(prices: &Prices, waiting: &mut LineBuffer, sink: &mut K) -> Result<(), Io>
    ensures puts { Puts (K.taken sink.old) waiting.old (K.taken sink.new) waiting.new result (prices_text prices.now) }
    ensures cause { HasCause (K.faults sink.old) (K.faults sink.new) result }
{
    put_price_list(b"paper-prices", prices.papers.as_slice(), waiting, sink)?;
    put_price_list(b"group-prices", prices.groups.as_slice(), waiting, sink)?;
    put_price_list(
        b"reviewer-prices",
        prices.reviewers.as_slice(),
        waiting,
        sink,
    )
}

fn put_score<K: Sink>(score: i64, waiting: &mut LineBuffer, sink: &mut K) -> Result<(), Io>
    ensures puts { Puts (K.taken sink.old) waiting.old (K.taken sink.new) waiting.new result (line_of (score_line score)) }
    ensures cause { HasCause (K.faults sink.old) (K.faults sink.new) result }
{
    put_text(b"threshold ", waiting, sink)?;
    put_signed(i128::from(score), waiting, sink)
}

fn put_threshold<K: Sink>(level: &Level, waiting: &mut LineBuffer, sink: &mut K) -> Result<(), Io>
    ensures puts { Puts (K.taken sink.old) waiting.old (K.taken sink.new) waiting.new result (line_of (threshold_line (asked_of level.now))) }
    ensures cause { HasCause (K.faults sink.old) (K.faults sink.new) result }
{
    match level {
        Level::Unasked => put_text(b"threshold none\n", waiting, sink),
        Level::Free => put_text(b"threshold free\n", waiting, sink),
        Level::At { score, .. } => put_score(*score, waiting, sink),
    }
}

fn put_head<K: Sink>(winning: &Winning, waiting: &mut LineBuffer, sink: &mut K) -> Result<(), Io>
    ensures puts { Puts (K.taken sink.old) waiting.old (K.taken sink.new) waiting.new result (answer_head_text winning.now.mode winning.now.level) }
    ensures cause { HasCause (K.faults sink.old) (K.faults sink.new) result }
{
    put_text(b"lottery 1\n", waiting, sink)?;
    put_mode(winning.mode, waiting, sink)?;
    put_threshold(&winning.level, waiting, sink)
}

fn put_worth<K: Sink>(winning: &Winning, waiting: &mut LineBuffer, sink: &mut K) -> Result<(), Io>
    ensures puts { Puts (K.taken sink.old) waiting.old (K.taken sink.new) waiting.new result (worth_text winning.now.total winning.now.prices) }
    ensures cause { HasCause (K.faults sink.old) (K.faults sink.new) result }
{
    put_text(b"total ", waiting, sink)?;
    put_signed(winning.total, waiting, sink)?;
    put_prices(&winning.prices, waiting, sink)
}

fn put_level<K: Sink>(level: &Level, waiting: &mut LineBuffer, sink: &mut K) -> Result<(), Io>
    ensures puts { Puts (K.taken sink.old) waiting.old (K.taken sink.new) waiting.new result (level_text level.now) }
    ensures cause { HasCause (K.faults sink.old) (K.faults sink.new) result }
{
    match level {
        Level::Unasked => put_text(b"cut none\n", waiting, sink),
        Level::Free => put_text(b"cut none\n", waiting, sink),
        Level::At { cut, .. } => put_cut(cut, waiting, sink),
    }
}

fn put_shares<K: Sink>(shares: &[u32], waiting: &mut LineBuffer, sink: &mut K) -> Result<(), Io>
    ensures puts { Puts (K.taken sink.old) waiting.old (K.taken sink.new) waiting.new result (section_text (codes "shares") decimal shares.now) }
    ensures cause { HasCause (K.faults sink.old) (K.faults sink.new) result }
{
    put_count(b"shares", shares.len() as u64, waiting, sink)?;
    put_share_lines(shares, waiting, sink)
}

fn put_dealt<K: Sink>(winning: &Winning, waiting: &mut LineBuffer, sink: &mut K) -> Result<(), Io>
    ensures puts { Puts (K.taken sink.old) waiting.old (K.taken sink.new) waiting.new result (dealt_text winning.now.shares winning.now.level) }
    ensures cause { HasCause (K.faults sink.old) (K.faults sink.new) result }
{
    put_shares(winning.shares.as_slice(), waiting, sink)?;
    put_level(&winning.level, waiting, sink)
}

fn put_pieces<K: Sink>(pieces: &[Piece], waiting: &mut LineBuffer, sink: &mut K) -> Result<(), Io>
    ensures puts { Puts (K.taken sink.old) waiting.old (K.taken sink.new) waiting.new result (pieces_text pieces.now) }
    ensures cause { HasCause (K.faults sink.old) (K.faults sink.new) result }
{
    put_count(b"pieces", pieces.len() as u64, waiting, sink)?;
    put_piece_lines(pieces, waiting, sink)?;
    put_text(b"end lottery\n", waiting, sink)
}

// All that stands behind the threshold.
fn put_body<K: Sink>(winning: &Winning, waiting: &mut LineBuffer, sink: &mut K) -> Result<(), Io>
    ensures puts { Puts (K.taken sink.old) waiting.old (K.taken sink.new) waiting.new result (worth_text winning.now.total winning.now.prices ++ (dealt_text winning.now.shares winning.now.level ++ pieces_text winning.now.lottery)) }
    ensures cause { HasCause (K.faults sink.old) (K.faults sink.new) result }
{
    put_worth(winning, waiting, sink)?;
    put_dealt(winning, waiting, sink)?;
    put_pieces(winning.lottery.pieces(), waiting, sink)
}

/// Puts the text of a lottery behind what waits.
pub(crate) fn put_lottery<K: Sink>(
    winning: &Winning,
    waiting: &mut LineBuffer,
    sink: &mut K,
) -> Result<(), Io>
    ensures puts { Puts (K.taken sink.old) waiting.old (K.taken sink.new) waiting.new result (lottery_text winning.now) }
    ensures cause { HasCause (K.faults sink.old) (K.faults sink.new) result }
{
    put_head(winning, waiting, sink)?;
    put_body(winning, waiting, sink)
}
