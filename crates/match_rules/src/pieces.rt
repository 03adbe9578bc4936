// Whether pieces are those of a lottery.

ghost use Rattle.std.specs.Prelude.{◌≡◌, ℕ, ◌+◌, ◌<◌, ◌≤◌, ◌↔◌, length, IsTrue};
ghost use Rattle.std.specs.Cmp.Lexicographic.{slice_cmp};
ghost use Rattle.std.specs.Ordering.{nat_cmp};
ghost use Rattle.std.specs.declared.cmp.Ordering.TheVariants.{Less};
ghost use Rattle.match_rules.specs.Pieces.{ArePieces, DoAscend, piece_at};

use crate::lottery::Piece;
use crate::rules::MOST_TICKETS;

fn is_piece(piece: &Piece) -> bool
    ensures { IsTrue result ↔ (((1 ≤ piece.now.weight) × (piece.now.weight ≤ MOST_TICKETS)) × DoAscend piece.now.pairs) }
{
    if piece.weight < 1 {
        return false;
    }
    if piece.weight > MOST_TICKETS {
        return false;
    }
    piece.pairs.do_ascend()
}

fn is_each_piece(pieces: &[Piece]) -> bool
    ensures { IsTrue result ↔ ((k : ℕ) → k < length pieces.now → ((1 ≤ (piece_at pieces.now k).weight) × ((piece_at pieces.now k).weight ≤ MOST_TICKETS)) × DoAscend (piece_at pieces.now k).pairs) }
{
    for piece in pieces {
        if !is_piece(piece) {
            return false;
        }
    }
    true
}

fn do_pieces_ascend(pieces: &[Piece]) -> bool
    ensures { IsTrue result ↔ ((k : ℕ) → k + 1 < length pieces.now → slice_cmp nat_cmp (piece_at pieces.now k).pairs (piece_at pieces.now (k + 1)).pairs ≡ Less) }
{
    for i in 1..pieces.len() {
        let order = pieces[i - 1]
            .pairs
            .as_slice()
            .cmp(pieces[i].pairs.as_slice());
        if !order.is_lt() {
            return false;
        }
    }
    true
}

pub(crate) fn are_pieces(pieces: &[Piece]) -> bool
    ensures { IsTrue result ↔ ArePieces pieces.now }
{
    if pieces.len() > MOST_TICKETS as usize {
        return false;
    }
    if !is_each_piece(pieces) {
        return false;
    }
    do_pieces_ascend(pieces)
}
