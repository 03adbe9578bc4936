// Lotteries: weighted whole assignments.

ghost use Rattle.std.specs.Prelude.{◌≡◌, ◌↔◌, length, IfOk, IfErr, IsOk};
ghost use Rattle.match_rules.specs.Pieces.{ArePieces};

use crate::lists::Places;
use crate::pieces::are_pieces;
use std::alloc::{AllocError, Global};
use std::marker::Model;

/// A whole assignment with the number of tickets that draw it.
#[derive(Drop)]
pub struct Piece {
    /// The number of tickets, 1 to the greatest number of tickets.
    pub weight: u32,
    /// The places of the assigned pairs, strictly ascending.
    pub pairs: Places,
}

impl Piece {
    /// An equal piece.
    pub fn copy(&self, alloc: Global) -> Result<Self, AllocError>
        ensures { IfOk result (λ copy. copy ≡ self.now) }
    {
        let pairs = self.pairs.copy(alloc)?;
        Ok(Piece {
            weight: self.weight,
            pairs,
        })
    }
}

/// A list of pieces whose lists of places strictly ascend in lexicographic order, at most as many as the greatest
/// number of tickets.
#[derive(Drop)]
pub struct Lottery {
    pieces: Vec<Piece>,
}

impl Model for Lottery {
    ghost use Rattle.std.specs.Prelude.{List};
    ghost use Rattle.match_rules.specs.declared.lottery.Piece.{Piece};
    ghost use Rattle.match_rules.specs.Pieces.{ArePieces};

    ghost Value = { List Piece };

    ghost view = { λ l. l.pieces.items };

    ghost invariant = { λ l. ArePieces l.pieces.items };
}

impl Lottery {
    /// The lottery of these pieces, without taking memory. Pieces that aren't one are given back.
    pub fn new(pieces: Vec<Piece>) -> Result<Lottery, Vec<Piece>>
        ensures value { IfOk result (λ lottery. lottery ≡ pieces.items) }
        ensures exact { IsOk result ↔ ArePieces pieces.items }
        ensures back { IfErr result (λ back. back.items ≡ pieces.items) }
    {
        if are_pieces(pieces.as_slice()) {
            Ok(Lottery { pieces })
        } else {
            Err(pieces)
        }
    }

    /// The lottery of these pieces, for a caller that tested their conditions.
    pub fn of_tested(pieces: Vec<Piece>) -> Lottery
        requires { ArePieces pieces.items }
        ensures { result ≡ pieces.items }
    {
        Lottery { pieces }
    }

    /// The pieces, ascending by their lists of places.
    pub fn pieces(&self) -> &[Piece]
        ensures value { result.now ≡ self.now }
        ensures len { length result.now ≡ length self.now }
        ensures kept { ArePieces self.now }
    {
        self.pieces.as_slice()
    }

    /// An equal lottery.
    pub fn copy(&self, alloc: Global) -> Result<Self, AllocError>
        ensures { IfOk result (λ copy. copy ≡ self.now) }
    {
        let pieces = copy_pieces(alloc, self.pieces.as_slice())?;
        Ok(Lottery { pieces })
    }
}

fn copy_pieces(alloc: Global, pieces: &[Piece]) -> Result<Vec<Piece>, AllocError>
    ensures { IfOk result (λ copies. copies.items ≡ pieces.now) }
{
    let mut copies = Vec::new(alloc);
    for piece in pieces {
        copies.push(piece.copy(alloc)?)?;
    }
    Ok(copies)
}
