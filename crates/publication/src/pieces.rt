// The lines of the pieces of a lottery.
ghost use Rattle.std.specs.Prelude.{◌≡◌, ◌&&◌, nat_le, nat_lt, ◌++◌, ◌∷◌, [], ℕ, List, Result, Ok, IfOk};
ghost use Rattle.std.specs.List.{list_all};
ghost use Rattle.text_lines.specs.Reading.{GivesLine};
ghost use Rattle.publication.specs.AnswerForms.{ascends, stands_behind, in_range, piece_with, piece_from, piece_of};

use crate::numbers::numbers_in;
use match_rules::{MOST_TICKETS, Piece, Places};
use std::alloc::Global;
use text_lines::{LineCode, LineError, LineForm};

/// Whether places strictly ascend.
pub fn do_ascend(places: &Places) -> bool
    ensures { result ≡ ascends places.now }
{
    places.do_ascend()
}

fn stands_behind(before: &[Piece], places: &Places) -> bool
    ensures { result ≡ stands_behind before.now places.now }
{
    match before.last() {
        Some(piece) => piece.pairs.as_slice().cmp(places.as_slice()).is_lt(),
        None => true,
    }
}

/// Whether places are below a count.
pub fn are_below(places: &Places, count: u32) -> bool
    ensures { result ≡ list_all (λ place. nat_lt place count) places.now }
{
    places.are_below(count)
}

fn is_in_range(pairs: u32, weight: u32, places: &Places) -> bool
    ensures { result ≡ in_range pairs weight places.now }
{
    (1 <= weight && weight <= MOST_TICKETS) && are_below(places, pairs)
}

fn piece_with(pairs: u32, before: &[Piece], weight: u32, places: Places) -> Result<Piece, LineCode>
    ensures { result ≡ piece_with pairs before.now weight places }
{
    if !is_in_range(pairs, weight, &places) {
        return Err(LineCode::Range);
    }
    if !do_ascend(&places) {
        return Err(LineCode::Order);
    }
    if !stands_behind(before, &places) {
        return Err(LineCode::Order);
    }
    Ok(Piece {
        weight,
        pairs: places,
    })
}

fn piece_from(pairs: u32, before: &[Piece], mut numbers: Vec<u32>) -> Result<Piece, LineCode>
    ensures { result ≡ piece_from pairs before.now numbers.items }
{
    if numbers.is_empty() {
        return Err(LineCode::Form);
    }
    let weight = numbers.remove(0);
    piece_with(pairs, before, weight, Places::from_vec(numbers))
}

fn piece_of(alloc: Global, pairs: u32, before: &[Piece], line: &[u8]) -> Result<Piece, LineError>
    ensures { GivesLine result (piece_of pairs before.now line.now) }
{
    let Some(numbers) = numbers_in(alloc, line)? else {
        return Err(LineError::Code(LineCode::Number));
    };
    match piece_from(pairs, before, numbers) {
        Ok(piece) => Ok(piece),
        Err(code) => Err(LineError::Code(code)),
    }
}

/// A line of a piece: its weight, and the places of its pairs, of which there are `pairs`.
#[derive(Drop)]
pub struct PieceLine {
    pub pairs: u32,
}

impl LineForm for PieceLine {
    type Item = Piece;

    ghost ready = { λ form before. Unit {0} };

    ghost reads = { λ form before line. piece_of form.pairs before line };

    fn read(&mut self, alloc: Global, before: &[Piece], line: &str) -> Result<Piece, LineError> {
        piece_of(alloc, self.pairs, before, line.as_bytes())
    }
}
