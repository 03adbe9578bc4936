// The lines of an answer text.
ghost use Rattle.std.specs.Prelude.{◌≡◌, ◌<◌, ◌≤◌, ◌^◌, ◌&&◌, ◌++◌, ◌∷◌, [], true, ℕ, List, Result, Ok, IfOk, length};
ghost use Rattle.text_lines.specs.Reading.{GivesLine};
ghost use Rattle.publication.specs.AnswerForms.{kind_of, price_of, share_of, total_of};

use match_rules::{MOST_PRICE, MOST_TOTAL, RULES_TICKETS};
use std::alloc::Global;
use text_lines::{LineCode, LineError, LineForm, integer_from, number_from, one_field, two_fields};

/// What an answer is, by its first line.
#[derive(Clone, Copy)]
pub enum AnswerKind {
    Lottery,
    Infeasible,
}

#[tactic(auto, unfolding(crate::specs::AnswerForms::kind_of))]
fn kind_of(line: &str) -> Result<AnswerKind, LineCode>
    ensures { result ≡ kind_of line.now }
{
    if line == "lottery 1" {
        return Ok(AnswerKind::Lottery);
    }
    if line == "infeasible 1" {
        return Ok(AnswerKind::Infeasible);
    }
    Err(LineCode::Form)
}

#[tactic(auto, unfolding(crate::specs::AnswerForms::price_of))]
fn price_of(line: &str) -> Result<i64, LineCode>
    ensures { result ≡ price_of line.now }
{
    match one_field(line) {
        Some(field) => integer_from(field, MOST_PRICE),
        None => Err(LineCode::Form),
    }
}

#[tactic(auto, unfolding(crate::specs::AnswerForms::share_of))]
fn share_of(line: &str) -> Result<u32, LineCode>
    ensures { result ≡ share_of line.now }
{
    match one_field(line) {
        Some(field) => number_from(field, 0, RULES_TICKETS),
        None => Err(LineCode::Form),
    }
}

#[tactic(auto, unfolding(crate::specs::AnswerForms::total_of))]
fn total_of(line: &str) -> Result<i64, LineCode>
    ensures { result ≡ total_of line.now }
{
    let Some((word, number)) = two_fields(line) else {
        return Err(LineCode::Form);
    };
    if word != "total" {
        return Err(LineCode::Form);
    }
    integer_from(number, MOST_TOTAL)
}

/// The first line of an answer.
#[derive(Drop)]
pub struct KindLine {}

impl LineForm for KindLine {
    type Item = AnswerKind;

    ghost ready = { λ form before. Unit {0} };

    ghost reads = { λ form before line. kind_of line };

    fn read(
        &mut self,
        _alloc: Global,
        _before: &[AnswerKind],
        line: &str,
    ) -> Result<AnswerKind, LineError> {
        Ok(kind_of(line)?)
    }
}

/// A line of one price, in 10^-6 of a score.
#[derive(Drop)]
pub struct PriceLine {}

impl LineForm for PriceLine {
    type Item = i64;

    ghost ready = { λ form before. Unit {0} };

    ghost reads = { λ form before line. price_of line };

    fn read(&mut self, _alloc: Global, _before: &[i64], line: &str) -> Result<i64, LineError> {
        Ok(price_of(line)?)
    }
}

/// A line of one share, in tickets.
#[derive(Drop)]
pub struct ShareLine {}

impl LineForm for ShareLine {
    type Item = u32;

    ghost ready = { λ form before. Unit {0} };

    ghost reads = { λ form before line. share_of line };

    fn read(&mut self, _alloc: Global, _before: &[u32], line: &str) -> Result<u32, LineError> {
        Ok(share_of(line)?)
    }
}

/// The line of the total, in 10^-6 of a score.
#[derive(Drop)]
pub struct TotalLine {}

impl LineForm for TotalLine {
    type Item = i64;

    ghost ready = { λ form before. Unit {0} };

    ghost reads = { λ form before line. total_of line };

    fn read(&mut self, _alloc: Global, _before: &[i64], line: &str) -> Result<i64, LineError> {
        Ok(total_of(line)?)
    }
}
