// The lines of a cut.
ghost use Rattle.std.specs.Prelude.{◌≡◌, nat_lt, List, Result, Ok, map};
ghost use Rattle.std.specs.List.{list_all};
ghost use Rattle.text_lines.specs.Fields.{fields};
ghost use Rattle.text_lines.specs.Reading.{GivesLine};
ghost use Rattle.publication.specs.CutForms.{side_of, marks_with, marks_from, marks_of};

use crate::numbers::numbers_in;
use crate::pieces::{are_below, do_ascend};
use match_rules::{Places, Side};
use std::alloc::Global;
use text_lines::{LineCode, LineError, LineForm, first_field};

#[tactic(auto, unfolding(crate::specs::CutForms::side_of))]
fn side_of(line: &str) -> Result<Side, LineCode>
    ensures { result ≡ side_of line.now }
{
    if line == "cut into" {
        return Ok(Side::Into);
    }
    if line == "cut out-of" {
        return Ok(Side::OutOf);
    }
    Err(LineCode::Form)
}

/// The line of the side of a cut.
#[derive(Drop)]
pub struct SideLine {}

impl LineForm for SideLine {
    type Item = Side;

    ghost ready = { λ form before. Unit {0} };

    ghost reads = { λ form before line. side_of line };

    fn read(&mut self, _alloc: Global, _before: &[Side], line: &str) -> Result<Side, LineError> {
        Ok(side_of(line)?)
    }
}

fn marks_with(count: u32, places: Places) -> Result<Places, LineCode>
    ensures { result ≡ marks_with count places }
{
    if !are_below(&places, count) {
        return Err(LineCode::Range);
    }
    if !do_ascend(&places) {
        return Err(LineCode::Order);
    }
    Ok(places)
}

// The places of a text with a number in each field.
fn marks_from(alloc: Global, count: u32, text: &[u8]) -> Result<Places, LineError>
    ensures { GivesLine result (marks_from count (fields text.now)) }
{
    let Some(places) = numbers_in(alloc, text)? else {
        return Err(LineError::Code(LineCode::Number));
    };
    match marks_with(count, Places::from_vec(places)) {
        Ok(places) => Ok(places),
        Err(code) => Err(LineError::Code(code)),
    }
}

#[tactic(auto, unfolding(crate::specs::CutForms::marks_of))]
fn marks_of(alloc: Global, word: &str, count: u32, line: &str) -> Result<Places, LineError>
    ensures { GivesLine result (marks_of word.now count line.now) }
{
    match first_field(line) {
        Some((first, places)) => {
            if first != word {
                return Err(LineError::Code(LineCode::Form));
            }
            marks_from(alloc, count, places.as_bytes())
        }
        None => {
            if line != word {
                return Err(LineError::Code(LineCode::Form));
            }
            Ok(Places::from_vec(Vec::new(alloc)))
        }
    }
}

/// A line of a word and marked places, which are below `count`.
#[derive(Drop)]
pub struct MarksLine<'a> {
    pub word: &'a str,
    pub count: u32,
}

impl<'a> LineForm for MarksLine<'a> {
    type Item = Places;

    ghost ready = { λ form before. Unit {0} };

    ghost reads = { λ form before line. marks_of form.word.now form.count line };

    fn read(&mut self, alloc: Global, _before: &[Places], line: &str) -> Result<Places, LineError> {
        marks_of(alloc, self.word, self.count, line)
    }
}
