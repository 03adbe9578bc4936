// Lines of fixed words, lines of a word and a number, and sections.
ghost use Rattle.std.specs.Prelude.{◌≡◌, ◌<◌, ◌≤◌, ◌^◌, [], IsSome, IfOk, List, Result, Ok, length};
ghost use Rattle.edge_io.specs.Told.{told, TellsNoMore};
ghost use Rattle.text_lines.specs.Reading.{Gives, GivesLine, FaultHasCause, AllFrom, cursor, due};
ghost use Rattle.text_lines.specs.Forms.{fixed, number_after, integer_from, number_from, section_at};

use crate::fault::{LineCode, LineError, ReadError};
use crate::fields::two_fields;
use crate::form::{LineForm, read_items, read_line};
use crate::lines::Lines;
use crate::number::{MOST_AMOUNT, integer_up_to, is_canonical, is_canonical_signed, number_up_to};
use edge_io::Source;
use std::alloc::Global;

/// A line of fixed words.
#[derive(Drop)]
pub struct FixedLine<'a> {
    pub words: &'a str,
}

impl<'a> LineForm for FixedLine<'a> {
    type Item = ();

    ghost ready = { λ form before. Unit {0} };

    ghost reads = { λ form before line. fixed form.words.now line };

    fn read(&mut self, _alloc: Global, _before: &[()], line: &str) -> Result<(), LineError> {
        if line == self.words {
            Ok(())
        } else {
            Err(LineError::Code(LineCode::Form))
        }
    }
}

/// A line of a word and a number from `least` to `most`.
#[derive(Drop)]
pub struct CountLine<'a> {
    pub word: &'a str,
    pub least: u32,
    pub most: u32,
}

impl<'a> LineForm for CountLine<'a> {
    type Item = u32;

    ghost ready = { λ form before. Unit {0} };

    ghost reads = { λ form before line. number_after form.word.now form.least form.most line };

    fn read(&mut self, _alloc: Global, _before: &[u32], line: &str) -> Result<u32, LineError> {
        let number = number_after(self.word, u64::from(self.least), u64::from(self.most), line)?;
        Ok(number as u32)
    }
}

// A line of a word and a number of 64 bits.
#[derive(Drop)]
struct AmountLine<'a> {
    word: &'a str,
}

impl<'a> LineForm for AmountLine<'a> {
    ghost use Rattle.text_lines.specs.declared.number.TheConstants.{MOST_AMOUNT};

    type Item = u64;

    ghost ready = { λ form before. Unit {0} };

    ghost reads = { λ form before line. number_after form.word.now 0 MOST_AMOUNT line };

    fn read(&mut self, _alloc: Global, _before: &[u64], line: &str) -> Result<u64, LineError> {
        Ok(number_after(self.word, 0, MOST_AMOUNT, line)?)
    }
}

// The number of a line of this word and a number from `least` to `most`.
#[tactic(auto, unfolding(crate::specs::Forms::number_after))]
fn number_after(word: &str, least: u64, most: u64, line: &str) -> Result<u64, LineCode>
    ensures exact { result ≡ number_after word.now least most line.now }
    ensures high { IfOk result (λ number. number ≤ most) }
{
    let Some((first, number)) = two_fields(line) else {
        return Err(LineCode::Form);
    };
    if first != word {
        return Err(LineCode::Form);
    }
    amount_from(number, least, most)
}

// The number of 64 bits that a field spells, from `least` to `most`.
fn amount_from(field: &str, least: u64, most: u64) -> Result<u64, LineCode>
    ensures exact { result ≡ number_from least most field.now }
    ensures high { IfOk result (λ number. number ≤ most) }
{
    let text = field.as_bytes();
    if !is_canonical(text) {
        return Err(LineCode::Number);
    }
    match number_up_to(text, most) {
        Some(number) if number >= least => Ok(number),
        _ => Err(LineCode::Range),
    }
}

/// The number that a field spells, from `least` to `most`.
pub fn number_from(field: &str, least: u32, most: u32) -> Result<u32, LineCode>
    ensures { result ≡ number_from least most field.now }
{
    let number = amount_from(field, u64::from(least), u64::from(most))?;
    Ok(number as u32)
}

/// The signed number that a field spells, of a magnitude of at most `most`.
pub fn integer_from(field: &str, most: u64) -> Result<i64, LineCode>
    requires { most < 2 ^ 60 }
    ensures { result ≡ integer_from most field.now }
{
    let text = field.as_bytes();
    if !is_canonical_signed(text) {
        return Err(LineCode::Number);
    }
    match integer_up_to(text, most) {
        Some(number) => Ok(number),
        None => Err(LineCode::Range),
    }
}

/// Reads a line of fixed words.
pub fn read_words<S: Source>(
    alloc: Global,
    lines: &mut Lines,
    source: &mut S,
    words: &str,
) -> Result<(), ReadError>
    ensures reads { IsSome (S.left source.new) → Gives (λ item. item) result (cursor lines.new (S.left source.new)) (due (fixed words.now) (cursor lines.old (S.left source.old))) }
    ensures untold { TellsNoMore (S.left source.old) (S.left source.new) }
    ensures cause { FaultHasCause (S.faults source.old) (S.faults source.new) (S.left source.new) result }
{
    read_line(alloc, lines, source, &mut FixedLine { words }, &[])
}

/// Reads a line of a word and a number from `least` to `most`.
pub fn read_count<S: Source>(
    alloc: Global,
    lines: &mut Lines,
    source: &mut S,
    word: &str,
    least: u32,
    most: u32,
) -> Result<u32, ReadError>
    ensures reads { IsSome (S.left source.new) → Gives (λ item. item) result (cursor lines.new (S.left source.new)) (due (number_after word.now least most) (cursor lines.old (S.left source.old))) }
    ensures low { IfOk result (λ number. least ≤ number) }
    ensures high { IfOk result (λ number. number ≤ most) }
    ensures untold { TellsNoMore (S.left source.old) (S.left source.new) }
    ensures cause { FaultHasCause (S.faults source.old) (S.faults source.new) (S.left source.new) result }
{
    read_line(
        alloc,
        lines,
        source,
        &mut CountLine { word, least, most },
        &[],
    )
}

/// Reads a line of a word and a number of 64 bits.
pub fn read_amount<S: Source>(
    alloc: Global,
    lines: &mut Lines,
    source: &mut S,
    word: &str,
) -> Result<u64, ReadError>
    ensures reads { IsSome (S.left source.new) → Gives (λ item. item) result (cursor lines.new (S.left source.new)) (due (number_after word.now 0 MOST_AMOUNT) (cursor lines.old (S.left source.old))) }
    ensures untold { TellsNoMore (S.left source.old) (S.left source.new) }
    ensures cause { FaultHasCause (S.faults source.old) (S.faults source.new) (S.left source.new) result }
{
    read_line(alloc, lines, source, &mut AmountLine { word }, &[])
}

/// Reads a section: a line of its word and the number of its items, from `least` to `most`, and a line for each item.
pub fn read_section<S: Source, F: LineForm>(
    alloc: Global,
    lines: &mut Lines,
    source: &mut S,
    word: &str,
    least: u32,
    most: u32,
    form: &mut F,
) -> Result<Vec<F::Item>, ReadError>
    requires { F.ready form.old [] }
    ensures reads { IsSome (S.left source.new) → Gives (λ items. items.items) result (cursor lines.new (S.left source.new)) (section_at word.now least most (F.reads form.old) (cursor lines.old (S.left source.old))) }
    ensures low { IfOk result (λ items. least ≤ length items.items) }
    ensures high { IfOk result (λ items. length items.items ≤ most) }
    ensures from { IfOk result (λ items. AllFrom (F.reads form.old) [] items.items) }
    ensures untold { TellsNoMore (S.left source.old) (S.left source.new) }
    ensures cause { FaultHasCause (S.faults source.old) (S.faults source.new) (S.left source.new) result }
{
    let count = read_count(alloc, lines, source, word, least, most)?;
    read_items(alloc, lines, source, form, count)
}
