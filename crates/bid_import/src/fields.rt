// The fields of a record, one by one.

ghost use Rattle.std.specs.Prelude.{◌≡◌, ℕ, ◌<◌, ◌&&◌, [], ◌∷◌, List, length, map, option_map, Some};
ghost use Rattle.csv.specs.Records.{fields_of, field_at};
ghost use Rattle.std.specs.Borrow.{Bor};
ghost use Rattle.std.specs.List.{list_all, list_any};
ghost use Rattle.std.specs.Char.{is_ascii_digit};
ghost use Rattle.std.specs.Str.{bytes_eq};
ghost use Rattle.score_spec.specs.declared.spec.BidWord.{BidWord};
ghost use Rattle.bid_import.specs.Files.{Reads, is_header};
ghost use Rattle.bid_import.specs.Names.{ReadsNames, ReadsAll};
ghost use Rattle.bid_import.specs.Fields.{id_of, is_count, count_of, demand_of, institution_of, load_of, load_of_counts, value_of, mark_from, mark_of, cap_from, cap_of, word_of, names_in, institutions_of, three_of, four_of};

use crate::fault::{Code, RowFault};
use csv::StringRecord;
use match_rules::{IdFault, Institution, PaperId, ReviewerId};
use roster::{Institutions, Load};
use score_spec::{BidWord, NumberFault, Text, Value, read_value};
use std::alloc::Global;

pub(crate) fn paper_id(alloc: Global, text: &str) -> Result<PaperId, RowFault>
    ensures { Reads result (id_of text.now) }
{
    match PaperId::read(alloc, text) {
        Ok(id) => Ok(id),
        Err(IdFault::BadId) => Err(RowFault::Wrong(Code::BadId)),
        Err(IdFault::Memory) => Err(RowFault::Memory),
    }
}

pub(crate) fn reviewer_id(alloc: Global, text: &str) -> Result<ReviewerId, RowFault>
    ensures { Reads result (id_of text.now) }
{
    match ReviewerId::read(alloc, text) {
        Ok(id) => Ok(id),
        Err(IdFault::BadId) => Err(RowFault::Wrong(Code::BadId)),
        Err(IdFault::Memory) => Err(RowFault::Memory),
    }
}

pub(crate) fn institution(alloc: Global, text: &str) -> Result<Option<Institution>, RowFault>
    ensures { Reads result (institution_of text.now) }
{
    if text.is_empty() {
        return Ok(None);
    }
    match Institution::read(alloc, text) {
        Ok(name) => Ok(Some(name)),
        Err(IdFault::BadId) => Err(RowFault::Wrong(Code::BadId)),
        Err(IdFault::Memory) => Err(RowFault::Memory),
    }
}

fn all_digits(bytes: &[u8]) -> bool
    ensures { result ≡ list_all is_ascii_digit bytes.now }
{
    bytes.iter().all(|b| b.is_ascii_digit())
}

fn is_count(text: &str) -> bool
    ensures { result ≡ is_count text.now }
{
    if text.is_empty() {
        return false;
    }
    if text.len() > 9 {
        return false;
    }
    all_digits(text.as_bytes())
}

// The number that 1 to 9 digits write.
fn count(text: &str) -> Option<u32>
    ensures { result ≡ count_of text.now }
{
    if !is_count(text) {
        return None;
    }
    match text.parse::<u32>() {
        Ok(number) => Some(number),
        Err(_) => None,
    }
}

pub(crate) fn demand(text: &str) -> Result<Option<u32>, Code>
    ensures { result ≡ demand_of text.now }
{
    if text.is_empty() {
        return Ok(None);
    }
    match count(text) {
        Some(number) => {
            if number > 100 {
                return Err(Code::BadDemand);
            }
            Ok(Some(number))
        }
        None => Err(Code::BadDemand),
    }
}

// The load of two numbers.
fn given_load(least: &str, greatest: &str) -> Option<Load>
    ensures { result ≡ load_of_counts (count_of least.now) (count_of greatest.now) }
{
    Load::new(count(least)?, count(greatest)?)
}

pub(crate) fn load(least: &str, greatest: &str) -> Result<Option<Load>, Code>
    ensures { result ≡ load_of least.now greatest.now }
{
    if least.is_empty() && greatest.is_empty() {
        return Ok(None);
    }
    match given_load(least, greatest) {
        Some(load) => Ok(Some(load)),
        None => Err(Code::BadLoad),
    }
}

pub(crate) fn value(text: &str) -> Result<Value, Code>
    ensures { result ≡ value_of text.now }
{
    match read_value(text) {
        Ok(value) => Ok(value),
        Err(NumberFault::BadNumber { place: _ }) => Err(Code::BadNumber),
        Err(NumberFault::OutOfRange) => Err(Code::OutOfRange),
    }
}

fn mark_from(value: Value) -> Result<i32, Code>
    ensures { result ≡ mark_from value }
{
    let number = value.tenthousandths();
    if number == -10_000 {
        return Ok(-1);
    }
    if number == 0 {
        return Ok(0);
    }
    if number == 10_000 {
        return Ok(1);
    }
    Err(Code::BadMark)
}

pub(crate) fn mark(text: &str) -> Result<i32, Code>
    ensures { result ≡ mark_of text.now }
{
    mark_from(value(text)?)
}

fn cap_from(value: Value) -> Result<Value, Code>
    ensures { result ≡ cap_from value }
{
    let number = value.tenthousandths();
    if number < 0 {
        return Err(Code::BadCap);
    }
    if number > 10_000 {
        return Err(Code::BadCap);
    }
    Ok(value)
}

pub(crate) fn cap(text: &str) -> Result<Value, Code>
    ensures { result ≡ cap_of text.now }
{
    cap_from(value(text)?)
}

fn has_name(known: &[&str], name: &str) -> bool
    ensures { result ≡ list_any (λ (other : Bor (List ℕ)). bytes_eq other.now name.now) known.now }
{
    for other in known {
        if *other == name {
            return true;
        }
    }
    false
}

// The distinct names between the semicolons of a text, where they are at most 64.
fn names<'a>(alloc: Global, text: &'a str) -> Result<Vec<&'a str>, RowFault>
    ensures { ReadsNames result (names_in text.entry.now) }
{
    let mut known: Vec<&'a str> = Vec::new(alloc);
    if text.is_empty() {
        return Ok(known);
    }
    for name in text.split(';') {
        if has_name(known.as_slice(), name) {
            continue;
        }
        if known.len() >= 64 {
            return Err(RowFault::Wrong(Code::TooMany));
        }
        known.push(name)?;
    }
    Ok(known)
}

fn all_institutions(alloc: Global, names: &[&str]) -> Result<Vec<Institution>, RowFault>
    ensures { ReadsAll result (map (λ (n : Bor (List ℕ)). n.now) names.now) }
{
    let mut items = Vec::new(alloc);
    for name in names {
        match Institution::read(alloc, *name) {
            Ok(item) => items.push(item)?,
            Err(IdFault::BadId) => return Err(RowFault::Wrong(Code::BadId)),
            Err(IdFault::Memory) => return Err(RowFault::Memory),
        }
    }
    Ok(items)
}

pub(crate) fn institutions(alloc: Global, text: &str) -> Result<Institutions, RowFault>
    ensures { Reads result (institutions_of (names_in text.now)) }
{
    let names = names(alloc, text)?;
    let items = all_institutions(alloc, names.as_slice())?;
    Ok(Institutions::from_vec(items))
}

// Whether a bid is one of the words.
fn is_word(words: &[BidWord], text: &str) -> bool
    ensures { result ≡ list_any (λ (w : BidWord). bytes_eq w.word text.now) words.now }
{
    for known in words {
        if known.word.as_str() == text {
            return true;
        }
    }
    false
}

pub(crate) fn word(alloc: Global, words: &[BidWord], text: &str) -> Result<Text, RowFault>
    ensures { Reads result (word_of words.now text.now) }
{
    if !is_word(words, text) {
        return Err(RowFault::Wrong(Code::UnknownWord));
    }
    Ok(Text::read(alloc, text)?)
}

// The field at a place.
fn field(found: &StringRecord, place: usize) -> &str
    requires { place < length (fields_of found.now) }
    ensures { field_at (fields_of found.now) place ≡ Some result.now }
{
    match found.get(place) {
        Some(text) => text,
        None => unreachable!(),
    }
}

/// The three fields of a record, where it has three.
pub(crate) fn three(found: &StringRecord) -> Option<(&str, &str, &str)>
    ensures { option_map (λ (t : Bor (List ℕ) × Bor (List ℕ) × Bor (List ℕ)). (t.0.now, t.1.now, t.2.now)) result ≡ three_of (fields_of found.now) }
{
    if found.len() != 3 {
        return None;
    }
    let first = field(found, 0);
    let second = field(found, 1);
    let third = field(found, 2);
    Some((first, second, third))
}

/// The four fields of a record, where it has four.
pub(crate) fn four(found: &StringRecord) -> Option<(&str, &str, &str, &str)>
    ensures { option_map (λ (t : Bor (List ℕ) × Bor (List ℕ) × Bor (List ℕ) × Bor (List ℕ)). (t.0.now, t.1.now, t.2.now, t.3.now)) result ≡ four_of (fields_of found.now) }
{
    if found.len() != 4 {
        return None;
    }
    let first = field(found, 0);
    let second = field(found, 1);
    let third = field(found, 2);
    let fourth = field(found, 3);
    Some((first, second, third, fourth))
}

fn three_same(first: &str, second: &str, third: &str, x: &str, y: &str, z: &str) -> bool
    ensures { result ≡ bytes_eq first.now x.now && (bytes_eq second.now y.now && bytes_eq third.now z.now) }
{
    if first != x {
        return false;
    }
    if second != y {
        return false;
    }
    third == z
}

/// Whether the fields of a record are these three texts.
pub(crate) fn has_three(found: &StringRecord, first: &str, second: &str, third: &str) -> bool
    ensures { result ≡ is_header (first.now ∷ second.now ∷ third.now ∷ []) (fields_of found.now) }
{
    match three(found) {
        Some((x, y, z)) => three_same(first, second, third, x, y, z),
        None => false,
    }
}

fn and_same(front: bool, fourth: &str, w: &str) -> bool
    ensures { result ≡ front && bytes_eq fourth.now w.now }
{
    if !front {
        return false;
    }
    fourth == w
}

/// Whether the fields of a record are these four texts.
pub(crate) fn has_four(
    found: &StringRecord,
    first: &str,
    second: &str,
    third: &str,
    fourth: &str,
) -> bool
    ensures { result ≡ is_header (first.now ∷ second.now ∷ third.now ∷ fourth.now ∷ []) (fields_of found.now) }
{
    match four(found) {
        Some((x, y, z, w)) => {
            let front = three_same(first, second, third, x, y, z);
            and_same(front, fourth, w)
        }
        None => false,
    }
}
