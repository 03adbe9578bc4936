// Rows as they are read: each function answers what the bytes spell.

ghost use Rattle.std.specs.Prelude.{◌≡◌, ◌∷◌, [], None, Some, true, false, MatchOption, IsNone, IfSome, IfOk, length, codes};
ghost use Rattle.std.specs.List.{position_or_len};
ghost use Rattle.std.specs.Option.{option_map};
ghost use Rattle.std.specs.Str.{is_utf8};
ghost use Rattle.text_lines.specs.Reading.{is_feed};
ghost use Rattle.text_lines.specs.Fields.{fields, four_of};
ghost use Rattle.desk_keeper.specs.Rows.{are_edit_words};
ghost use Rattle.desk_keeper.specs.Reading.{Decodes, number_in, how_in, mode_in, table_in, values_in, has_length, needs, edit_in, submit_in, publish_in, draw_in, command_in, head_from, head_in, line_in, lottery_in, kept_in};

use crate::names::{is_chair_name, is_source_name};
use crate::words::{Bytes, Command, EditWords, HowWords, Kept, Name, Named, RowFault, TableWords};
use match_rules::Mode;
use memchr::memchr;
use std::alloc::{AllocError, Global};
use text_lines::{MOST_AMOUNT, first_field, is_canonical, number_up_to, two_fields};

fn number_in(field: &str) -> Option<u64>
    ensures { result ≡ number_in field.now }
{
    let text = field.as_bytes();
    if !is_canonical(text) {
        return None;
    }
    number_up_to(text, MOST_AMOUNT)
}

fn how_in(field: &str) -> Option<HowWords>
    ensures { result ≡ how_in field.now }
{
    if field == "merge" {
        return Some(HowWords::Merge);
    }
    if field == "replace" {
        return Some(HowWords::Replace);
    }
    None
}

fn mode_in(field: &str) -> Option<Mode>
    ensures { result ≡ mode_in field.now }
{
    if field == "whole" {
        return Some(Mode::Whole);
    }
    if field == "fair" {
        return Some(Mode::Fair);
    }
    None
}

// Whether the field spells the length of the body.
fn has_length(field: &str, body: &[u8]) -> bool
    ensures { needs result ≡ has_length field.now body.now }
{
    match number_in(field) {
        Some(count) => count == body.len() as u64,
        None => false,
    }
}

// The source of a table of values.
fn source_in(field: &str) -> Option<&str>
    ensures { MatchOption result (values_in field.now ≡ None) (λ source. values_in field.now ≡ Some (TableWords.Values source.now)) }
{
    field.strip_prefix("values-")
}

fn values_in(alloc: Global, field: &str) -> Result<TableWords, RowFault>
    ensures { Decodes result (values_in field.now) }
{
    let Some(source) = source_in(field) else {
        return Err(RowFault::BadRow);
    };
    match Name::read(alloc, source) {
        Ok(source) => Ok(TableWords::Values { source }),
        Err(_) => Err(RowFault::Memory),
    }
}

fn table_in(alloc: Global, field: &str) -> Result<TableWords, RowFault>
    ensures { Decodes result (table_in field.now) }
{
    match field {
        "settings" => Ok(TableWords::Settings),
        "papers" => Ok(TableWords::Papers),
        "reviewers" => Ok(TableWords::Reviewers),
        "bids" => Ok(TableWords::Bids),
        "marks" => Ok(TableWords::Marks),
        "caps" => Ok(TableWords::Caps),
        _ => values_in(alloc, field),
    }
}

// Whether the settings are replaced alone, and values are those of a source.
fn are_edit_words(table: &TableWords, how: HowWords) -> bool
    ensures { result ≡ are_edit_words table.now how }
{
    match table {
        TableWords::Settings => matches!(how, HowWords::Replace),
        TableWords::Values { source } => is_source_name(source.as_str()),
        _ => true,
    }
}

// The four fields of a line, where it has just four.
fn four_fields(line: &str) -> Option<(&str, &str, &str, &str)>
    ensures { option_map (λ parts. (parts.0.now, parts.1.now, parts.2.now, parts.3.now)) result ≡ four_of (fields line.now) }
{
    let (first, rest) = first_field(line)?;
    let (second, rest) = first_field(rest)?;
    let (third, fourth) = two_fields(rest)?;
    Some((first, second, third, fourth))
}

// The words and the body of an edit.
#[tactic(auto, unfolding(crate::specs::Reading::edit_in))]
fn edit_in(alloc: Global, line: &str, body: &[u8]) -> Result<Command, RowFault>
    ensures { Decodes result (edit_in (fields line.now) body.now) }
{
    let Some((base, table, how, length)) = four_fields(line) else {
        return Err(RowFault::BadRow);
    };
    let Some(base) = number_in(base) else {
        return Err(RowFault::BadRow);
    };
    let table = match table_in(alloc, table) {
        Ok(table) => table,
        Err(fault) => return Err(fault),
    };
    let Some(how) = how_in(how) else {
        return Err(RowFault::BadRow);
    };
    if !are_edit_words(&table, how) {
        return Err(RowFault::BadRow);
    }
    if !has_length(length, body) {
        return Err(RowFault::BadRow);
    }
    match Bytes::read(alloc, body) {
        Ok(body) => Ok(Command::Edit {
            base,
            edit: EditWords { table, how, body },
        }),
        Err(_) => Err(RowFault::Memory),
    }
}

#[tactic(auto, unfolding(crate::specs::Reading::submit_in))]
fn submit_in(line: &str, body: &[u8]) -> Option<Command>
    ensures { result ≡ submit_in (fields line.now) body.now }
{
    let (base, mode) = two_fields(line)?;
    let base = number_in(base)?;
    let mode = mode_in(mode)?;
    if !body.is_empty() {
        return None;
    }
    Some(Command::Submit { base, mode })
}

#[tactic(auto, unfolding(crate::specs::Reading::publish_in))]
fn publish_in(line: &str, body: &[u8]) -> Option<Command>
    ensures { result ≡ publish_in (fields line.now) body.now }
{
    let (job, length) = two_fields(line)?;
    let job = number_in(job)?;
    if !has_length(length, body) {
        return None;
    }
    Some(Command::Publish { job })
}

// The publication of a draw, where the line also spells the length of the text.
#[tactic(auto, unfolding(crate::specs::Reading::draw_in))]
fn publication_in(line: &str, text: &[u8]) -> Option<u64>
    ensures { option_map (λ publication. Command.Draw publication text.now) result ≡ draw_in (fields line.now) text.now }
{
    let (publication, length) = two_fields(line)?;
    let publication = number_in(publication)?;
    if !has_length(length, text) {
        return None;
    }
    Some(publication)
}

fn draw_in(alloc: Global, line: &str, text: &[u8]) -> Result<Command, RowFault>
    ensures { Decodes result (draw_in (fields line.now) text.now) }
{
    let Some(publication) = publication_in(line, text) else {
        return Err(RowFault::BadRow);
    };
    match Bytes::read(alloc, text) {
        Ok(text) => Ok(Command::Draw { publication, text }),
        Err(_) => Err(RowFault::Memory),
    }
}

// A command by its word, the line of its own fields, and its body.
fn command_in(alloc: Global, word: &str, line: &str, body: &[u8]) -> Result<Command, RowFault>
    ensures { Decodes result (command_in word.now (fields line.now) body.now) }
{
    match word {
        "edit" => edit_in(alloc, line, body),
        "submit" => submit_in(line, body).ok_or(RowFault::BadRow),
        "publish" => publish_in(line, body).ok_or(RowFault::BadRow),
        "draw" => draw_in(alloc, line, body),
        _ => Err(RowFault::BadRow),
    }
}

// The first three fields of a head line, and the line of the others.
#[derive(Clone, Copy)]
struct Head<'a> {
    word: &'a str,
    caller: &'a str,
    number: u64,
    own: &'a str,
}

// The first three fields of a line, and the line of the others.
#[tactic(auto, using(crate::proofs::ReadingLaws::head_more))]
fn three_fields(line: &str) -> Option<(&str, &str, &str, &str)>
    ensures { MatchOption result (head_in (fields line.now) ≡ None) (λ parts. head_in (fields line.now) ≡ head_from parts.0.now parts.1.now parts.2.now (fields parts.3.now)) }
{
    let (first, rest) = first_field(line)?;
    let (second, rest) = first_field(rest)?;
    let (third, rest) = first_field(rest)?;
    Some((first, second, third, rest))
}

fn head_in(line: &str) -> Option<Head<'_>>
    ensures { MatchOption result (head_in (fields line.now) ≡ None) (λ head. head_in (fields line.now) ≡ Some (record {
      word = head.word.now;
      caller = head.caller.now;
      number = head.number;
      own = fields head.own.now;
    })) }
{
    let (word, caller, number, own) = three_fields(line)?;
    if !is_chair_name(caller) {
        return None;
    }
    let number = number_in(number)?;
    Some(Head {
        word,
        caller,
        number,
        own,
    })
}

// The place of the first line feed, or the length where there is none.
fn feed_in(row: &[u8]) -> usize
    ensures { result ≡ position_or_len is_feed row.now }
{
    memchr(b'\n', row).unwrap_or(row.len())
}

// The head line of a row, without its line feed, and the bytes behind it.
fn line_in(row: &[u8]) -> Option<(&[u8], &[u8])>
    ensures { option_map (λ parts. (parts.0.now, parts.1.now)) result ≡ line_in row.now }
{
    let end = feed_in(row);
    if end >= row.len() {
        return None;
    }
    Some((&row[..end], &row[end + 1..]))
}

fn lottery_in(alloc: Global, command: &Command, body: &[u8]) -> Result<Bytes, AllocError>
    ensures { IfOk result (λ lottery. lottery ≡ lottery_in command.now body.now) }
{
    match command {
        Command::Publish { .. } => Bytes::read(alloc, body),
        _ => Ok(Bytes::new(alloc)),
    }
}

fn text_in(line: &[u8]) -> Option<&str>
    ensures none { IsNone result → is_utf8 line.now ≡ false }
    ensures some { IfSome result (λ text. is_utf8 line.now ≡ true) }
    ensures same { IfSome result (λ text. text.now ≡ line.now) }
{
    match str::from_utf8(line) {
        Ok(text) => Some(text),
        Err(_) => None,
    }
}

fn kept_of(
    alloc: Global,
    caller: &str,
    number: u64,
    command: Command,
    body: &[u8],
) -> Result<Kept, AllocError>
    ensures { IfOk result (λ kept. kept ≡ record {
      named = record { caller = caller.now; number = number; command = command };
      lottery = lottery_in command body.now;
    }) }
{
    let lottery = lottery_in(alloc, &command, body)?;
    let caller = Name::read(alloc, caller)?;
    Ok(Kept {
        named: Named {
            caller,
            number,
            command,
        },
        lottery,
    })
}

// What the bytes of a row are read as.
#[tactic(auto, unfolding(crate::specs::Reading::kept_in))]
pub(crate) fn kept_in(alloc: Global, row: &[u8]) -> Result<Kept, RowFault>
    ensures { Decodes result (kept_in row.now) }
{
    let Some((line, body)) = line_in(row) else {
        return Err(RowFault::BadRow);
    };
    let Some(line) = text_in(line) else {
        return Err(RowFault::BadRow);
    };
    let Some(head) = head_in(line) else {
        return Err(RowFault::BadRow);
    };
    let command = match command_in(alloc, head.word, head.own, body) {
        Ok(command) => command,
        Err(fault) => return Err(fault),
    };
    match kept_of(alloc, head.caller, head.number, command, body) {
        Ok(kept) => Ok(kept),
        Err(_) => Err(RowFault::Memory),
    }
}
