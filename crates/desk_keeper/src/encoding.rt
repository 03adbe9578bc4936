// Commands as the rows that keep them.

ghost use Rattle.std.specs.Prelude.{◌≡◌, ◌<◌, ◌^◌, ◌++◌, ◌∷◌, [], List, ℕ, IfOk, OnOk, codes, decimal};
ghost use Rattle.desk_keeper.specs.Rows.{IsRow, IsSmall, MayKeep, body_of, command_word, head_of, how_word, mode_word, own_fields, row_of, table_word};
ghost use Rattle.desk_keeper.specs.Writing.{spaced};

use crate::words::{Command, EditWords, HowWords, Named, TableWords};
use itoa::Buffer;
use match_rules::Mode;
use std::alloc::{AllocError, Global};

fn command_word(command: &Command) -> &str
    ensures { result.now ≡ command_word command.now }
{
    match command {
        Command::Edit { .. } => "edit",
        Command::Submit { .. } => "submit",
        Command::Publish { .. } => "publish",
        Command::Draw { .. } => "draw",
    }
}

fn how_word(how: HowWords) -> &'static str
    ensures { result.now ≡ how_word how }
{
    match how {
        HowWords::Merge => "merge",
        HowWords::Replace => "replace",
    }
}

fn mode_word(mode: Mode) -> &'static str
    ensures { result.now ≡ mode_word mode }
{
    match mode {
        Mode::Whole => "whole",
        Mode::Fair => "fair",
    }
}

// The bytes behind the head line.
fn body_of<'a>(command: &'a Command, lottery: &'a [u8]) -> &'a [u8]
    ensures { result.now ≡ body_of command.now lottery.now }
{
    match command {
        Command::Edit { edit, .. } => edit.body.as_slice(),
        Command::Submit { .. } => &[],
        Command::Publish { .. } => lottery,
        Command::Draw { text, .. } => text.as_slice(),
    }
}

// A space and a field.
fn push_field(row: &mut Vec<u8>, field: &[u8]) -> Result<(), AllocError>
    ensures { OnOk result (row.new.items ≡ row.old.items ++ 32 ∷ field.now) }
{
    row.push(b' ')?;
    row.extend_from_slice(field)?;
    Ok(())
}

// A space and a number.
fn push_number(row: &mut Vec<u8>, number: u64) -> Result<(), AllocError>
    ensures { OnOk result (row.new.items ≡ row.old.items ++ 32 ∷ decimal number) }
{
    let mut buffer = Buffer::new();
    let digits = buffer.format(number);
    push_field(row, digits.as_bytes())
}

fn push_table(row: &mut Vec<u8>, table: &TableWords) -> Result<(), AllocError>
    ensures { OnOk result (row.new.items ≡ row.old.items ++ 32 ∷ table_word table.now) }
{
    let word = match table {
        TableWords::Settings => "settings",
        TableWords::Papers => "papers",
        TableWords::Reviewers => "reviewers",
        TableWords::Values { source } => {
            push_field(row, b"values-")?;
            row.extend_from_slice(source.as_str().as_bytes())?;
            return Ok(());
        }
        TableWords::Bids => "bids",
        TableWords::Marks => "marks",
        TableWords::Caps => "caps",
    };
    push_field(row, word.as_bytes())
}

fn push_edit(row: &mut Vec<u8>, base: u64, edit: &EditWords) -> Result<(), AllocError>
    ensures { OnOk result (row.new.items ≡ row.old.items ++ spaced (own_fields (Command.Edit base edit.now) [])) }
{
    push_number(row, base)?;
    push_table(row, &edit.table)?;
    push_field(row, how_word(edit.how).as_bytes())?;
    push_number(row, edit.body.as_slice().len() as u64)
}

// The own fields of a command, with a space before each.
fn push_own(row: &mut Vec<u8>, command: &Command, lottery: &[u8]) -> Result<(), AllocError>
    ensures text { OnOk result (row.new.items ≡ row.old.items ++ spaced (own_fields command.now lottery.now)) }
    ensures small { OnOk result (IsSmall command.now) }
{
    match command {
        Command::Edit { base, edit } => push_edit(row, *base, edit),
        Command::Submit { base, mode } => {
            push_number(row, *base)?;
            push_field(row, mode_word(*mode).as_bytes())
        }
        Command::Publish { job } => {
            push_number(row, *job)?;
            push_number(row, lottery.len() as u64)
        }
        Command::Draw { publication, text } => {
            push_number(row, *publication)?;
            push_number(row, text.as_slice().len() as u64)
        }
    }
}

fn push_head(row: &mut Vec<u8>, named: &Named, lottery: &[u8]) -> Result<(), AllocError>
    ensures text { OnOk result (row.new.items ≡ row.old.items ++ head_of named.now lottery.now) }
    ensures number { OnOk result (named.now.number < 2 ^ 64) }
    ensures small { OnOk result (IsSmall named.now.command) }
{
    row.extend_from_slice(command_word(&named.command).as_bytes())?;
    push_field(row, named.caller.as_str().as_bytes())?;
    push_number(row, named.number)?;
    push_own(row, &named.command, lottery)?;
    Ok(())
}

/// The row of a command; `lottery` is the text of a publish's lottery, and empty for every other command. `decode` reads
/// the row back as this command and this lottery.
pub fn encode(alloc: Global, named: &Named, lottery: &[u8]) -> Result<Vec<u8>, AllocError>
    requires { MayKeep named.now lottery.now }
    ensures { IfOk result (λ row. IsRow row.items named.now lottery.now) }
{
    let mut row = Vec::new(alloc);
    push_head(&mut row, named, lottery)?;
    row.push(b'\n')?;
    row.extend_from_slice(body_of(&named.command, lottery))?;
    Ok(row)
}
