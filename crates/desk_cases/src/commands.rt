//! Commands and looks, as their lines have them.

ghost use Rattle.std.specs.Prelude.{◌≡◌, true, IfOk};
ghost use Rattle.desk_keeper.specs.declared.words.HowWords.TheVariants.{Replace};
ghost use Rattle.desk_keeper.specs.Rows.{are_edit_words};
ghost use Rattle.desk_history.specs.Steps.{MayCommand};

use crate::parts::{cut, lines_of};
use anyhow::{Context, bail};
use desk_history::Look;
use desk_keeper::{Command, EditWords, HowWords, Name, Named, TableWords, is_source_name};
use match_rules::Mode;
use std::alloc::Global;

fn values_of(alloc: Global, word: &str) -> anyhow::Result<TableWords>
    ensures { IfOk result (λ table. are_edit_words table Replace ≡ true) }
{
    let name = word
        .strip_prefix("values-")
        .context("no table has this name")?;
    if !is_source_name(name) {
        bail!("{name} is no name of a source");
    }
    let source = Name::read(alloc, name)?;
    Ok(TableWords::Values { source })
}

fn table_of(alloc: Global, word: &str) -> anyhow::Result<TableWords>
    ensures { IfOk result (λ table. are_edit_words table Replace ≡ true) }
{
    match word {
        "settings" => Ok(TableWords::Settings),
        "papers" => Ok(TableWords::Papers),
        "reviewers" => Ok(TableWords::Reviewers),
        "bids" => Ok(TableWords::Bids),
        "marks" => Ok(TableWords::Marks),
        "caps" => Ok(TableWords::Caps),
        _ => values_of(alloc, word),
    }
}

// Settings are replaced, whatever stands there.
fn how_of(table: &TableWords, word: &str) -> HowWords
    requires { are_edit_words table.now Replace ≡ true }
    ensures { are_edit_words table.now result ≡ true }
{
    match table {
        TableWords::Settings => HowWords::Replace,
        _ => {
            if word == "merge" {
                HowWords::Merge
            } else {
                HowWords::Replace
            }
        }
    }
}

// The words `TABLE HOW BODY`.
fn edit_of(alloc: Global, rest: &str) -> anyhow::Result<EditWords>
    ensures { IfOk result (λ edit. are_edit_words edit.table edit.how ≡ true) }
{
    let (table, rest) = cut(rest);
    let (how, text) = cut(rest);
    let table = table_of(alloc, table)?;
    let how = how_of(&table, how);
    let body = lines_of(alloc, text)?;
    Ok(EditWords { table, how, body })
}

/// The mode of a word.
fn mode_of(word: &str) -> anyhow::Result<Mode> {
    match word {
        "whole" => Ok(Mode::Whole),
        "fair" => Ok(Mode::Fair),
        _ => bail!("{word} is no mode"),
    }
}

// A command, by its word and by what stands behind its number.
fn command_of(alloc: Global, word: &str, rest: &str) -> anyhow::Result<Command>
    ensures { IfOk result MayCommand }
{
    let (first, rest) = cut(rest);
    let first = first.parse::<u64>()?;
    match word {
        "edit" => Ok(Command::Edit {
            base: first,
            edit: edit_of(alloc, rest)?,
        }),
        "submit" => Ok(Command::Submit {
            base: first,
            mode: mode_of(rest)?,
        }),
        "publish" => Ok(Command::Publish { job: first }),
        "draw" => Ok(Command::Draw {
            publication: first,
            text: lines_of(alloc, rest)?,
        }),
        _ => bail!("{word} is no word of a case"),
    }
}

/// A command, by its word and the words behind it, which begin with the caller and the number.
pub(crate) fn named_of(alloc: Global, word: &str, rest: &str) -> anyhow::Result<Named>
    ensures { IfOk result (λ its. MayCommand its.command) }
{
    let (caller, rest) = cut(rest);
    let (number, rest) = cut(rest);
    let command = command_of(alloc, word, rest)?;
    let caller = Name::read(alloc, caller)?;
    let number = number.parse::<u64>()?;
    Ok(Named {
        caller,
        number,
        command,
    })
}

/// What is looked at.
pub(crate) fn look_of(rest: &str) -> anyhow::Result<Look> {
    let (word, rest) = cut(rest);
    let (first, second) = cut(rest);
    match word {
        "edition" => Ok(Look::Edition),
        "rules" => Ok(Look::Rules),
        "job" => Ok(Look::Job {
            job: first.parse::<u64>()?,
        }),
        "answer" => Ok(Look::Answer {
            job: first.parse::<u64>()?,
        }),
        "publication" => Ok(Look::Publication {
            number: first.parse::<u64>()?,
        }),
        "ticket" => Ok(Look::Ticket {
            publication: first.parse::<u64>()?,
            ticket: second.parse::<u64>()?,
        }),
        _ => bail!("{word} is nothing to look at"),
    }
}
