//! Runs the cases of its standard input: names and rows. The names come first, one a line. It says of each whether it may
//! name a chair and a source, and of a chair's name the row by which that chair draws publication 1 with its own name.
//!
//! Behind each line `row` stands a row, up to the next such line or the end. It prints `bad row`, or the command with the
//! length of its body, whether its row has the same bytes again, and whether these keep the same command. Two keepers
//! then append the row, one that never fails and one of which the third and the fifteenth call fail. At the end it prints
//! the lengths of the rows that each keeps.
#![tactic(auto)]

mod keepers;
mod names;

ghost use Rattle.std.specs.Prelude.{IfOk, IfSome};
ghost use Rattle.desk_keeper.specs.Rows.{MayKeep};

use crate::keepers::{keep, show_rows};
use crate::names::show_name;
use anyhow::{Context, bail};
use desk_keeper::{Command, Kept, MemoryKeeper, RowFault, SureKeeper, decode, encode};
use std::alloc::Global;
use std::io::Read;
use std::str;

fn command_word(command: &Command) -> &'static str {
    match command {
        Command::Edit { .. } => "edit",
        Command::Submit { .. } => "submit",
        Command::Publish { .. } => "publish",
        Command::Draw { .. } => "draw",
    }
}

fn body_length(kept: &Kept) -> usize {
    match &kept.named.command {
        Command::Edit { edit, .. } => edit.body.as_slice().len(),
        Command::Submit { .. } => 0,
        Command::Publish { .. } => kept.lottery.as_slice().len(),
        Command::Draw { text, .. } => text.as_slice().len(),
    }
}

// What a row keeps, where it is one.
fn read_row(alloc: Global, row: &[u8]) -> anyhow::Result<Option<Kept>>
    ensures { IfOk result (λ found. IfSome found (λ kept. MayKeep kept.named kept.lottery)) }
{
    match decode(alloc, row) {
        Ok(kept) => Ok(Some(kept)),
        Err(RowFault::BadRow) => Ok(None),
        Err(RowFault::Memory) => bail!("memory was wanting"),
    }
}

fn is_same(first: &Kept, second: Kept) -> bool {
    let Kept { named, lottery } = second;
    first.named.command.is_same(&named.command)
        && first.named.number == named.number
        && first.named.caller.as_str() == named.caller.into_string().as_str()
        && first.lottery.as_slice() == lottery.into_vec().as_slice()
}

fn show_row(rt: &HostRuntime, kept: &Kept, row: &[u8]) -> anyhow::Result<()>
    requires { MayKeep kept.now.named kept.now.lottery }
{
    let again = encode(rt.alloc(), &kept.named, kept.lottery.as_slice())?;
    let same = match read_row(rt.alloc(), again.as_slice())? {
        Some(other) => is_same(kept, other),
        None => false,
    };
    let word = command_word(&kept.named.command);
    let caller = kept.named.caller.as_str();
    println!(rt;
        "{word} {caller} {} body {}",
        kept.named.number,
        body_length(kept)
    )?;
    println!(rt; "bytes {} command {same}", again.as_slice() == row)?;
    Ok(())
}

fn show_rows_of(rt: &HostRuntime, text: &str) -> anyhow::Result<()> {
    let alloc = rt.alloc();
    let mut sure = SureKeeper::new(alloc);
    let mut listed = MemoryKeeper::new(Vec::new(alloc), Vec::from_slice(alloc, &[3, 15])?);
    let (mut sure_place, mut listed_place) = (0, 0);
    for row in text.split("row\n") {
        let Some(kept) = read_row(alloc, row.as_bytes())? else {
            println!(rt; "bad row")?;
            continue;
        };
        show_row(rt, &kept, row.as_bytes())?;
        sure_place = keep(rt, &mut sure, sure_place, row.as_bytes())?;
        listed_place = keep(rt, &mut listed, listed_place, row.as_bytes())?;
    }
    show_rows(rt, &mut sure, sure_place)?;
    show_rows(rt, &mut listed, listed_place)
}

fn run(rt: &HostRuntime) -> anyhow::Result<()> {
    let mut bytes = Vec::new(rt.alloc());
    rt.stdin().read_to_end(&mut bytes)?;
    let text = str::from_utf8(bytes.as_slice())?;
    let (names, rows) = text.split_once("row\n").context("there is no row")?;
    for name in names.lines() {
        show_name(rt, name)?;
    }
    show_rows_of(rt, rows)
}

fn main(rt: HostRuntime) -> anyhow::Result<()> {
    run(&rt)
}
