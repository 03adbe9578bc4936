//! The rows of a keeper.

ghost use Rattle.std.specs.Prelude.{◌≡◌, IfOk};
ghost use Rattle.match_rules.specs.Rules.{AreRules};
ghost use Rattle.desk_keeper.specs.Keepers.{Tells};

use crate::parts::lines_of;
use anyhow::{Context, bail};
use desk_keeper::{KeepFault, Keeper, Kept, MemoryKeeper, RowFault, decode};
use match_rules::{Rules, Scratch};
use publication::{check, read_answer};
use std::alloc::Global;
use std::str;

// The row at a place.
fn row_at(alloc: Global, keeper: &mut MemoryKeeper, place: u64) -> anyhow::Result<Option<Vec<u8>>>
    ensures { keeper.new.rows ≡ keeper.old.rows }
{
    match keeper.read(alloc, place) {
        Ok(row) => Ok(row),
        Err(KeepFault::Failed) => bail!("the keeper failed"),
        Err(KeepFault::Memory) => bail!("memory was wanting"),
    }
}

/// A copy of all rows.
pub(crate) fn rows_of(alloc: Global, keeper: &mut MemoryKeeper) -> anyhow::Result<Vec<Vec<u8>>>
    ensures { keeper.new.rows ≡ keeper.old.rows }
{
    let mut rows = Vec::new(alloc);
    for place in 0..=100_000u64 {
        match row_at(alloc, keeper, place)? {
            Some(row) => rows.push(row)?,
            None => break,
        }
    }
    Ok(rows)
}

/// Prints the number of rows, and the head line of the last.
pub(crate) fn print_rows(rt: &HostRuntime, rows: &[Vec<u8>]) -> anyhow::Result<()> {
    print!(rt; "rows {}", rows.len())?;
    if let Some(row) = rows.last() {
        let text = str::from_utf8(row.as_slice())?;
        print!(rt; ": {}", text.lines().next().unwrap_or(""))?;
    }
    println!(rt; "")?;
    Ok(())
}

// A text with another one in the place of the first text that is old.
fn spoiled(alloc: Global, text: &str, old: &str, new: &str) -> anyhow::Result<Vec<u8>> {
    let (front, back) = text.split_once(old).context("the row has no such text")?;
    let text = format!(in alloc; "{front}{new}{back}")?;
    Ok(Vec::from_slice(alloc, text.as_bytes())?)
}

/// Spoils a row, as `PLACE OLD => NEW` says.
pub(crate) fn spoil(alloc: Global, rows: &mut Vec<Vec<u8>>, rest: &str) -> anyhow::Result<()> {
    let (place, texts) = rest.split_once(' ').context("spoil PLACE OLD => NEW")?;
    let (old, new) = texts.split_once(" => ").context("spoil PLACE OLD => NEW")?;
    let old = lines_of(alloc, old)?;
    let new = lines_of(alloc, new)?;
    let row = rows
        .get_mut(place.parse::<usize>()?)
        .context("there is no such row")?;
    *row = spoiled(
        alloc,
        str::from_utf8(row.as_slice())?,
        str::from_utf8(old.as_slice())?,
        str::from_utf8(new.as_slice())?,
    )?;
    Ok(())
}

fn decoded(alloc: Global, row: &[u8]) -> anyhow::Result<Kept> {
    match decode(alloc, row) {
        Ok(kept) => Ok(kept),
        Err(RowFault::BadRow) => bail!("a row is none"),
        Err(RowFault::Memory) => bail!("memory was wanting"),
    }
}

// Reads and checks the text of a lottery.
fn check_lottery(alloc: Global, rules: &Rules, text: &[u8]) -> anyhow::Result<()> {
    let Ok(answer) = read_answer(alloc, rules, text) else {
        bail!("a text is that of no lottery");
    };
    let mut scratch = Scratch::new(alloc, rules)?;
    if check(rules, &answer, &mut scratch).is_some() {
        bail!("a lottery isn't right for the present rules");
    }
    Ok(())
}

/// Decodes each row, checks each lottery against these rules, and prints how many there are of both.
pub(crate) fn check_rows(rt: &HostRuntime, rules: &Rules, rows: &[Vec<u8>]) -> anyhow::Result<()> {
    let mut lotteries = 0u64;
    for row in rows {
        let kept = decoded(rt.alloc(), row.as_slice())?;
        let text = kept.lottery.as_slice();
        if !text.is_empty() {
            check_lottery(rt.alloc(), rules, text)?;
            lotteries += 1;
        }
    }
    println!(rt; "rows {} lotteries {lotteries}", rows.len())?;
    Ok(())
}
