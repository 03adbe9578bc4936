//! The rows of a keeper.

use crate::texts::print_text;
use anyhow::{Context, bail};
use desk_keeper::{KeepFault, Keeper, MemoryKeeper};
use std::alloc::{AllocError, Global};
use std::str;

fn row_at(alloc: Global, keeper: &mut MemoryKeeper, place: u64) -> anyhow::Result<Option<Vec<u8>>> {
    match keeper.read(alloc, place) {
        Ok(row) => Ok(row),
        Err(KeepFault::Failed) => bail!("the keeper failed"),
        Err(KeepFault::Memory) => bail!("memory was wanting"),
    }
}

/// A copy of all rows of a keeper.
pub(crate) fn rows_of(alloc: Global, keeper: &mut MemoryKeeper) -> anyhow::Result<Vec<Vec<u8>>> {
    let mut rows = Vec::new(alloc);
    for place in 0..=100_000u64 {
        match row_at(alloc, keeper, place)? {
            Some(row) => rows.push(row)?,
            None => break,
        }
    }
    Ok(rows)
}

/// A copy of these rows.
pub(crate) fn copy_of(alloc: Global, rows: &[Vec<u8>]) -> Result<Vec<Vec<u8>>, AllocError> {
    let mut copy = Vec::new(alloc);
    for row in rows {
        copy.push(Vec::from_slice(alloc, row.as_slice())?)?;
    }
    Ok(copy)
}

/// Prints the rows.
pub(crate) fn print_rows(rt: &HostRuntime, rows: &[Vec<u8>]) -> anyhow::Result<()> {
    println!(rt; "{} rows", rows.len())?;
    for row in rows {
        print_text(rt, str::from_utf8(row.as_slice())?)?;
    }
    Ok(())
}

// A text with another one in the place of the first text that is old.
fn spoiled(alloc: Global, text: &str, texts: &str) -> anyhow::Result<Vec<u8>> {
    let (old, new) = texts.split_once(" => ").context("spoil PLACE OLD => NEW")?;
    let (front, back) = text.split_once(old).context("the row has no such text")?;
    let text = format!(in alloc; "{front}{new}{back}")?;
    Ok(Vec::from_slice(alloc, text.as_bytes())?)
}

/// Spoils a row, as `PLACE OLD => NEW` says.
pub(crate) fn spoil(alloc: Global, rows: &mut Vec<Vec<u8>>, rest: &str) -> anyhow::Result<()> {
    let (place, texts) = rest.split_once(' ').context("spoil PLACE OLD => NEW")?;
    let row = rows
        .get_mut(place.parse::<usize>()?)
        .context("there is no such row")?;
    *row = spoiled(alloc, str::from_utf8(row.as_slice())?, texts)?;
    Ok(())
}
