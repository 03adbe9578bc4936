//! What a keeper answers to a line.

use anyhow::{Context, bail};
use desk_keeper::{KeepFault, Keeper};
use keeper_sqlite::SqliteKeeper;
use sqlite::Alter;
use std::str;

fn append<S: Alter>(
    rt: &HostRuntime,
    keeper: &mut SqliteKeeper<S>,
    place: u64,
    row: &[u8],
) -> anyhow::Result<()> {
    match keeper.append(rt.alloc(), place, row) {
        Ok(()) => println!(rt; "kept at {place}")?,
        Err(KeepFault::Failed) => println!(rt; "append at {place} failed")?,
        Err(KeepFault::Memory) => bail!("memory was wanting"),
    }
    Ok(())
}

fn read<S: Alter>(
    rt: &HostRuntime,
    keeper: &mut SqliteKeeper<S>,
    place: u64,
) -> anyhow::Result<()> {
    match keeper.read(rt.alloc(), place) {
        Ok(Some(row)) => println!(rt; "{place} {}", str::from_utf8(row.as_slice())?)?,
        Ok(None) => println!(rt; "{place} none")?,
        Err(KeepFault::Failed) => println!(rt; "read at {place} failed")?,
        Err(KeepFault::Memory) => bail!("memory was wanting"),
    }
    Ok(())
}

fn fill<S: Alter>(
    rt: &HostRuntime,
    keeper: &mut SqliteKeeper<S>,
    first: u64,
    end: u64,
) -> anyhow::Result<()> {
    for place in first..end {
        if keeper.append(rt.alloc(), place, &[b'a'; 100]).is_err() {
            bail!("no row was kept at {place}");
        }
    }
    println!(rt; "filled {first} to {end}")?;
    Ok(())
}

/// Runs a line over a keeper.
pub(crate) fn run_line<S: Alter>(
    rt: &HostRuntime,
    keeper: &mut SqliteKeeper<S>,
    line: &str,
) -> anyhow::Result<()> {
    let (word, rest) = line.split_once(' ').context("a line has two words")?;
    match word {
        "append" => {
            let (place, text) = rest.split_once(' ').context("append PLACE TEXT")?;
            append(rt, keeper, place.parse()?, text.as_bytes())
        }
        "read" => read(rt, keeper, rest.parse()?),
        "fill" => {
            let (first, end) = rest.split_once(' ').context("fill FIRST END")?;
            fill(rt, keeper, first.parse()?, end.parse()?)
        }
        _ => bail!("the word {word} is unknown"),
    }
}
