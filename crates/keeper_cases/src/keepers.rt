//! What the keepers answer.

ghost use Rattle.std.specs.Prelude.{IfOk};
ghost use Rattle.desk_keeper.specs.Keepers.{IsNext};

use anyhow::{Context, bail};
use desk_keeper::{KeepFault, Keeper};

/// Appends a row at a place, says what the keeper answers, and gives the next place.
pub(crate) fn keep<K: Keeper>(
    rt: &HostRuntime,
    keeper: &mut K,
    place: u64,
    row: &[u8],
) -> anyhow::Result<u64>
    requires { IsNext (K.rows keeper.old) place }
    ensures { IfOk result (λ next. IsNext (K.rows keeper.new) next) }
{
    match keeper.append(rt.alloc(), place, row) {
        Ok(()) => {
            println!(rt; "kept at {place}")?;
            Ok(place.checked_add(1).context("the places are used up")?)
        }
        Err(KeepFault::Failed) => {
            println!(rt; "failed")?;
            Ok(place)
        }
        Err(KeepFault::Memory) => bail!("memory was wanting"),
    }
}

/// The lengths of the rows that a keeper tells at the places up to this one.
pub(crate) fn show_rows<K: Keeper>(
    rt: &HostRuntime,
    keeper: &mut K,
    last: u64,
) -> anyhow::Result<()> {
    for place in 0..=last {
        match keeper.read(rt.alloc(), place) {
            Ok(Some(row)) => println!(rt; "{place} length {}", row.len())?,
            Ok(None) => println!(rt; "{place} none")?,
            Err(KeepFault::Failed) => println!(rt; "{place} failed")?,
            Err(KeepFault::Memory) => bail!("memory was wanting"),
        }
    }
    Ok(())
}
