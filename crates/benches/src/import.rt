//! A table of values of affinity.

use anyhow::bail;
use bid_import::{ImportFault, read_values};
use std::io::Read;

/// Reads the table on standard input and prints the number of its rows.
pub(crate) fn import_values(rt: &HostRuntime) -> anyhow::Result<()> {
    let alloc = rt.alloc();
    let mut bytes = Vec::new(alloc);
    rt.stdin().read_to_end(&mut bytes)?;
    match read_values(alloc, bytes.as_slice()) {
        Ok(rows) => println!(rt; "rows {}", rows.len())?,
        Err(ImportFault::Memory) => bail!("memory is wanting"),
        Err(ImportFault::Bad { row, code }) => bail!("row {row}: {code:?}"),
    }
    Ok(())
}
