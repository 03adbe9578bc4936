// The parts of a case, as their lines are read.

use crate::bytes::push_text;
use anyhow::{Context, bail};
use edge_io::MemoryFile;
use std::alloc::Global;

/// Begins a part.
pub(crate) fn begin(alloc: Global, parts: &mut Vec<MemoryFile>, name: &str) -> anyhow::Result<()> {
    let name = String::from_str(alloc, name)?;
    let bytes = Vec::new(alloc);
    parts.push(MemoryFile { name, bytes })?;
    Ok(())
}

/// Appends bytes to the last part.
fn push_bytes(parts: &mut Vec<MemoryFile>, bytes: &[u8]) -> anyhow::Result<()> {
    let part = parts.last_mut().context("no part was begun")?;
    part.bytes.extend_from_slice(bytes)?;
    Ok(())
}

/// Appends a line to the last part.
pub(crate) fn push_line(parts: &mut Vec<MemoryFile>, line: &str) -> anyhow::Result<()> {
    push_bytes(parts, line.as_bytes())?;
    push_bytes(parts, b"\n")
}

/// Appends the bytes that a text with escapes stands for.
pub(crate) fn push_escapes(parts: &mut Vec<MemoryFile>, text: &str) -> anyhow::Result<()> {
    let part = parts.last_mut().context("no part was begun")?;
    push_text(&mut part.bytes, text)
}

/// The text of a name.
pub(crate) fn text_of<'a>(texts: &'a [MemoryFile], name: &str) -> anyhow::Result<&'a [u8]> {
    for text in texts {
        if text.name.as_str() == name {
            return Ok(text.bytes.as_slice());
        }
    }
    bail!("there is no text of the name {name}")
}

/// Appends the lines of the text of a name.
pub(crate) fn put_text(
    parts: &mut Vec<MemoryFile>,
    texts: &[MemoryFile],
    name: &str,
) -> anyhow::Result<()> {
    push_bytes(parts, text_of(texts, name)?)
}

/// Drops the last byte of the last part.
pub(crate) fn drop_byte(parts: &mut Vec<MemoryFile>) -> anyhow::Result<()> {
    let part = parts.last_mut().context("no part was begun")?;
    part.bytes.pop();
    Ok(())
}

/// Appends a line for each number from the first up to the end, as `FIRST END LINE` says.
pub(crate) fn push_each(
    alloc: Global,
    parts: &mut Vec<MemoryFile>,
    rest: &str,
) -> anyhow::Result<()> {
    let (first, rest) = rest.split_once(' ').context("each FIRST END LINE")?;
    let (end, line) = rest.split_once(' ').context("each FIRST END LINE")?;
    let (front, back) = line.split_once('#').context("a line without #")?;
    for number in first.parse::<u32>()?..end.parse::<u32>()? {
        let line = format!(in alloc; "{front}{number}{back}\n")?;
        push_bytes(parts, line.as_bytes())?;
    }
    Ok(())
}

/// Doubles the last part as often as the count says.
pub(crate) fn double(
    alloc: Global,
    parts: &mut Vec<MemoryFile>,
    count: &str,
) -> anyhow::Result<()> {
    let part = parts.last_mut().context("no part was begun")?;
    for _ in 0..count.parse::<u32>()? {
        let copy = Vec::from_slice(alloc, part.bytes.as_slice())?;
        part.bytes.extend_from_slice(copy.as_slice())?;
    }
    Ok(())
}
