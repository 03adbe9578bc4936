// The bytes that a text with escapes stands for.

use anyhow::Context;

// A part behind a `\`: the byte that its front names, and then the rest.
fn push_escaped(bytes: &mut Vec<u8>, part: &str) -> anyhow::Result<()> {
    let (byte, rest) = match part.split_at_checked(1).context("an escape is unknown")? {
        ("n", rest) => (b'\n', rest),
        ("r", rest) => (b'\r', rest),
        (_, rest) => {
            let (digits, rest) = rest.split_at_checked(2).context("a byte has two digits")?;
            (u8::from_str_radix(digits, 16)?, rest)
        }
    };
    bytes.push(byte)?;
    bytes.extend_from_slice(rest.as_bytes())?;
    Ok(())
}

/// Adds the bytes that a text stands for: `\n`, `\r` and `\xHH` for the bytes that they name, all else for itself.
pub(crate) fn push_text(bytes: &mut Vec<u8>, text: &str) -> anyhow::Result<()> {
    let mut parts = text.split('\\');
    if let Some(front) = parts.next() {
        bytes.extend_from_slice(front.as_bytes())?;
    }
    for part in parts {
        push_escaped(bytes, part)?;
    }
    Ok(())
}
