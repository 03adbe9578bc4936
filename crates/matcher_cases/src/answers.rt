// What was written, as it is printed.

use score_spec::read_value;
use std::str;

// The most bytes of a text that is printed whole.
const MOST_BYTES: usize = 4_096;

// A sum over the bytes that depends on their order.
fn checksum(bytes: &[u8]) -> u32 {
    let mut sum = 0u32;
    for byte in bytes {
        sum = sum.wrapping_mul(31).wrapping_add(u32::from(*byte));
    }
    sum
}

/// Prints a text, or its length and a checksum where it is long.
pub(crate) fn print_text(rt: &HostRuntime, text: &[u8]) -> anyhow::Result<()> {
    if text.len() > MOST_BYTES {
        println!(rt; "{} bytes with the checksum {}", text.len(), checksum(text))?;
        return Ok(());
    }
    print!(rt; "{}", str::from_utf8(text)?)?;
    Ok(())
}

// Whether a line is one of numbers.
fn is_of_numbers(line: &str) -> bool {
    match line.as_bytes().first() {
        Some(byte) => byte.is_ascii_digit() || *byte == b'-',
        None => false,
    }
}

/// Prints each line of a text that begins with a word, with the lines of numbers behind it.
pub(crate) fn print_lines(rt: &HostRuntime, text: &[u8], word: &str) -> anyhow::Result<()> {
    let mut is_due = false;
    for line in str::from_utf8(text)?.lines() {
        is_due = line.starts_with(word) || is_due && is_of_numbers(line);
        if is_due {
            println!(rt; "{line}")?;
        }
    }
    Ok(())
}

/// Prints the value that a text writes, in ten-thousandths, or its fault.
pub(crate) fn print_value(rt: &HostRuntime, text: &str) -> anyhow::Result<()> {
    match read_value(text) {
        Ok(value) => println!(rt; "{}", value.tenthousandths())?,
        Err(fault) => println!(rt; "{fault:?}")?,
    }
    Ok(())
}
