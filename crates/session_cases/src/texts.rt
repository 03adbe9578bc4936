//! What was written, as it is printed.

use anyhow::Context;
use std::str;

// What each reply begins with.
const VERSION: &str = "HTTP/1.1 ";

// What only the text of a lottery has.
const PRICES: &str = "paper-prices";

// A line without its length, where it has one.
fn print_length(rt: &HostRuntime, mark: &str, line: &str) -> anyhow::Result<()> {
    let has_length = line.starts_with("Content-Length: ") || line.starts_with("publish ");
    match line.rsplit_once(' ') {
        Some((front, _)) if has_length => println!(rt; "{mark}{front} LENGTH")?,
        _ => println!(rt; "{mark}{line}")?,
    }
    Ok(())
}

// Prints a line, with a mark for how it ends; without its length where that depends on prices.
fn print_line(rt: &HostRuntime, line: &str, is_priced: bool) -> anyhow::Result<()> {
    let (mark, text) = if let Some(text) = line.strip_suffix("\r\n") {
        (">", text)
    } else if let Some(text) = line.strip_suffix('\n') {
        (" ", text)
    } else {
        ("=", line)
    };
    if is_priced {
        return print_length(rt, mark, text);
    }
    println!(rt; "{mark}{text}")?;
    Ok(())
}

/// Prints the lines of a text. The prices of a lottery aren't printed, nor the lengths that depend on them.
pub(crate) fn print_text(rt: &HostRuntime, text: &str) -> anyhow::Result<()> {
    let is_priced = text.find(PRICES).is_some();
    let mut is_price = false;
    for line in text.split_inclusive('\n') {
        is_price = line.starts_with(PRICES) || is_price && !line.starts_with("shares");
        if !is_price {
            print_line(rt, line, is_priced)?;
        }
    }
    Ok(())
}

// Prints a reply.
fn print_reply(rt: &HostRuntime, reply: &str) -> anyhow::Result<()> {
    let text = format!(in rt.alloc(); "{VERSION}{reply}")?;
    print_text(rt, text.as_str())
}

/// Prints what was written.
pub(crate) fn print_replies(rt: &HostRuntime, written: &[u8]) -> anyhow::Result<()> {
    let mut replies = str::from_utf8(written)?.split(VERSION);
    print_text(rt, replies.next().unwrap_or(""))?;
    for reply in replies {
        print_reply(rt, reply)?;
    }
    Ok(())
}

/// Prints a line for each reply: its code, and its object or first line.
pub(crate) fn print_briefly(rt: &HostRuntime, written: &[u8]) -> anyhow::Result<()> {
    let mut replies = str::from_utf8(written)?.split(VERSION);
    print_text(rt, replies.next().unwrap_or(""))?;
    for reply in replies {
        let (code, rest) = reply.split_once(' ').context("a reply has a code")?;
        let (_, body) = rest.split_once("\r\n\r\n").context("a reply has a body")?;
        println!(rt; "{code} {}", body.lines().next().unwrap_or(""))?;
    }
    Ok(())
}

/// Prints the replies that aren't those of another run at their places, and how many there are in all.
pub(crate) fn print_others(rt: &HostRuntime, written: &[u8], before: &[u8]) -> anyhow::Result<()> {
    let earlier = str::from_utf8(before)?.split(VERSION);
    let mut count = 0u32;
    for (reply, old) in str::from_utf8(written)?.split(VERSION).zip(earlier) {
        if reply != old {
            println!(rt; "reply {count}")?;
            print_reply(rt, reply)?;
        }
        count = count.wrapping_add(1);
    }
    println!(rt; "{} replies", count.wrapping_sub(1))?;
    Ok(())
}
