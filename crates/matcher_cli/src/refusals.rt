// The lines that say what is wrong with a folder.
ghost use Rattle.std.specs.Prelude.{◌≡◌, ◌+◌, ◌≤◌, ◌++◌, length, true};
ghost use Rattle.edge_io.specs.Counts.{HasCause};
ghost use Rattle.edge_io.specs.Told.{AddsAll};
ghost use Rattle.match_rules.specs.Id.{is_id};
ghost use Rattle.matcher_cli.specs.Refusals.{code_words, row_and_code, row_line, lock_line, limit_line, refusal_text};

use crate::lines::one_number;
use bid_import::{Code, Key};
use edge_io::{Io, Sink, write_all};
use editions::{LimitFault, LoadFault};
use text_lines::LineBuffer;

#[tactic(auto, unfolding(crate::specs::Refusals::code_words))]
fn setting_words(key: Key) -> &'static [u8]
    ensures words { result.now ≡ code_words (Code.BadSetting key) }
    ensures few { length result.now ≤ 32 }
{
    match key {
        Key::Unknown => b"bad-setting unknown",
        Key::Limit => b"bad-setting limit",
        Key::Cap => b"bad-setting cap",
        Key::Pairs => b"bad-setting pairs",
        Key::Demand => b"bad-setting demand",
        Key::Least => b"bad-setting least",
        Key::Greatest => b"bad-setting greatest",
        Key::Source => b"bad-setting source",
        Key::Bids => b"bad-setting bids",
    }
}

#[tactic(auto, unfolding(crate::specs::Refusals::code_words))]
fn code_words(code: Code) -> &'static [u8]
    ensures words { result.now ≡ code_words code }
    ensures few { length result.now ≤ 32 }
{
    match code {
        Code::TooMany => b"too-many",
        Code::NotUtf8 => b"not-utf8",
        Code::WrongWidth => b"wrong-width",
        Code::BadId => b"bad-id",
        Code::BadDemand => b"bad-demand",
        Code::BadLoad => b"bad-load",
        Code::BadNumber => b"bad-number",
        Code::OutOfRange => b"out-of-range",
        Code::UnknownWord => b"unknown-word",
        Code::BadMark => b"bad-mark",
        Code::BadCap => b"bad-cap",
        Code::NotToml => b"not-toml",
        Code::BadSetting { key } => setting_words(key),
        Code::UnknownSource => b"unknown-source",
        Code::Missing => b"missing",
        Code::TooLong => b"too-long",
    }
}

#[tactic(auto, unfolding(crate::specs::Refusals::row_and_code))]
fn row_and_code(row: u64, code: Code) -> LineBuffer
    ensures { result ≡ row_and_code row code }
{
    let mut line = LineBuffer::new();
    line.push_labelled(b" ", row);
    line.push(b" ");
    line.push(code_words(code));
    line.push(b"\n");
    line
}

fn write_from_name<K: Sink>(file: &str, row: u64, code: Code, sink: &mut K) -> Result<(), Io>
    ensures taken { AddsAll (K.taken sink.old) (K.taken sink.new) result (file.now ++ row_and_code row code) }
    ensures cause { HasCause (K.faults sink.old) (K.faults sink.new) result }
{
    write_all(sink, file.as_bytes())?;
    write_all(sink, row_and_code(row, code).as_slice())
}

// The name of a file may have any length, so its line is written in pieces.
fn write_row<K: Sink>(file: &str, row: u64, code: Code, sink: &mut K) -> Result<(), Io>
    ensures taken { AddsAll (K.taken sink.old) (K.taken sink.new) result (row_line file.now row code) }
    ensures cause { HasCause (K.faults sink.old) (K.faults sink.new) result }
{
    write_all(sink, b"refused ")?;
    write_from_name(file, row, code, sink)
}

fn push_id(line: &mut LineBuffer, id: &str)
    requires id { is_id id.now ≡ true }
    requires room { length line.old ≤ 300 }
    ensures text { line.new ≡ line.old ++ id.now }
    ensures few { length line.new ≤ length line.old + 128 }
{
    line.push(id.as_bytes());
}

#[tactic(auto, unfolding(crate::specs::Refusals::lock_line))]
fn lock_line(paper: &str, reviewer: &str) -> LineBuffer
    requires paper { is_id paper.now ≡ true }
    requires reviewer { is_id reviewer.now ≡ true }
    ensures { result ≡ lock_line paper.now reviewer.now }
{
    let mut line = LineBuffer::new();
    line.push(b"refused rules lock-forbidden ");
    push_id(&mut line, paper);
    line.push(b" ");
    push_id(&mut line, reviewer);
    line.push(b"\n");
    line
}

fn limit_line(fault: &LimitFault) -> LineBuffer
    ensures { result ≡ limit_line fault.now }
{
    match *fault {
        LimitFault::TooMuchDemand { sum } => one_number(b"refused rules too-much-demand ", sum),
        LimitFault::LockForbidden {
            ref paper,
            ref reviewer,
        } => lock_line(paper.text(), reviewer.text()),
        LimitFault::TooManyPairs { count } => one_number(b"refused rules too-many-pairs ", count),
    }
}

/// Appends the line of what is wrong with a folder; want of memory and a folder that failed have none. After `Failed`
/// a front of it was appended. Takes no memory.
pub fn write_refusal<K: Sink>(fault: &LoadFault, sink: &mut K) -> Result<(), Io>
    ensures taken { AddsAll (K.taken sink.old) (K.taken sink.new) result (refusal_text fault.now) }
    ensures cause { HasCause (K.faults sink.old) (K.faults sink.new) result }
{
    match *fault {
        LoadFault::Memory => Ok(()),
        LoadFault::Folder => Ok(()),
        LoadFault::Bad {
            ref file,
            row,
            code,
        } => write_row(file.as_str(), row, code, sink),
        LoadFault::Limit(ref fault) => write_all(sink, limit_line(fault).as_slice()),
    }
}
