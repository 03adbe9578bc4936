// Texts that wait in a line buffer, so that a sink is called once for some hundred bytes.
ghost use Rattle.std.specs.Prelude.{◌≡◌, ◌≤◌, [], length, decimal, IfOk};
ghost use Rattle.std.specs.Fmt.{signed_decimal};
ghost use Rattle.std.specs.List.{flat_map};
ghost use Rattle.edge_io.specs.Counts.{HasCause};
ghost use Rattle.text_lines.specs.Forms.{count_line};
ghost use Rattle.text_lines.specs.Texts.{line_of};
ghost use Rattle.publication.specs.CutForms.{marks_line};
ghost use Rattle.publication.specs.Waiting.{Puts, next_field};

use crate::rules_lines::count_line;
use edge_io::{Io, Sink, write_all};
use text_lines::LineBuffer;

/// How many bytes may wait where the next text is put behind them.
const MOST_WAITING: usize = 384;

// Hands all that waits to the sink.
fn send<K: Sink>(waiting: &mut LineBuffer, sink: &mut K) -> Result<(), Io>
    ensures puts { Puts (K.taken sink.old) waiting.old (K.taken sink.new) waiting.new result [] }
    ensures none { IfOk result (λ _. waiting.new ≡ []) }
    ensures cause { HasCause (K.faults sink.old) (K.faults sink.new) result }
{
    write_all(sink, waiting.as_slice())?;
    *waiting = LineBuffer::new();
    Ok(())
}

// Leaves room for the next text.
fn make_room<K: Sink>(waiting: &mut LineBuffer, sink: &mut K) -> Result<(), Io>
    ensures puts { Puts (K.taken sink.old) waiting.old (K.taken sink.new) waiting.new result [] }
    ensures room { IfOk result (λ _. length waiting.new ≤ MOST_WAITING) }
    ensures cause { HasCause (K.faults sink.old) (K.faults sink.new) result }
{
    if waiting.as_slice().len() <= MOST_WAITING {
        return Ok(());
    }
    send(waiting, sink)
}

/// Puts a short text behind what waits.
pub(crate) fn put_text<K: Sink>(
    text: &[u8],
    waiting: &mut LineBuffer,
    sink: &mut K,
) -> Result<(), Io>
    requires { length text.now ≤ 128 }
    ensures puts { Puts (K.taken sink.old) waiting.old (K.taken sink.new) waiting.new result text.now }
    ensures cause { HasCause (K.faults sink.old) (K.faults sink.new) result }
{
    make_room(waiting, sink)?;
    waiting.push(text);
    Ok(())
}

/// Puts a line of one number behind what waits.
pub(crate) fn put_number<K: Sink>(
    number: u32,
    waiting: &mut LineBuffer,
    sink: &mut K,
) -> Result<(), Io>
    ensures puts { Puts (K.taken sink.old) waiting.old (K.taken sink.new) waiting.new result (line_of (decimal number)) }
    ensures cause { HasCause (K.faults sink.old) (K.faults sink.new) result }
{
    make_room(waiting, sink)?;
    waiting.push_number(u64::from(number));
    waiting.push(b"\n");
    Ok(())
}

/// Puts a line of one signed number behind what waits.
pub(crate) fn put_signed<K: Sink>(
    number: i128,
    waiting: &mut LineBuffer,
    sink: &mut K,
) -> Result<(), Io>
    ensures puts { Puts (K.taken sink.old) waiting.old (K.taken sink.new) waiting.new result (line_of (signed_decimal number)) }
    ensures cause { HasCause (K.faults sink.old) (K.faults sink.new) result }
{
    make_room(waiting, sink)?;
    waiting.push_signed(number);
    waiting.push(b"\n");
    Ok(())
}

/// Puts the line of a word and a number behind what waits.
pub(crate) fn put_count<K: Sink>(
    word: &[u8],
    number: u64,
    waiting: &mut LineBuffer,
    sink: &mut K,
) -> Result<(), Io>
    requires { length word.now ≤ 64 }
    ensures puts { Puts (K.taken sink.old) waiting.old (K.taken sink.new) waiting.new result (line_of (count_line word.now number)) }
    ensures cause { HasCause (K.faults sink.old) (K.faults sink.new) result }
{
    put_text(count_line(word, number).as_slice(), waiting, sink)
}

// One more field of a line: a space and a number.
fn put_field<K: Sink>(number: u32, waiting: &mut LineBuffer, sink: &mut K) -> Result<(), Io>
    ensures puts { Puts (K.taken sink.old) waiting.old (K.taken sink.new) waiting.new result (next_field number) }
    ensures cause { HasCause (K.faults sink.old) (K.faults sink.new) result }
{
    make_room(waiting, sink)?;
    waiting.push(b" ");
    waiting.push_number(u64::from(number));
    Ok(())
}

fn put_fields<K: Sink>(numbers: &[u32], waiting: &mut LineBuffer, sink: &mut K) -> Result<(), Io>
    ensures puts { Puts (K.taken sink.old) waiting.old (K.taken sink.new) waiting.new result (flat_map next_field numbers.now) }
    ensures cause { HasCause (K.faults sink.old) (K.faults sink.new) result }
{
    for number in numbers {
        put_field(*number, waiting, sink)?;
    }
    Ok(())
}

/// Puts the line of a word and places behind what waits.
pub(crate) fn put_places<K: Sink>(
    word: &[u8],
    places: &[u32],
    waiting: &mut LineBuffer,
    sink: &mut K,
) -> Result<(), Io>
    requires { length word.now ≤ 64 }
    ensures puts { Puts (K.taken sink.old) waiting.old (K.taken sink.new) waiting.new result (line_of (marks_line word.now places.now)) }
    ensures cause { HasCause (K.faults sink.old) (K.faults sink.new) result }
{
    put_text(word, waiting, sink)?;
    put_fields(places, waiting, sink)?;
    put_text(b"\n", waiting, sink)
}
