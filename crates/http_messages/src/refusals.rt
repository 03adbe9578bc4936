// Refusals that have a word alone, as the bytes that are written.

ghost use Rattle.std.specs.Prelude.{◌≡◌, ◌≤◌, length};
ghost use Rattle.edge_io.specs.Counts.{HasCause};
ghost use Rattle.edge_io.specs.Told.{AddsAll};
ghost use Rattle.http_messages.specs.Replies.{refusal, reply_text};

use crate::replies::MediaType;
use crate::texts::close_line;
use crate::writing::status_lines;
use edge_io::{Io, Sink, write_all};
use http::StatusCode;
use text_lines::LineBuffer;

/// The most bytes of the word of a refusal.
pub const LONGEST_WORD: usize = 64;

// The text of a refusal.
fn refusal_text(status: u16, word: &str, closes: bool) -> LineBuffer
    requires { length word.now ≤ LONGEST_WORD }
    ensures { result ≡ reply_text (refusal status word.now) closes }
{
    let mut text = status_lines(status, MediaType::Json);
    text.push(b"Content-Length: ");
    text.push_number(word.len() as u64 + 14);
    text.push(b"\r\n");
    text.push(close_line(closes));
    text.push(b"\r\n");
    text.push(b"{\"refused\":\"");
    text.push(word.as_bytes());
    text.push(b"\"}");
    text
}

/// Writes a refusal that has a word alone; `closes` says that the stream ends behind it. Takes no memory.
pub fn write_refusal<K: Sink>(
    sink: &mut K,
    status: StatusCode,
    word: &str,
    closes: bool,
) -> Result<(), Io>
    requires { length word.now ≤ LONGEST_WORD }
    ensures taken { AddsAll (K.taken sink.old) (K.taken sink.new) result (reply_text (refusal status word.now) closes) }
    ensures cause { HasCause (K.faults sink.old) (K.faults sink.new) result }
{
    write_all(sink, refusal_text(status.as_u16(), word, closes).as_slice())
}
