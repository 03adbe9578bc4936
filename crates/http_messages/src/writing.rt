// Replies as the bytes that are written.

ghost use Rattle.std.specs.Prelude.{◌≡◌, ◌≤◌, length};
ghost use Rattle.edge_io.specs.Counts.{HasCause};
ghost use Rattle.edge_io.specs.Told.{AddsAll};
ghost use Rattle.http_messages.specs.Replies.{continue_text, head_text, reply_text, status_lines};

use crate::replies::{MediaType, Reply};
use crate::texts::{allow_line, close_line, media_text, reason_of};
use edge_io::{Io, Sink, write_all};
use text_lines::LineBuffer;

// The first line of a reply and the line of its type.
#[tactic(auto, unfolding(crate::specs::Replies::status_lines))]
pub(crate) fn status_lines(status: u16, media_type: MediaType) -> LineBuffer
    ensures text { result ≡ status_lines status media_type }
    ensures short { length result ≤ 128 }
{
    let mut head = LineBuffer::new();
    head.push(b"HTTP/1.1 ");
    head.push_number(u64::from(status));
    head.push(b" ");
    head.push(reason_of(status));
    head.push(b"\r\nContent-Type: ");
    head.push(media_text(media_type));
    head.push(b"\r\n");
    head
}

// The head of a reply whose body has this many bytes.
#[tactic(auto, unfolding(crate::specs::Replies::head_text))]
fn head_text(reply: &Reply, closes: bool, count: u64) -> LineBuffer
    ensures { result ≡ head_text reply.now closes count }
{
    let mut head = status_lines(reply.status().as_u16(), reply.media_type());
    head.push(b"Content-Length: ");
    head.push_number(count);
    head.push(b"\r\n");
    head.push(allow_line(reply.allow()));
    head.push(close_line(closes));
    head.push(b"\r\n");
    head
}

// Writes the head of a reply whose body has this many bytes.
fn write_head<K: Sink>(sink: &mut K, reply: &Reply, closes: bool, count: u64) -> Result<(), Io>
    ensures taken { AddsAll (K.taken sink.old) (K.taken sink.new) result (head_text reply.now closes count) }
    ensures cause { HasCause (K.faults sink.old) (K.faults sink.new) result }
{
    write_all(sink, head_text(reply, closes, count).as_slice())
}

/// Writes a reply; `closes` says that the stream ends behind it. Takes no memory.
pub fn write_reply<K: Sink>(sink: &mut K, reply: &Reply, closes: bool) -> Result<(), Io>
    ensures taken { AddsAll (K.taken sink.old) (K.taken sink.new) result (reply_text reply.now closes) }
    ensures cause { HasCause (K.faults sink.old) (K.faults sink.new) result }
{
    let body = reply.body();
    write_head(sink, reply, closes, body.len() as u64)?;
    write_all(sink, body)
}

/// Writes what asks for the body of a request. Takes no memory.
#[tactic(auto, unfolding(crate::specs::Replies::continue_text))]
pub fn write_continue<K: Sink>(sink: &mut K) -> Result<(), Io>
    ensures taken { AddsAll (K.taken sink.old) (K.taken sink.new) result continue_text }
    ensures cause { HasCause (K.faults sink.old) (K.faults sink.new) result }
{
    write_all(sink, b"HTTP/1.1 100 Continue\r\n\r\n")
}
