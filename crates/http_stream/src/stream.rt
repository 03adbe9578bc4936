// The loop that serves a stream.

ghost use Rattle.std.specs.Prelude.{◌≡◌, ◌≢◌, ◌+◌, ◌<◌, ◌≤◌, ℕ, List, Bool, true, false, Some, None, Ok, Err, [], ◌++◌, length, IfOk, Result};
ghost use Rattle.edge_io.specs.Counts.{HasCause, Rose};
ghost use Rattle.edge_io.specs.Told.{AddsAll, told};
ghost use Rattle.http_stream.specs.Exchanges.{Exchange, Trail, continued, memory_text};
ghost use Rattle.http_messages.specs.Replies.{ReplyValue};
ghost use Rattle.http_stream.specs.Intakes.{Added, Closes, EndsBehind, IsHeaded, Responds, Sent};
ghost use Rattle.http_stream.specs.Streams.{Wrote};
ghost use Rattle.http_stream.specs.Turns.{AsksNext, EndCaused, TurnCaused, Turned};

use crate::ending::StreamEnd;
use crate::handler::{HandleFault, Handler};
use crate::intake::{Intake, MOST_STREAM_BYTES};
use crate::stop::Stop;
use crate::taking::{Asked, Headed};
use edge_io::{Io, Sink, Source};
use http::StatusCode;
use http_framing::{FrameFault, write_fault};
use http_messages::{Reply, write_continue, write_refusal, write_reply};
use std::alloc::{AllocError, Global};

// How many bytes are asked of the source at a time, at most.
const CHUNK: usize = 65_536;

// Writes the reply for want of memory.
fn write_memory<K: Sink>(sink: &mut K, closes: bool) -> Result<(), Io>
    ensures taken { AddsAll (K.taken sink.old) (K.taken sink.new) result (memory_text closes) }
    ensures cause { HasCause (K.faults sink.old) (K.faults sink.new) result }
{
    write_refusal(sink, StatusCode::INSUFFICIENT_STORAGE, "memory", closes)
}

// Writes the reply to what is no request that may be asked.
fn refuse<K: Sink>(sink: &mut K, fault: FrameFault) -> StreamEnd
    ensures out { (out : List ℕ) × Added (K.taken sink.old) (K.taken sink.new) out × Closes (Stop.Refused fault) result out }
    ensures later { K.faults sink.old ≤ K.faults sink.new }
    ensures fault { result ≡ StreamEnd.WriteFault → Rose (K.faults sink.old) (K.faults sink.new) }
    ensures read { result ≢ StreamEnd.ReadFault }
{
    match write_fault(sink, fault) {
        Ok(()) => StreamEnd::Refused,
        Err(_) => StreamEnd::WriteFault,
    }
}

// Writes the reply for want of memory for a head or a body.
fn end_for_memory<K: Sink>(sink: &mut K) -> StreamEnd
    ensures out { (out : List ℕ) × Added (K.taken sink.old) (K.taken sink.new) out × Closes Stop.Memory result out }
    ensures later { K.faults sink.old ≤ K.faults sink.new }
    ensures end { result ≡ StreamEnd.Memory }
{
    match write_memory(sink, true) {
        Ok(()) => StreamEnd::Memory,
        Err(_) => StreamEnd::Memory,
    }
}

// Ends the stream where no further request is asked: writes what is due, and says how the stream ended.
fn close<K: Sink>(sink: &mut K, stop: Stop) -> StreamEnd
    ensures out { (out : List ℕ) × Added (K.taken sink.old) (K.taken sink.new) out × Closes stop result out }
    ensures later { K.faults sink.old ≤ K.faults sink.new }
    ensures fault { result ≡ StreamEnd.WriteFault → Rose (K.faults sink.old) (K.faults sink.new) }
    ensures read { result ≡ StreamEnd.ReadFault → stop ≡ Stop.ReadFault }
{
    match stop {
        Stop::Finished => StreamEnd::Done,
        Stop::ReadFault => StreamEnd::ReadFault,
        Stop::Refused(fault) => refuse(sink, fault),
        Stop::Memory => end_for_memory(sink),
    }
}

// Asks for the body of a request, where that is due.
fn ask_for_body<K: Sink>(sink: &mut K, due: bool) -> Result<(), Io>
    ensures out { (out : List ℕ) × Added (K.taken sink.old) (K.taken sink.new) out × Sent result (continued due []) out }
    ensures cause { HasCause (K.faults sink.old) (K.faults sink.new) result }
{
    if due { write_continue(sink) } else { Ok(()) }
}

// Whether the stream ends behind a reply, and how.
fn behind_reply(written: Result<(), Io>, closes: bool) -> Option<StreamEnd>
    ensures { EndsBehind written closes result }
{
    match written {
        Ok(()) => { if closes { Some(StreamEnd::Done) } else { None } }
        Err(_) => Some(StreamEnd::WriteFault),
    }
}

// Writes the reply where the handler has none, if there is one. Answers how the stream ends, if it ends behind it.
fn respond_fault<K: Sink>(sink: &mut K, fault: HandleFault, closes: bool) -> Option<StreamEnd>
    ensures out { (out : List ℕ) × Added (K.taken sink.old) (K.taken sink.new) out × Responds closes (Err fault) result out }
    ensures later { K.faults sink.old ≤ K.faults sink.new }
    ensures fault { result ≡ Some StreamEnd.WriteFault → Rose (K.faults sink.old) (K.faults sink.new) }
    ensures read { result ≢ Some StreamEnd.ReadFault }
{
    match fault {
        HandleFault::Memory => behind_reply(write_memory(sink, closes), closes),
        HandleFault::Spent => Some(StreamEnd::Spent),
    }
}

// Writes the reply of an answer, where it has one. Answers how the stream ends, if it ends behind it.
fn respond<K: Sink>(
    sink: &mut K,
    answer: Result<Reply, HandleFault>,
    closes: bool,
) -> Option<StreamEnd>
    ensures out { (out : List ℕ) × Added (K.taken sink.old) (K.taken sink.new) out × Responds closes answer result out }
    ensures later { K.faults sink.old ≤ K.faults sink.new }
    ensures fault { result ≡ Some StreamEnd.WriteFault → Rose (K.faults sink.old) (K.faults sink.new) }
    ensures read { result ≢ Some StreamEnd.ReadFault }
{
    match answer {
        Ok(reply) => behind_reply(write_reply(sink, &reply, closes), closes),
        Err(fault) => respond_fault(sink, fault, closes),
    }
}

// Takes the request of a head, whose body was asked for where that is due. Where it doesn't come, ends the stream.
fn take_next<S: Source, K: Sink>(
    alloc: Global,
    source: &mut S,
    sink: &mut K,
    chunk: &mut [u8],
    intake: &mut Intake,
    headed: Headed,
) -> Result<Asked, StreamEnd>
    requires some { 0 < length chunk.old }
    requires head { IsHeaded intake.old.room intake.old.bytes.items headed.head headed.end headed.count headed.due }
    ensures came { (came : List ℕ) × (out : List ℕ) × Added (S.given source.old) (S.given source.new) came × Added (K.taken sink.old) (K.taken sink.new) out × AsksNext intake.old.room (intake.old.bytes.items ++ came) (S.left source.new) intake.new.room intake.new.bytes.items result (continued headed.due [] ++ out) }
    ensures read { EndCaused (S.faults source.old) (S.faults source.new) result StreamEnd.ReadFault }
    ensures write { EndCaused (K.faults sink.old) (K.faults sink.new) result StreamEnd.WriteFault }
{
    match intake.next_body(alloc, source, chunk, headed) {
        Ok(asked) => Ok(asked),
        Err(stop) => Err(close(sink, stop)),
    }
}

// Asks for the body of a head where that is due, and takes the request.
fn ask_next<S: Source, K: Sink>(
    alloc: Global,
    source: &mut S,
    sink: &mut K,
    chunk: &mut [u8],
    intake: &mut Intake,
    headed: Headed,
) -> Result<Asked, StreamEnd>
    requires some { 0 < length chunk.old }
    requires head { IsHeaded intake.old.room intake.old.bytes.items headed.head headed.end headed.count headed.due }
    ensures came { (came : List ℕ) × (out : List ℕ) × Added (S.given source.old) (S.given source.new) came × Added (K.taken sink.old) (K.taken sink.new) out × AsksNext intake.old.room (intake.old.bytes.items ++ came) (S.left source.new) intake.new.room intake.new.bytes.items result out }
    ensures read { EndCaused (S.faults source.old) (S.faults source.new) result StreamEnd.ReadFault }
    ensures write { EndCaused (K.faults sink.old) (K.faults sink.new) result StreamEnd.WriteFault }
{
    match ask_for_body(sink, headed.due) {
        Ok(()) => take_next(alloc, source, sink, chunk, intake, headed),
        Err(_) => Err(StreamEnd::WriteFault),
    }
}

// Reads the next request, and asks for its body where that is due. Where there is none, ends the stream.
fn next_request<S: Source, K: Sink>(
    alloc: Global,
    source: &mut S,
    sink: &mut K,
    chunk: &mut [u8],
    intake: &mut Intake,
) -> Result<Asked, StreamEnd>
    requires { 0 < length chunk.old }
    ensures came { (came : List ℕ) × (out : List ℕ) × Added (S.given source.old) (S.given source.new) came × Added (K.taken sink.old) (K.taken sink.new) out × AsksNext intake.old.room (intake.old.bytes.items ++ came) (S.left source.new) intake.new.room intake.new.bytes.items result out }
    ensures read { EndCaused (S.faults source.old) (S.faults source.new) result StreamEnd.ReadFault }
    ensures write { EndCaused (K.faults sink.old) (K.faults sink.new) result StreamEnd.WriteFault }
{
    match intake.next_head(alloc, source, chunk) {
        Ok(headed) => ask_next(alloc, source, sink, chunk, intake, headed),
        Err(stop) => Err(close(sink, stop)),
    }
}

// Asks the handler, and writes the reply. Answers how the stream ends, if it ends behind it.
fn answer<K: Sink, H: Handler>(
    alloc: Global,
    sink: &mut K,
    handler: &mut H,
    asked: Asked,
) -> Option<StreamEnd>
    requires { H.ready handler.old }
    ensures ready { H.ready handler.new }
    ensures answered { (answer : Result ReplyValue HandleFault) × (out : List ℕ) × H.does handler.old asked.request answer handler.new × Added (K.taken sink.old) (K.taken sink.new) out × Responds asked.closes answer result out }
    ensures later { K.faults sink.old ≤ K.faults sink.new }
    ensures fault { result ≡ Some StreamEnd.WriteFault → Rose (K.faults sink.old) (K.faults sink.new) }
    ensures read { result ≢ Some StreamEnd.ReadFault }
{
    let Asked { request, closes } = asked;
    let answer = handler.handle(alloc, request);
    respond(sink, answer, closes)
}

// Serves the next request. Answers how the stream ends, if it ends behind it.
fn turn<S: Source, K: Sink, H: Handler>(
    alloc: Global,
    source: &mut S,
    sink: &mut K,
    handler: &mut H,
    chunk: &mut [u8],
    intake: &mut Intake,
) -> Option<StreamEnd>
    requires some { 0 < length chunk.old }
    requires ready { H.ready handler.old }
    ensures ready { H.ready handler.new }
    ensures came { (came : List ℕ) × (out : List ℕ) × Added (S.given source.old) (S.given source.new) came × Added (K.taken sink.old) (K.taken sink.new) out × Turned H.does handler.old handler.new intake.old.room (intake.old.bytes.items ++ came) (S.left source.new) intake.new.room intake.new.bytes.items result out }
    ensures less { result ≡ None → intake.new.room < intake.old.room }
    ensures read { TurnCaused (S.faults source.old) (S.faults source.new) result StreamEnd.ReadFault }
    ensures write { TurnCaused (K.faults sink.old) (K.faults sink.new) result StreamEnd.WriteFault }
{
    match next_request(alloc, source, sink, chunk, intake) {
        Ok(asked) => answer(alloc, sink, handler, asked),
        Err(end) => Some(end),
    }
}

// Serves the requests until the stream ends.
fn serve<S: Source, K: Sink, H: Handler>(
    alloc: Global,
    source: &mut S,
    sink: &mut K,
    handler: &mut H,
    chunk: &mut [u8],
) -> StreamEnd
    requires some { 0 < length chunk.old }
    requires ready { H.ready handler.old }
    ensures ready { H.ready handler.new }
    ensures stream { (trail : List Exchange) × Trail H.does handler.old trail handler.new × (bytes : List ℕ) × (out : List ℕ) × (over : Bool) × Added (S.given source.old) (S.given source.new) bytes × Added (K.taken sink.old) (K.taken sink.new) out × (over ≡ true → told (S.left source.new) ≡ []) × Wrote MOST_STREAM_BYTES over bytes trail result out }
    ensures read_fault { result ≡ StreamEnd.ReadFault → Rose (S.faults source.old) (S.faults source.new) }
    ensures write_fault { result ≡ StreamEnd.WriteFault → Rose (K.faults sink.old) (K.faults sink.new) }
{
    let mut intake = Intake::new(alloc);
    loop {
        match turn(alloc, source, sink, handler, chunk, &mut intake) {
            None => (),
            Some(end) => return end,
        }
    }
}

// The room for what one read gives.
fn new_chunk(alloc: Global) -> Result<Vec<u8>, AllocError>
    ensures { IfOk result (λ chunk. 0 < length chunk.items) }
{
    let mut chunk = Vec::with_capacity(alloc, CHUNK)?;
    chunk.resize(CHUNK, 0)?;
    Ok(chunk)
}

/// Serves the requests of a source to a handler, one after the other, and writes the replies to a sink, until the stream ends. A reply is
/// written before the next request is waited for, and what asks for a body before the body is. It takes at most 4,294,967,296 bytes.
///
/// `stream`: what was asked of the handler, in which order and with which answers, and, where source and sink tell their bytes, what was
/// written for the bytes that the source gave in this call. `over` says that the source had nothing left.
pub fn serve_stream<S: Source, K: Sink, H: Handler>(
    alloc: Global,
    source: &mut S,
    sink: &mut K,
    handler: &mut H,
) -> StreamEnd
    requires { H.ready handler.old }
    ensures ready { H.ready handler.new }
    ensures stream { (trail : List Exchange) × Trail H.does handler.old trail handler.new × (bytes : List ℕ) × (out : List ℕ) × (over : Bool) × Added (S.given source.old) (S.given source.new) bytes × Added (K.taken sink.old) (K.taken sink.new) out × (over ≡ true → told (S.left source.new) ≡ []) × Wrote MOST_STREAM_BYTES over bytes trail result out }
    ensures read_fault { result ≡ StreamEnd.ReadFault → Rose (S.faults source.old) (S.faults source.new) }
    ensures write_fault { result ≡ StreamEnd.WriteFault → Rose (K.faults sink.old) (K.faults sink.new) }
{
    match new_chunk(alloc) {
        Ok(mut chunk) => serve(alloc, source, sink, handler, chunk.as_mut_slice()),
        Err(_) => close(sink, Stop::Memory),
    }
}
