// A head that is read from its bytes.

ghost use Rattle.std.specs.Prelude.{◌≡◌, ◌≤◌, ◌<◌, List, ℕ, All, length, map, take, IfOk, IfSome, IsNone};
ghost use Rattle.httparse.specs.Grammar.{ReadsRequest, RequestHead};
ghost use Rattle.httparse.specs.Spans.{IsHeaderWithin, IsRequestAt, IsRequestWithin, IsWithin};
ghost use Rattle.http_framing.specs.Heads.{IsHeadText, IsRead};
ghost use Rattle.http_framing.specs.Parts.{field_at, head_at};

use crate::head::Head;
use http_messages::Field;
use httparse::Status;
use httparse::spans::{EMPTY_HEADER_SPAN, HeaderSpan, RequestSpans, parse_request};
use std::alloc::{AllocError, Global};

// Where the parts of a head are that stands in front of the bytes.
fn front_spans(bytes: &[u8], headers: &mut [HeaderSpan; 64]) -> Option<RequestSpans>
    ensures within { IfSome result (IsRequestWithin bytes.now headers.new) }
    ensures found { IfSome result (λ spans. (h : RequestHead) × IsRequestAt bytes.now headers.new spans h × (length h.fields ≤ 64)) }
    ensures none { IsNone result → (h : RequestHead) (rest : List ℕ) → ReadsRequest bytes.now h rest → 64 < length h.fields }
{
    match parse_request(bytes, headers) {
        Ok(Status::Complete(spans)) => Some(spans),
        _ => None,
    }
}

// Where the parts of the head are that the bytes are; `None` where they are none.
fn spans_of(bytes: &[u8], headers: &mut [HeaderSpan; 64]) -> Option<RequestSpans>
    ensures within { IfSome result (IsRequestWithin bytes.now headers.new) }
    ensures found { IfSome result (λ spans. (h : RequestHead) × IsRequestAt bytes.now headers.new spans h × IsHeadText bytes.now h) }
    ensures none { IsNone result → (h : RequestHead) → ¬ (IsHeadText bytes.now h) }
{
    let spans = front_spans(bytes, headers)?;
    if spans.len == bytes.len() {
        Some(spans)
    } else {
        None
    }
}

// The field of these places.
fn field_at(alloc: Global, bytes: &[u8], header: &HeaderSpan) -> Result<Field, AllocError>
    requires { IsHeaderWithin (length bytes.now) header.now }
    ensures { IfOk result (λ field. field ≡ field_at bytes.now header.now) }
{
    let name = header.name.of(bytes).to_vec(alloc)?;
    let value = header.value.of(bytes).to_vec(alloc)?;
    Ok(Field::new(name, value))
}

// The fields of these places.
fn fields_at(alloc: Global, bytes: &[u8], headers: &[HeaderSpan]) -> Result<Vec<Field>, AllocError>
    requires { All (IsHeaderWithin (length bytes.now)) headers.now }
    ensures { IfOk result (λ fields. fields.items ≡ map (field_at bytes.now) headers.now) }
{
    let mut fields = Vec::with_capacity(alloc, headers.len())?;
    for header in headers {
        fields.push(field_at(alloc, bytes, header)?)?;
    }
    Ok(fields)
}

// The head of these places and fields.
fn head_at(
    alloc: Global,
    bytes: &[u8],
    spans: RequestSpans,
    headers: &[HeaderSpan],
) -> Result<Head, AllocError>
    requires method { IsWithin (length bytes.now) spans.method }
    requires target { IsWithin (length bytes.now) spans.path }
    requires fields { All (IsHeaderWithin (length bytes.now)) headers.now }
    ensures { IfOk result (λ head. head ≡ head_at bytes.now spans headers.now) }
{
    let fields = fields_at(alloc, bytes, headers)?;
    let method = spans.method.of(bytes).to_vec(alloc)?;
    let target = spans.path.of(bytes).to_vec(alloc)?;
    Ok(Head::new(method, target, spans.version, fields))
}

/// Reads the head that the bytes up to and with the first empty line are; `None` where they are no head of HTTP/1.0 or HTTP/1.1, or one of
/// more fields than a head may have. `Err` only for want of memory.
pub fn read_head(alloc: Global, bytes: &[u8]) -> Result<Option<Head>, AllocError>
    ensures { IfOk result (IsRead bytes.now) }
{
    let mut headers = [EMPTY_HEADER_SPAN; 64];
    let Some(spans) = spans_of(bytes, &mut headers) else {
        return Ok(None);
    };
    let head = head_at(alloc, bytes, spans, &headers[..spans.headers])?;
    Ok(Some(head))
}
