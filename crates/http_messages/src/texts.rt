// The lines of a reply's head.

ghost use Rattle.std.specs.Prelude.{◌≡◌, ◌≤◌, length};
ghost use Rattle.http_messages.specs.Replies.{allow_line, close_line, media_text, reason_of};

use crate::replies::{MediaType, Method};

// The reason that is written behind a status code.
#[tactic(auto, unfolding(crate::specs::Replies::reason_of))]
pub(crate) fn reason_of(status: u16) -> &'static [u8]
    ensures text { result.now ≡ reason_of status }
    ensures short { length result.now ≤ 24 }
{
    match status {
        200 => b"OK",
        400 => b"Bad Request",
        403 => b"Forbidden",
        404 => b"Not Found",
        405 => b"Method Not Allowed",
        409 => b"Conflict",
        411 => b"Length Required",
        413 => b"Content Too Large",
        422 => b"Unprocessable Content",
        501 => b"Not Implemented",
        503 => b"Service Unavailable",
        507 => b"Insufficient Storage",
        _ => b"",
    }
}

#[tactic(auto, unfolding(crate::specs::Replies::media_text))]
pub(crate) fn media_text(media_type: MediaType) -> &'static [u8]
    ensures text { result.now ≡ media_text media_type }
    ensures short { length result.now ≤ 25 }
{
    match media_type {
        MediaType::Json => b"application/json",
        MediaType::PlainText => b"text/plain; charset=utf-8",
    }
}

#[tactic(auto, unfolding(crate::specs::Replies::allow_line))]
pub(crate) fn allow_line(allow: Option<Method>) -> &'static [u8]
    ensures text { result.now ≡ allow_line allow }
    ensures short { length result.now ≤ 13 }
{
    match allow {
        None => b"",
        Some(Method::Get) => b"Allow: GET\r\n",
        Some(Method::Post) => b"Allow: POST\r\n",
    }
}

#[tactic(auto, unfolding(crate::specs::Replies::close_line))]
pub(crate) fn close_line(closes: bool) -> &'static [u8]
    ensures text { result.now ≡ close_line closes }
    ensures short { length result.now ≤ 19 }
{
    if closes {
        b"Connection: close\r\n"
    } else {
        b""
    }
}
