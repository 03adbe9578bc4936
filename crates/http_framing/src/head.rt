// The head of a request.

ghost use Rattle.std.specs.Prelude.{◌≡◌, codes};
ghost use Rattle.std.specs.List.{list_any};
ghost use Rattle.http_messages.specs.Fields.{values_of};
ghost use Rattle.http_framing.specs.Fronts.{request_of};
ghost use Rattle.http_framing.specs.Heads.{HeadValue};
ghost use Rattle.http_framing.specs.HeadTests.{asks_continue, body_length, closes, ends_stream, expects, is_post, length_of_values};

use crate::fault::FrameFault;
use crate::lengths::length_of_text;
use crate::lists::has_close;
use http_messages::{Field, Request, is_named, only_value, value_count};
use std::marker::Model;

/// The most fields of a head.
pub const MOST_FIELDS: usize = 64;

/// A head: its method and its target, the number behind the point of its version, its fields.
#[derive(Drop)]
pub struct Head {
    method: Vec<u8>,
    target: Vec<u8>,
    minor: u8,
    fields: Vec<Field>,
}

impl Model for Head {
    ghost use Rattle.http_framing.specs.Heads.{HeadValue};

    ghost Value = { HeadValue };

    ghost view = { λ h. record { method = h.method.items; target = h.target.items; minor = h.minor; fields = h.fields.items } };
}

impl Head {
    /// The head of these parts, without taking memory.
    pub fn new(method: Vec<u8>, target: Vec<u8>, minor: u8, fields: Vec<Field>) -> Self
        ensures { result ≡ record { method = method.items; target = target.items; minor = minor; fields = fields.items } }
    {
        Head {
            method,
            target,
            minor,
            fields,
        }
    }

    fn is_post(&self) -> bool
        ensures { result ≡ is_post self.now }
    {
        self.method.as_slice() == b"POST".as_slice()
    }

    /// How many bytes the body has; else the first test that fails, of those before the route: the version is 1.1, there is one Host,
    /// there is no Transfer-Encoding, Content-Length is one or more digits alone and there once or, but for a POST, not at all, and its
    /// number isn't above the greatest. Takes no memory.
    pub fn body_length(&self) -> Result<u32, FrameFault>
        ensures { result ≡ body_length self.now }
    {
        let fields = self.fields.as_slice();
        if self.minor != 1 {
            return Err(FrameFault::Version);
        }
        if value_count(fields, "Host") != 1 {
            return Err(FrameFault::Host);
        }
        if value_count(fields, "Transfer-Encoding") > 0 {
            return Err(FrameFault::TransferEncoding);
        }
        length_of_fields(self.is_post(), fields)
    }

    /// Whether the head asks that its body be asked for: a POST with a field Expect that is `100-continue`, without regard to the case of
    /// ASCII letters. Takes no memory.
    pub fn asks_continue(&self) -> bool
        ensures { result ≡ asks_continue self.now }
    {
        self.is_post() && any_expects(self.fields.as_slice())
    }

    /// Whether the stream ends behind this request: some field Connection has `close` among the parts between its commas. Takes no memory.
    pub fn ends_stream(&self) -> bool
        ensures { result ≡ ends_stream self.now }
    {
        any_closes(self.fields.as_slice())
    }

    /// The request of this head and of a body, without taking memory.
    pub fn into_request(self, body: Vec<u8>) -> Request
        ensures { result ≡ request_of self body.items }
    {
        let Head {
            method,
            target,
            minor: _,
            fields,
        } = self;
        Request::new(method, target, fields, body)
    }
}

// The length of a body by the fields Content-Length.
fn length_of_fields(post: bool, fields: &[Field]) -> Result<u32, FrameFault>
    ensures { result ≡ length_of_values post (values_of (codes "Content-Length") fields.now) }
{
    if let Some(text) = only_value(fields, "Content-Length") {
        return length_of_text(text);
    }
    if value_count(fields, "Content-Length") > 0 {
        return Err(FrameFault::Length);
    }
    if post {
        return Err(FrameFault::NoLength);
    }
    Ok(0)
}

// Whether a field asks that the body be asked for.
fn any_expects(fields: &[Field]) -> bool
    ensures { result ≡ list_any expects fields.now }
{
    match fields {
        [] => false,
        [field, rest @ ..] => expects(field) || any_expects(rest),
    }
}

fn expects(field: &Field) -> bool
    ensures { result ≡ expects field.now }
{
    is_named(field, "Expect") && field.value().eq_ignore_ascii_case(b"100-continue")
}

// Whether a field says that the stream ends behind the request.
fn any_closes(fields: &[Field]) -> bool
    ensures { result ≡ list_any closes fields.now }
{
    match fields {
        [] => false,
        [field, rest @ ..] => closes(field) || any_closes(rest),
    }
}

fn closes(field: &Field) -> bool
    ensures { result ≡ closes field.now }
{
    is_named(field, "Connection") && has_close(field.value())
}
