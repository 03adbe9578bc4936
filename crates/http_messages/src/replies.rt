// Replies.

ghost use Rattle.std.specs.Prelude.{◌≡◌, None, Some};
ghost use Rattle.http_messages.specs.Replies.{ReplyValue};
ghost use Rattle.http_messages.specs.declared.replies.MediaType.TheVariants.{Json, PlainText};

use http::StatusCode;
use std::marker::Model;

/// The type of a body.
#[derive(Clone, Copy, Debug, PartialEq, Eq)]
pub enum MediaType {
    /// `application/json`
    Json,
    /// `text/plain; charset=utf-8`
    PlainText,
}

/// A method that a target may have.
#[derive(Clone, Copy, Debug, PartialEq, Eq)]
pub enum Method {
    /// `GET`
    Get,
    /// `POST`
    Post,
}

/// A reply. Contracts see its parts.
#[derive(Drop)]
pub struct Reply {
    status: StatusCode,
    media_type: MediaType,
    allow: Option<Method>,
    body: Vec<u8>,
}

impl Model for Reply {
    ghost use Rattle.http_messages.specs.Replies.{ReplyValue};

    ghost Value = { ReplyValue };

    ghost view = { λ r. record { status = r.status; media_type = r.media_type; allow = r.allow; body = r.body.items } };
}

impl Reply {
    /// A reply of this type of body, without taking memory.
    pub fn new(status: StatusCode, media_type: MediaType, body: Vec<u8>) -> Self
        ensures { result ≡ record { status = status; media_type = media_type; allow = None; body = body.items } }
    {
        Reply {
            status,
            media_type,
            allow: None,
            body,
        }
    }

    /// The same reply that names the method which its target has.
    pub fn allowing(self, method: Method) -> Self
        ensures { result ≡ record self { allow = Some method } }
    {
        let Reply {
            status,
            media_type,
            allow: _,
            body,
        } = self;
        Reply {
            status,
            media_type,
            allow: Some(method),
            body,
        }
    }

    /// The status code.
    pub fn status(&self) -> StatusCode
        ensures { result ≡ self.now.status }
    {
        self.status
    }

    /// The type of the body.
    pub fn media_type(&self) -> MediaType
        ensures { result ≡ self.now.media_type }
    {
        self.media_type
    }

    /// The method that the target has, where the request has another.
    pub fn allow(&self) -> Option<Method>
        ensures { result ≡ self.now.allow }
    {
        self.allow
    }

    /// The body.
    pub fn body(&self) -> &[u8]
        ensures { result.now ≡ self.now.body }
    {
        self.body.as_slice()
    }
}
