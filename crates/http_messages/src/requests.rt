// Requests.

ghost use Rattle.std.specs.Prelude.{◌≡◌};
ghost use Rattle.http_messages.specs.Requests.{RequestValue};

use crate::fields::Field;
use std::marker::Model;

/// A request: the parts of its head, and its whole body.
#[derive(Drop)]
pub struct Request {
    method: Vec<u8>,
    target: Vec<u8>,
    fields: Vec<Field>,
    body: Vec<u8>,
}

impl Model for Request {
    ghost use Rattle.http_messages.specs.Requests.{RequestValue};

    ghost Value = { RequestValue };

    ghost view = { λ r. record { method = r.method.items; target = r.target.items; fields = r.fields.items; body = r.body.items } };
}

impl Request {
    /// The request of these parts, without taking memory.
    pub fn new(method: Vec<u8>, target: Vec<u8>, fields: Vec<Field>, body: Vec<u8>) -> Self
        ensures { result ≡ record { method = method.items; target = target.items; fields = fields.items; body = body.items } }
    {
        Request {
            method,
            target,
            fields,
            body,
        }
    }

    /// The method, as it stands in the head.
    pub fn method(&self) -> &[u8]
        ensures { result.now ≡ self.now.method }
    {
        self.method.as_slice()
    }

    /// The target, as it stands in the head: UTF-8 without spaces.
    pub fn target(&self) -> &[u8]
        ensures { result.now ≡ self.now.target }
    {
        self.target.as_slice()
    }

    /// The fields, in their order.
    pub fn fields(&self) -> &[Field]
        ensures { result.now ≡ self.now.fields }
    {
        self.fields.as_slice()
    }

    /// The body.
    pub fn body(&self) -> &[u8]
        ensures { result.now ≡ self.now.body }
    {
        self.body.as_slice()
    }

    /// The vector of the body, without taking memory.
    pub fn into_body(self) -> Vec<u8>
        ensures { result.items ≡ self.body }
    {
        self.body
    }
}
