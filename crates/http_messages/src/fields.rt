// The fields of a head.

ghost use Rattle.std.specs.Prelude.{◌≡◌, ◌≤◌, length};
ghost use Rattle.std.specs.Option.{option_map};
ghost use Rattle.http_messages.specs.Fields.{FieldValue, is_named, only, values_of};

use std::marker::Model;

/// A field of a head. Contracts see its name and its value as bytes.
#[derive(Drop)]
pub struct Field {
    name: Vec<u8>,
    value: Vec<u8>,
}

impl Model for Field {
    ghost use Rattle.http_messages.specs.Fields.{FieldValue};

    ghost Value = { FieldValue };

    ghost view = { λ f. record { name = f.name.items; value = f.value.items } };
}

impl Field {
    /// The field of a name and of a value without the white space around it, without taking memory.
    pub fn new(name: Vec<u8>, value: Vec<u8>) -> Self
        ensures { result ≡ record { name = name.items; value = value.items } }
    {
        Field { name, value }
    }

    /// The name, as it stands in the head.
    pub fn name(&self) -> &[u8]
        ensures { result.now ≡ self.now.name }
    {
        self.name.as_slice()
    }

    /// The value without the white space around it.
    pub fn value(&self) -> &[u8]
        ensures { result.now ≡ self.now.value }
    {
        self.value.as_slice()
    }
}

/// Whether a field has this name, without regard to the case of ASCII letters.
pub fn is_named(field: &Field, name: &str) -> bool
    ensures { result ≡ is_named name.now field.now }
{
    field.name().eq_ignore_ascii_case(name.as_bytes())
}

/// How many fields have this name, without regard to the case of ASCII letters. Takes no memory.
pub fn value_count(fields: &[Field], name: &str) -> usize
    ensures count { result ≡ length (values_of name.now fields.now) }
    ensures few { result ≤ length fields.now }
{
    match fields {
        [] => 0,
        [field, rest @ ..] if is_named(field, name) => 1 + value_count(rest, name),
        [_, rest @ ..] => value_count(rest, name),
    }
}

/// The value of the one field of this name, without regard to the case of ASCII letters; `None` where no field or more than one
/// has it. Takes no memory.
pub fn only_value<'a>(fields: &'a [Field], name: &str) -> Option<&'a [u8]>
    ensures { option_map (λ value. value.now) result ≡ only (values_of name.now fields.now) }
{
    match fields {
        [] => None,
        [field, rest @ ..] if is_named(field, name) => {
            if value_count(rest, name) == 0 {
                Some(field.value())
            } else {
                None
            }
        }
        [_, rest @ ..] => only_value(rest, name),
    }
}
