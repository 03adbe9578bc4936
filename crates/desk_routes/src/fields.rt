// What the fields of a request say of its caller and its numbers.

ghost use Rattle.std.specs.Prelude.{◌≡◌, true, false, IsNone, IfSome};
ghost use Rattle.std.specs.Option.{option_map};
ghost use Rattle.desk_keeper.specs.Names.{is_chair_name};
ghost use Rattle.desk_routes.specs.Fields.{chair_in, chair_of, number_of};

use crate::words::number_in;
use desk_keeper::is_chair_name;
use http_messages::{Field, only_value};

// The value as a text, which each name of a chair is.
fn name_text(value: &[u8]) -> Option<&str>
    ensures none { IsNone result → is_chair_name value.now ≡ false }
    ensures same { IfSome result (λ text. text.now ≡ value.now) }
{
    match str::from_utf8(value) {
        Ok(text) => Some(text),
        Err(_) => None,
    }
}

fn chair_in(value: &[u8]) -> Option<&str>
    ensures { option_map (λ name. name.now) result ≡ chair_in value.now }
{
    let text = name_text(value)?;
    if is_chair_name(text) {
        Some(text)
    } else {
        None
    }
}

// The chair that the one field X-Chair names.
pub(crate) fn chair_of(fields: &[Field]) -> Option<&str>
    ensures { option_map (λ name. name.now) result ≡ chair_of fields.now }
{
    let value = only_value(fields, "X-Chair")?;
    chair_in(value)
}

// The number that the one field of this name spells.
pub(crate) fn number_of(fields: &[Field], name: &str) -> Option<u64>
    ensures { result ≡ number_of name.now fields.now }
{
    let value = only_value(fields, name)?;
    number_in(value)
}
