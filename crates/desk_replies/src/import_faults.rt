// What is wrong with a table, as members of an object.

ghost use Rattle.std.specs.Prelude.{◌≡◌, IfOk};
ghost use Rattle.desk_replies.specs.Built.{members};
ghost use Rattle.desk_replies.specs.Refusals.{with_fault, with_key};

use crate::import_words::{code_word, key_word};
use crate::objects::Object;
use bid_import::Code;
use std::alloc::AllocError;

// The key of the settings that is at fault, where one is.
fn with_key(object: Object, code: Code) -> Result<Object, AllocError>
    ensures { IfOk result (λ made. members made ≡ with_key code (members object)) }
{
    match code {
        Code::BadSetting { key } => object.with_text("key", key_word(key)),
        _ => Ok(object),
    }
}

/// The object with the record that is at fault, and for what.
pub fn with_fault(object: Object, row: u64, code: Code) -> Result<Object, AllocError>
    ensures { IfOk result (λ made. members made ≡ with_fault row code (members object)) }
{
    let object = with_key(object, code)?;
    let object = object.with_number("row", row)?;
    object.with_text("code", code_word(code))
}
