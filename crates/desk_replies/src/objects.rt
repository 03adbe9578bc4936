// JSON objects that are put together.

ghost use Rattle.std.specs.Prelude.{◌≡◌, false};
ghost use Rattle.serde_json.specs.View.{members_view};
ghost use Rattle.serde_json.specs.Written.{members_have_float};

use serde_json::{Map, Value, put};
use std::alloc::{AllocError, Global};

/// A JSON object that has no floats.
#[derive(Drop)]
pub struct Object {
    alloc: Global,
    map: Map<String, Value>,
    ghost no_floats: { members_have_float (members_view map.entries) ≡ false },
}

impl Object {
    ghost use Rattle.std.specs.Prelude.{IfOk};
    ghost use Rattle.serde_json.specs.Data.{no_members, put as with_member};
    ghost use Rattle.serde_json.specs.View.{view};
    ghost use Rattle.serde_json.specs.Written.{has_float};
    ghost use Rattle.desk_replies.specs.Built.{members};
    ghost use Rattle.desk_replies.specs.Objects.{object_text, with_integer, with_number, with_text};

    /// An object without members.
    pub fn new(alloc: Global) -> Self
        ensures { members result ≡ no_members }
    {
        Object {
            alloc,
            map: Map::new(alloc),
        }
    }

    // The object with this value at this key.
    #[tactic(auto, using(crate::proofs::ObjectLaws::put_no_float))]
    fn with(self, key: &str, value: Value) -> Result<Self, AllocError>
        requires { has_float (view value) ≡ false }
        ensures { IfOk result (λ object. members object ≡ with_member key.now (view value) (members self)) }
    {
        let Object { alloc, mut map } = self;
        put(&mut map, alloc, key, value)?;
        Ok(Object { alloc, map })
    }

    /// The object with this number at this key.
    pub fn with_number(self, key: &str, amount: u64) -> Result<Self, AllocError>
        ensures { IfOk result (λ object. members object ≡ with_number key.now amount (members self)) }
    {
        self.with(key, Value::from(amount))
    }

    /// The object with this signed number at this key.
    #[tactic(auto, using(crate::proofs::ObjectLaws::integer_no_float))]
    pub fn with_integer(self, key: &str, amount: i64) -> Result<Self, AllocError>
        ensures { IfOk result (λ object. members object ≡ with_integer key.now amount (members self)) }
    {
        self.with(key, Value::from(amount))
    }

    /// The object with this text at this key.
    pub fn with_text(self, key: &str, text: &str) -> Result<Self, AllocError>
        ensures { IfOk result (λ object. members object ≡ with_text key.now text.now (members self)) }
    {
        let value = Value::try_from_str(self.alloc, text)?;
        self.with(key, value)
    }

    /// The text of the object, without spaces.
    pub fn into_text(self) -> Result<Vec<u8>, AllocError>
        ensures { IfOk result (λ text. text.items ≡ object_text (members self)) }
    {
        let Object { alloc, map } = self;
        Value::Object(map).to_vec(alloc)
    }
}
