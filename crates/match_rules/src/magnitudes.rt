// Numbers whose magnitude is limited.

ghost use Rattle.std.specs.Prelude.{◌↔◌, IsTrue};
ghost use Rattle.match_rules.specs.Answers.{IsWithin};

// Whether the magnitude of a number is at most a limit.
pub(crate) fn is_within(limit: u64, number: i128) -> bool
    ensures { IsTrue result ↔ IsWithin limit number }
{
    number.unsigned_abs() <= u128::from(limit)
}
