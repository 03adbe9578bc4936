ghost use Rattle.std.specs.Prelude.{◌≡◌, ℤ, Result};
ghost use Rattle.score_spec.specs.Spelling.{MeetsGrammar};
ghost use Rattle.score_spec.specs.Reading.{read_as};

use crate::scan::scanned;
use std::marker::Model;

/// A number from -10 to 10, in ten-thousandths. Contracts see the whole number of ten-thousandths.
#[derive(Clone, Copy, PartialEq, Eq, Debug)]
pub struct Value {
    tenthousandths: i32,
}

impl Model for Value {
    ghost use Rattle.std.specs.Prelude.{ℤ, pos, neg_ℤ, ◌≤ℤ◌};

    ghost Value = { ℤ };

    ghost view = { λ v. v.tenthousandths };

    ghost invariant = { λ v. (neg_ℤ (pos 100000) ≤ℤ v.tenthousandths) × (v.tenthousandths ≤ℤ pos 100000) };

    ghost inverse = { λ n. record { tenthousandths = n } };
}

/// Why a text is no value.
#[derive(Clone, Copy, PartialEq, Eq, Debug)]
pub enum NumberFault {
    /// The text isn't spelled as a value. The place counts the bytes of its longest prefix with which some value text
    /// begins.
    BadNumber { place: u64 },
    /// The exact value is above 10 or below -10.
    OutOfRange,
}

impl Value {
    ghost use Rattle.std.specs.Prelude.{◌≡◌, pos, neg_ℤ, ◌≤ℤ◌, SomeIff};

    /// The value of this many ten-thousandths, where that is from -100,000 to 100,000.
    pub fn new(tenthousandths: i32) -> Option<Value>
        ensures { SomeIff result ((neg_ℤ (pos 100000) ≤ℤ tenthousandths) × (tenthousandths ≤ℤ pos 100000)) tenthousandths }
    {
        if tenthousandths < -100_000 {
            return None;
        }
        if tenthousandths > 100_000 {
            return None;
        }
        Some(Value { tenthousandths })
    }

    /// The value of this many ten-thousandths, which is one.
    pub fn from_tenthousandths(tenthousandths: i32) -> Value
        requires low { neg_ℤ (pos 100000) ≤ℤ tenthousandths }
        requires high { tenthousandths ≤ℤ pos 100000 }
        ensures { result ≡ tenthousandths }
    {
        Value { tenthousandths }
    }

    /// The number of ten-thousandths.
    pub fn tenthousandths(self) -> i32
        ensures number { result ≡ self }
        ensures low { neg_ℤ (pos 100000) ≤ℤ result }
        ensures high { result ≤ℤ pos 100000 }
    {
        self.tenthousandths
    }
}

/// Reads a value text: an optional sign, a mantissa of 1 to 36 digits with at most one point before, among or after
/// them, and an optional exponent of `e` or `E`, an optional sign and 1 to 3 digits. The exact value is rounded to
/// ten-thousandths, halves away from zero. Takes no memory.
pub fn read_value(text: &str) -> Result<Value, NumberFault>
    ensures value { result ≡ read_as text.now }
    ensures grammar { MeetsGrammar text.now result }
    ensures only { (other : Result ℤ NumberFault) → MeetsGrammar text.now other → other ≡ result }
{
    scanned(text.as_bytes())
}
