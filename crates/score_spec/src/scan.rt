ghost use Rattle.std.specs.Prelude.{◌≡◌, ℕ, ◌+◌, ◌<◌, ◌≤◌, if◌then◌else◌, IfOk, IfSome};
ghost use Rattle.std.specs.Option.{option_map};
ghost use Rattle.std.specs.Char.{is_digit, digit_value};
ghost use Rattle.score_spec.specs.Reading.{sign_of};
ghost use Rattle.score_spec.specs.Scanning.{IsSmall, scan_all, unwritten_scan, scanned_answer};

use crate::magnitude::magnitude;
use crate::numbers::{NumberFault, Value};

#[derive(Clone, Copy)]
pub(crate) enum Sign {
    Absent,
    Plus,
    Minus,
}

// What is kept of an exponent: its sign, its number and how many digits that has.
#[derive(Clone, Copy)]
pub(crate) struct Power {
    sign: Sign,
    value: u32,
    count: u32,
}

// What is kept of an unfinished value text: the sign, the number that its digits make, how many they are, how
// many of them stand behind the point where there is one, and the exponent where there is one.
#[derive(Clone, Copy)]
pub(crate) struct Scan {
    sign: Sign,
    digits: u128,
    count: u32,
    scale: Option<u32>,
    power: Option<Power>,
}

fn digit_of(byte: u8) -> Option<u8>
    ensures { result ≡ (if is_digit byte 10 then Some (digit_value byte) else None) }
{
    if byte < b'0' {
        return None;
    }
    if byte > b'9' {
        return None;
    }
    Some(byte - b'0')
}

fn sign_of(byte: u8) -> Option<Sign>
    ensures { result ≡ sign_of byte }
{
    if byte == b'+' {
        return Some(Sign::Plus);
    }
    if byte == b'-' {
        return Some(Sign::Minus);
    }
    None
}

// one more place behind the point, where there is a point
fn one_more(scale: Option<u32>) -> Option<u32>
    requires few { IfSome scale (λ n. n < 37) }
    ensures more { result ≡ option_map (λ n. n + 1) scale }
    ensures within { (most : ℕ) → IfSome scale (λ n. n ≤ most) → IfSome result (λ n. n ≤ most + 1) }
{
    match scale {
        Some(places) => Some(places + 1),
        None => None,
    }
}

impl Sign {
    ghost use Rattle.std.specs.Prelude.{◌≡◌, ◌≤◌};
    ghost use Rattle.score_spec.specs.Spelling.{signed};
    ghost use Rattle.score_spec.specs.Reading.{is_absent};

    fn is_absent(self) -> bool
        ensures { result ≡ is_absent self }
    {
        match self {
            Sign::Absent => true,
            Sign::Plus => false,
            Sign::Minus => false,
        }
    }

    fn value_of(self, magnitude: u32) -> Value
        requires { magnitude ≤ 100000 }
        ensures { result ≡ signed self magnitude }
    {
        match self {
            Sign::Absent => Value::from_tenthousandths(magnitude as i32),
            Sign::Plus => Value::from_tenthousandths(magnitude as i32),
            Sign::Minus => Value::from_tenthousandths(-(magnitude as i32)),
        }
    }
}

impl Power {
    ghost use Rattle.std.specs.Prelude.{◌≡◌, ◌<◌, IfSome};
    ghost use Rattle.score_spec.specs.Spelling.{raised_by, lowered_by};
    ghost use Rattle.score_spec.specs.Scanning.{IsSmallPower, next_power};

    // the powers of ten by which the exponent multiplies and divides
    fn places(self) -> (u32, u32)
        ensures gain { result.0 ≡ raised_by self.sign self.value }
        ensures loss { result.1 ≡ lowered_by self.sign self.value }
        ensures small { IsSmallPower self → (result.0 < 1000) × (result.1 < 1000) }
    {
        match self.sign {
            Sign::Absent => (self.value, 0),
            Sign::Plus => (self.value, 0),
            Sign::Minus => (0, self.value),
        }
    }

    fn next(self, byte: u8) -> Option<Power>
        requires { IsSmallPower self }
        ensures next { result ≡ next_power self byte }
        ensures small { IfSome result IsSmallPower }
    {
        if let Some(digit) = digit_of(byte) {
            if self.count < 3 {
                return Some(Power {
                    sign: self.sign,
                    value: self.value * 10 + u32::from(digit),
                    count: self.count + 1,
                });
            }
            return None;
        }
        if !self.sign.is_absent() {
            return None;
        }
        if self.count != 0 {
            return None;
        }
        match sign_of(byte) {
            Some(sign) => Some(Power {
                sign,
                value: self.value,
                count: self.count,
            }),
            None => None,
        }
    }
}

impl Scan {
    ghost use Rattle.std.specs.Prelude.{◌≡◌};
    ghost use Rattle.std.specs.Prelude.{◌+◌, ◌*◌, ◌<◌, ◌==◌, ◌&&◌, nat_lt, is_none, if◌then◌else◌, Some, None, IfSome};
    ghost use Rattle.std.specs.Option.{option_map};
    ghost use Rattle.score_spec.specs.Reading.{only_if, is_absent, sign_of};
    ghost use Rattle.score_spec.specs.Scanning.{IsSmall, next_scan, next_mantissa, unwritten_scan, is_whole, gain_of, loss_of, scale_of, scanned_value};

    fn unwritten() -> Scan
        ensures { result ≡ unwritten_scan }
    {
        Scan {
            sign: Sign::Absent,
            digits: 0,
            count: 0,
            scale: None,
            power: None,
        }
    }

    fn with_digit(self, digit: u8) -> Option<Scan>
        requires small { IsSmall self }
        requires digit { digit < 10 }
        ensures small { IfSome result IsSmall }
        ensures next { result ≡ only_if (nat_lt self.count 36) (record self { digits = self.digits * 10 + digit; count = self.count + 1; scale = option_map (λ n. n + 1) self.scale }) }
    {
        if self.count >= 36 {
            return None;
        }
        let scale = one_more(self.scale);
        Some(Scan {
            sign: self.sign,
            digits: self.digits * 10 + u128::from(digit),
            count: self.count + 1,
            scale,
            power: self.power,
        })
    }

    fn with_point(self) -> Option<Scan>
        ensures next { result ≡ only_if (is_none self.scale) (record self { scale = Some 0 }) }
        ensures small { IsSmall self → IfSome result IsSmall }
    {
        match self.scale {
            Some(_) => None,
            None => Some(Scan {
                sign: self.sign,
                digits: self.digits,
                count: self.count,
                scale: Some(0),
                power: self.power,
            }),
        }
    }

    fn with_letter(self) -> Option<Scan>
        ensures small { IsSmall self → IfSome result IsSmall }
        ensures next { result ≡ only_if (nat_lt 0 self.count) (record self { power = Some (record { sign = Sign.Absent; value = 0; count = 0 }) }) }
    {
        if self.count == 0 {
            return None;
        }
        let power = Power {
            sign: Sign::Absent,
            value: 0,
            count: 0,
        };
        Some(Scan {
            sign: self.sign,
            digits: self.digits,
            count: self.count,
            scale: self.scale,
            power: Some(power),
        })
    }

    fn with_sign(self, byte: u8) -> Option<Scan>
        ensures small { IsSmall self → IfSome result IsSmall }
        ensures next { result ≡ (if is_absent self.sign && (is_none self.scale && (self.count == 0)) then option_map (λ sign. record self { sign = sign }) (sign_of byte) else None) }
    {
        if !self.sign.is_absent() {
            return None;
        }
        if self.scale.is_some() {
            return None;
        }
        if self.count != 0 {
            return None;
        }
        match sign_of(byte) {
            Some(sign) => Some(Scan {
                sign,
                digits: self.digits,
                count: self.count,
                scale: self.scale,
                power: self.power,
            }),
            None => None,
        }
    }

    fn next_mantissa(self, byte: u8) -> Option<Scan>
        requires { IsSmall self }
        ensures next { result ≡ next_mantissa self byte }
        ensures small { IfSome result IsSmall }
    {
        if let Some(digit) = digit_of(byte) {
            return self.with_digit(digit);
        }
        if byte == b'.' {
            return self.with_point();
        }
        if byte == b'e' {
            return self.with_letter();
        }
        if byte == b'E' {
            return self.with_letter();
        }
        self.with_sign(byte)
    }

    fn next(self, byte: u8) -> Option<Scan>
        requires { IsSmall self }
        ensures next { result ≡ next_scan self byte }
        ensures small { IfSome result IsSmall }
    {
        match self.power {
            None => self.next_mantissa(byte),
            Some(power) => match power.next(byte) {
                None => None,
                Some(next) => Some(Scan {
                    sign: self.sign,
                    digits: self.digits,
                    count: self.count,
                    scale: self.scale,
                    power: Some(next),
                }),
            },
        }
    }

    fn is_whole(&self) -> bool
        ensures { result ≡ is_whole self.now }
    {
        if self.count == 0 {
            return false;
        }
        match self.power {
            None => true,
            Some(power) => power.count > 0,
        }
    }

    // the powers of ten by which the exponent multiplies and divides
    fn places(&self) -> (u32, u32)
        requires { IsSmall self.now }
        ensures gain { result.0 ≡ gain_of self.now.power }
        ensures loss { result.1 ≡ loss_of self.now.power }
        ensures small_gain { result.0 < 1000 }
        ensures small_loss { result.1 < 1000 }
    {
        match self.power {
            None => (0, 0),
            Some(power) => power.places(),
        }
    }

    fn fraction_length(&self) -> u32
        requires { IsSmall self.now }
        ensures length { result ≡ scale_of self.now.scale }
        ensures small { result < 37 }
    {
        match self.scale {
            None => 0,
            Some(places) => places,
        }
    }

    fn value(&self) -> Result<Value, NumberFault>
        requires { IsSmall self.now }
        ensures { result ≡ scanned_value self.now }
    {
        let (gain, loss) = self.places();
        let scale = self.fraction_length();
        match magnitude(self.digits, 4 + gain, scale + loss) {
            None => Err(NumberFault::OutOfRange),
            Some(count) => Ok(self.sign.value_of(count)),
        }
    }
}

/// Scans a text to its end, or to the first byte with which no value text runs on; its place.
fn scan_text(bytes: &[u8]) -> Result<Scan, u64>
    ensures scanned { result ≡ scan_all 0 unwritten_scan bytes.now }
    ensures small { IfOk result IsSmall }
{
    let mut scan = Scan::unwritten();
    for (place, byte) in bytes.iter().enumerate() {
        match scan.next(*byte) {
            Some(longer) => scan = longer,
            None => return Err(place as u64),
        }
    }
    Ok(scan)
}

/// The value that a text writes, or its fault.
pub(crate) fn scanned(bytes: &[u8]) -> Result<Value, NumberFault>
    ensures { result ≡ scanned_answer bytes.now }
{
    match scan_text(bytes) {
        Err(place) => Err(NumberFault::BadNumber { place }),
        Ok(scan) => {
            if scan.is_whole() {
                scan.value()
            } else {
                Err(NumberFault::BadNumber {
                    place: bytes.len() as u64,
                })
            }
        }
    }
}
