// Numbers as texts with one spelling each.
ghost use Rattle.std.specs.Prelude.{◌≡◌, ◌<◌, ◌≤◌, ◌^◌, true, pos};
ghost use Rattle.std.specs.Option.{SomeIff};
ghost use Rattle.std.specs.Char.{is_ascii_digit};
ghost use Rattle.std.specs.List.{list_all};
ghost use Rattle.text_lines.specs.Numbers.{is_canonical, is_canonical_signed, value, signed_value, size};

/// The greatest number of 64 bits.
pub const MOST_AMOUNT: u64 = 18_446_744_073_709_551_615;

/// Whether the text spells a number canonically: `0`, or a digit from 1 to 9 and further digits.
pub fn is_canonical(text: &[u8]) -> bool
    ensures { result ≡ is_canonical text.now }
{
    match text {
        [] => false,
        [first, rest @ ..] => {
            if *first == b'0' {
                rest.is_empty()
            } else {
                all_digits(text)
            }
        }
    }
}

fn all_digits(text: &[u8]) -> bool
    ensures { result ≡ list_all is_ascii_digit text.now }
{
    text.iter().all(|byte| byte.is_ascii_digit())
}

/// Whether the text spells a signed number canonically: a canonical number, or `-` and one that isn't 0.
pub fn is_canonical_signed(text: &[u8]) -> bool
    ensures { result ≡ is_canonical_signed text.now }
{
    match text {
        [b'-', b'0', ..] => false,
        [b'-', rest @ ..] => is_canonical(rest),
        _ => is_canonical(text),
    }
}

/// The number that a canonical text spells, where it is at most `most`.
pub fn number_up_to(text: &[u8], most: u64) -> Option<u64>
    requires { is_canonical text.now ≡ true }
    ensures { SomeIff result (value text.now ≤ most) (value text.now) }
{
    let mut number: u64 = 0;
    for byte in text {
        let digit = u64::from(*byte - b'0');
        number = number.checked_mul(10)?.checked_add(digit)?;
        if number > most {
            return None;
        }
    }
    Some(number)
}

/// The signed number that a canonical text spells, where its magnitude is at most `most`.
pub fn integer_up_to(text: &[u8], most: u64) -> Option<i64>
    requires canonical { is_canonical_signed text.now ≡ true }
    requires small { most < 2 ^ 60 }
    ensures { SomeIff result (size text.now ≤ most) (signed_value text.now) }
{
    match text {
        [b'-', rest @ ..] => Some(-(number_up_to(rest, most)? as i64)),
        _ => Some(number_up_to(text, most)? as i64),
    }
}
