// The length of a body.

ghost use Rattle.std.specs.Prelude.{◌≡◌, ◌<◌, ◌≤◌, true, false, IsNone, IfSome, nat_lt, length};
ghost use Rattle.std.specs.Option.{SomeIff};
ghost use Rattle.std.specs.Char.{is_ascii_digit};
ghost use Rattle.std.specs.List.{list_all};
ghost use Rattle.http_framing.specs.HeadTests.{is_length, length_of_text, length_value};

use crate::fault::FrameFault;

/// The greatest length of a body, in bytes.
pub const MOST_BODY_BYTES: u32 = 33_554_432;

fn all_digits(text: &[u8]) -> bool
    ensures { result ≡ list_all is_ascii_digit text.now }
{
    text.iter().all(|byte| byte.is_ascii_digit())
}

// Whether the text is one or more digits alone.
fn is_length(text: &[u8]) -> bool
    ensures { result ≡ is_length text.now }
{
    match text {
        [] => false,
        _ => all_digits(text),
    }
}

// The number that digits spell, where it is at most the greatest length.
fn length_value(text: &[u8]) -> Option<u32>
    requires { is_length text.now ≡ true }
    ensures { SomeIff result (length_value text.now ≤ MOST_BODY_BYTES) (length_value text.now) }
{
    let mut number: u32 = 0;
    for byte in text {
        number = number * 10 + u32::from(*byte - b'0');
        if number > MOST_BODY_BYTES {
            return None;
        }
    }
    Some(number)
}

// The length of a body by the text of its one field Content-Length.
pub(crate) fn length_of_text(text: &[u8]) -> Result<u32, FrameFault>
    ensures { result ≡ length_of_text text.now }
{
    if !is_length(text) {
        return Err(FrameFault::Length);
    }
    match length_value(text) {
        Some(number) => Ok(number),
        None => Err(FrameFault::BodyTooLarge),
    }
}
