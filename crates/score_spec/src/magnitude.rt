ghost use Rattle.std.specs.Prelude.{◌≡◌, ◌+◌, ◌*◌, ◌^◌, ◌<◌, ◌≤◌, IfSome};
ghost use Rattle.score_spec.specs.Magnitude.{magnitude_of};

/// The rounded `digits * 10^gain / 10^loss`, where the exact number is at most 100,000.
pub(crate) fn magnitude(digits: u128, gain: u32, loss: u32) -> Option<u32>
    requires { digits < 10 ^ 36 }
    ensures value { result ≡ magnitude_of (digits * 10 ^ gain) (10 ^ loss) }
    ensures small { IfSome result (λ n. n ≤ 100000) }
{
    if gain < loss {
        return divided(digits, loss - gain);
    }
    multiplied(digits, gain - loss)
}

// digits times a power of ten
fn multiplied(digits: u128, places: u32) -> Option<u32>
    ensures value { result ≡ magnitude_of (digits * 10 ^ places) 1 }
    ensures small { IfSome result (λ n. n ≤ 100000) }
{
    if digits == 0 {
        return Some(0);
    }
    if digits > 100_000 {
        return None;
    }
    if places > 5 {
        return None;
    }
    let value = digits * 10u128.pow(places);
    if value > 100_000 {
        return None;
    }
    Some(value as u32)
}

// digits over a power of ten
fn divided(digits: u128, places: u32) -> Option<u32>
    requires { digits < 10 ^ 36 }
    ensures value { result ≡ magnitude_of digits (10 ^ places) }
    ensures small { IfSome result (λ n. n ≤ 100000) }
{
    if places > 37 {
        return Some(0);
    }
    let bottom = 10u128.pow(places);
    if (digits + 99_999) / 100_000 > bottom {
        return None;
    }
    Some(((2 * digits + bottom) / (2 * bottom)) as u32)
}
