// The parts of a field's value that is a list.

ghost use Rattle.std.specs.Prelude.{◌≡◌};
ghost use Rattle.std.specs.List.{list_any, slice_split};
ghost use Rattle.httparse.specs.Grammar.{is_ows, skip_ows, trim_ows};
ghost use Rattle.http_framing.specs.HeadTests.{is_close, is_comma};

fn is_space(byte: u8) -> bool
    ensures { result ≡ is_ows byte }
{
    byte == b' ' || byte == b'\t'
}

// The bytes without the spaces and tabs around them.
fn trimmed(bytes: &[u8]) -> &[u8]
    ensures { result.now ≡ trim_ows bytes.now }
{
    let mut start = 0;
    let mut end = bytes.len();
    while start < end && is_space(bytes[start]) {
        start += 1;
    }
    while start < end && is_space(bytes[end - 1]) {
        end -= 1;
    }
    &bytes[start..end]
}

fn is_close(part: &[u8]) -> bool
    ensures { result ≡ is_close part.now }
{
    trimmed(part).eq_ignore_ascii_case(b"close")
}

// Whether some part of a list is `close`.
pub(crate) fn has_close(value: &[u8]) -> bool
    ensures { result ≡ list_any is_close (slice_split is_comma value.now) }
{
    value.split(|byte| *byte == b',').any(|part| is_close(part))
}
