// Where a head begins and ends.

ghost use Rattle.std.specs.Prelude.{◌≡◌, ◌≤◌, length, MatchOption, None, Some};
ghost use Rattle.http_framing.specs.Heads.{blank_length, head_end, head_length, is_line_byte, line_end};

/// The most bytes of a head, with the empty line that ends it.
pub const MOST_HEAD_BYTES: usize = 16_384;

fn is_line_byte(byte: u8) -> bool
    ensures { result ≡ is_line_byte byte }
{
    byte == b'\r' || byte == b'\n'
}

/// How many carriage returns and line feeds stand in front of the bytes.
pub fn blank_length(bytes: &[u8]) -> usize
    ensures count { result ≡ blank_length bytes.now }
    ensures within { result ≤ length bytes.now }
{
    for (place, byte) in bytes.iter().enumerate() {
        if !is_line_byte(*byte) {
            return place;
        }
    }
    bytes.len()
}

// How many bytes the line end has that stands in front; 0 where none stands there.
fn line_end(bytes: &[u8]) -> usize
    ensures { result ≡ line_end bytes.now }
{
    match bytes {
        [b'\n', ..] => 1,
        [b'\r', b'\n', ..] => 2,
        _ => 0,
    }
}

// How many bytes there are up to the end of the first empty line.
fn head_length(bytes: &[u8]) -> Option<usize>
    ensures { result ≡ head_length bytes.now }
{
    for (place, byte) in bytes.iter().enumerate() {
        if *byte == b'\n' {
            let end = line_end(&bytes[place + 1..]);
            if end > 0 {
                return Some(place + 1 + end);
            }
        }
    }
    None
}

/// How many bytes the head has that stands in front, up to and with its empty line; `None` where no empty line ends within the bytes
/// that a head may have.
pub fn head_end(bytes: &[u8]) -> Option<usize>
    ensures { result ≡ head_end bytes.now }
{
    let count = MOST_HEAD_BYTES.min(bytes.len());
    head_length(&bytes[..count])
}
