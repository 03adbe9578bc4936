// The names of chairs and of sources.

ghost use Rattle.std.specs.Prelude.{◌≡◌};
ghost use Rattle.std.specs.List.{list_all};
ghost use Rattle.desk_keeper.specs.Names.{is_chair_byte, is_chair_name, is_source_byte, is_source_name};

fn is_chair_byte(byte: u8) -> bool
    ensures { result ≡ is_chair_byte byte }
{
    byte.is_ascii_graphic() && !(byte == b',' || byte == b'"')
}

fn are_chair_bytes(bytes: &[u8]) -> bool
    ensures { result ≡ list_all is_chair_byte bytes.now }
{
    bytes.iter().all(|b| is_chair_byte(*b))
}

/// Whether a text may name a chair: 1 to 128 visible characters of ASCII, without commas and quotation marks.
#[tactic(auto, unfolding(crate::specs::Names::is_chair_name))]
pub fn is_chair_name(text: &str) -> bool
    ensures { result ≡ is_chair_name text.now }
{
    if text.is_empty() {
        return false;
    }
    if text.len() > 128 {
        return false;
    }
    are_chair_bytes(text.as_bytes())
}

fn is_source_byte(byte: u8) -> bool
    ensures { result ≡ is_source_byte byte }
{
    byte.is_ascii_lowercase() || byte.is_ascii_digit() || byte == b'_' || byte == b'-'
}

fn are_source_bytes(bytes: &[u8]) -> bool
    ensures { result ≡ list_all is_source_byte bytes.now }
{
    bytes.iter().all(|b| is_source_byte(*b))
}

/// Whether a text may name a source: 1 to 32 characters of `a` to `z`, `0` to `9`, `_` and `-`.
#[tactic(auto, unfolding(crate::specs::Names::is_source_name))]
pub fn is_source_name(text: &str) -> bool
    ensures { result ≡ is_source_name text.now }
{
    if text.is_empty() {
        return false;
    }
    if text.len() > 32 {
        return false;
    }
    are_source_bytes(text.as_bytes())
}
