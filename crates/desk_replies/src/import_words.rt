// The words for what is wrong with a table.

ghost use Rattle.std.specs.Prelude.{◌≡◌};
ghost use Rattle.desk_replies.specs.ImportWords.{code_word, key_word};

use bid_import::{Code, Key};

/// The word of a key of the settings.
#[tactic(auto, unfolding(crate::specs::ImportWords::key_word))]
pub fn key_word(key: Key) -> &'static str
    ensures { result.now ≡ key_word key }
{
    match key {
        Key::Unknown => "unknown",
        Key::Limit => "limit",
        Key::Cap => "cap",
        Key::Pairs => "pairs",
        Key::Demand => "demand",
        Key::Least => "least",
        Key::Greatest => "greatest",
        Key::Source => "source",
        Key::Bids => "bids",
    }
}

/// The word of a code.
#[tactic(auto, unfolding(crate::specs::ImportWords::code_word))]
pub fn code_word(code: Code) -> &'static str
    ensures { result.now ≡ code_word code }
{
    match code {
        Code::TooMany => "too-many",
        Code::NotUtf8 => "not-utf8",
        Code::WrongWidth => "wrong-width",
        Code::BadId => "bad-id",
        Code::BadDemand => "bad-demand",
        Code::BadLoad => "bad-load",
        Code::BadNumber => "bad-number",
        Code::OutOfRange => "out-of-range",
        Code::UnknownWord => "unknown-word",
        Code::BadMark => "bad-mark",
        Code::BadCap => "bad-cap",
        Code::NotToml => "not-toml",
        Code::BadSetting { key: _ } => "bad-setting",
        Code::UnknownSource => "unknown-source",
        Code::Missing => "missing",
        Code::TooLong => "too-long",
    }
}
