// The bid words of a document of settings.

ghost use Rattle.std.specs.Prelude.{◌≡◌, ◌≤ℤ◌, [], ◌∷◌, ◌++◌, pos, neg_ℤ, ok_or, IfOk, OnOk};
ghost use Rattle.toml.specs.View.{view, table_view};
ghost use Rattle.bid_import.specs.Documents.{ReadsKey, ReadsItems};
ghost use Rattle.bid_import.specs.Settings.{AscendInBytes, bid_word, default_words, word_from, words_from, words_setting, entries, each};

use crate::document::{KeyFault, member, value};
use crate::fault::Key;
use score_spec::{BidWord, Text, Value, Words};
use std::alloc::{AllocError, Global};
use toml::Table;

fn word_of(alloc: Global, key: &str, node: &toml::Value) -> Result<BidWord, KeyFault>
    ensures { ReadsKey result (ok_or (word_from (key.now, view node.now)) Key.Bids) }
{
    if key.is_empty() {
        return Err(KeyFault::At(Key::Bids));
    }
    if key.len() > 64 {
        return Err(KeyFault::At(Key::Bids));
    }
    let value = value(node).ok_or(Key::Bids)?;
    let word = Text::read(alloc, key)?;
    Ok(BidWord { word, value })
}

fn all_words(alloc: Global, table: &Table) -> Result<Vec<BidWord>, KeyFault>
    ensures same { ReadsItems result (ok_or (each word_from (entries (table_view table.now))) Key.Bids) }
    ensures order { IfOk result (λ words. AscendInBytes words.items) }
{
    let mut words = Vec::new(alloc);
    for (key, node) in table.iter() {
        words.push(word_of(alloc, key.as_str(), node)?)?;
    }
    Ok(words)
}

fn words_of(alloc: Global, node: &toml::Value) -> Result<Words, KeyFault>
    ensures same { ReadsKey result (ok_or (words_from (view node.now)) Key.Bids) }
    ensures order { IfOk result AscendInBytes }
{
    let table = node.as_table().ok_or(Key::Bids)?;
    if table.len() > 32 {
        return Err(KeyFault::At(Key::Bids));
    }
    Ok(Words::from_vec(all_words(alloc, table)?))
}

// Puts a word with its value behind the others.
fn push_word(
    alloc: Global,
    words: &mut Vec<BidWord>,
    text: &str,
    tenthousandths: i32,
) -> Result<(), AllocError>
    requires low { neg_ℤ (pos 100000) ≤ℤ tenthousandths }
    requires high { tenthousandths ≤ℤ pos 100000 }
    ensures { OnOk result (words.new.items ≡ words.old.items ++ (bid_word text.now tenthousandths ∷ [])) }
{
    let word = Text::read(alloc, text)?;
    words.push(BidWord {
        word,
        value: Value::from_tenthousandths(tenthousandths),
    })?;
    Ok(())
}

/// The words of settings that have none.
pub(crate) fn default_words(alloc: Global) -> Result<Words, AllocError>
    ensures { IfOk result (λ words. words ≡ default_words) }
{
    let mut words = Vec::new(alloc);
    push_word(alloc, &mut words, "High", 5_000)?;
    push_word(alloc, &mut words, "Low", -5_000)?;
    push_word(alloc, &mut words, "Neutral", 0)?;
    push_word(alloc, &mut words, "Very High", 10_000)?;
    push_word(alloc, &mut words, "Very Low", -10_000)?;
    Ok(Words::from_vec(words))
}

/// The words of bids, in the order of their bytes.
pub(crate) fn words(alloc: Global, table: &Table) -> Result<Words, KeyFault>
    ensures same { ReadsKey result (words_setting (table_view table.now)) }
    ensures order { IfOk result AscendInBytes }
{
    match member(table, "bids") {
        Some(node) => words_of(alloc, node),
        None => Ok(default_words(alloc)?),
    }
}
