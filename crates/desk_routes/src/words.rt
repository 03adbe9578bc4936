// The words and numbers in targets and fields.

ghost use Rattle.std.specs.Prelude.{◌≡◌, None, Some, MatchOption};
ghost use Rattle.std.specs.Option.{ok_or};
ghost use Rattle.desk_keeper.specs.Reading.{number_in, how_in, mode_in, table_in, values_in};
ghost use Rattle.desk_keeper.specs.Rows.{are_edit_words};
ghost use Rattle.desk_routes.specs.Faults.{Asks};

use crate::faults::{AskFault, RouteFault};
use desk_keeper::{HowWords, Name, TableWords, is_source_name};
use match_rules::Mode;
use std::alloc::Global;
use text_lines::{MOST_AMOUNT, is_canonical, number_up_to};

// The number of 64 bits that a text spells canonically.
pub(crate) fn number_in(text: &[u8]) -> Option<u64>
    ensures { result ≡ number_in text.now }
{
    if !is_canonical(text) {
        return None;
    }
    number_up_to(text, MOST_AMOUNT)
}

pub(crate) fn how_in(word: &str) -> Option<HowWords>
    ensures { result ≡ how_in word.now }
{
    match word {
        "merge" => Some(HowWords::Merge),
        "replace" => Some(HowWords::Replace),
        _ => None,
    }
}

pub(crate) fn mode_in(word: &str) -> Option<Mode>
    ensures { result ≡ mode_in word.now }
{
    match word {
        "whole" => Some(Mode::Whole),
        "fair" => Some(Mode::Fair),
        _ => None,
    }
}

// The source of a table of values.
fn source_in(word: &str) -> Option<&str>
    ensures { MatchOption result (values_in word.now ≡ None) (λ source. values_in word.now ≡ Some (TableWords.Values source.now)) }
{
    word.strip_prefix("values-")
}

fn values_in(alloc: Global, word: &str) -> Result<TableWords, AskFault>
    ensures { Asks result (ok_or (values_in word.now) RouteFault.NoRoute) }
{
    let Some(source) = source_in(word) else {
        return Err(AskFault::Refused(RouteFault::NoRoute));
    };
    match Name::read(alloc, source) {
        Ok(source) => Ok(TableWords::Values { source }),
        Err(_) => Err(AskFault::Memory),
    }
}

pub(crate) fn table_in(alloc: Global, word: &str) -> Result<TableWords, AskFault>
    ensures { Asks result (ok_or (table_in word.now) RouteFault.NoRoute) }
{
    match word {
        "settings" => Ok(TableWords::Settings),
        "papers" => Ok(TableWords::Papers),
        "reviewers" => Ok(TableWords::Reviewers),
        "bids" => Ok(TableWords::Bids),
        "marks" => Ok(TableWords::Marks),
        "caps" => Ok(TableWords::Caps),
        _ => values_in(alloc, word),
    }
}

// Whether the settings are replaced alone, and values are those of a source.
pub(crate) fn are_edit_words(table: &TableWords, how: HowWords) -> bool
    ensures { result ≡ are_edit_words table.now how }
{
    match table {
        TableWords::Settings => matches!(how, HowWords::Replace),
        TableWords::Values { source } => is_source_name(source.as_str()),
        _ => true,
    }
}
