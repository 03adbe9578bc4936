// What stands at the keys of a document of settings.

ghost use Rattle.std.specs.Prelude.{◌≡◌, ◌≤◌, ◌≤ℤ◌, IfSome, IfOk, pos, ok_or, option_map, option_and_then};
ghost use Rattle.roster.specs.Loads.{load_from};
ghost use Rattle.toml.specs.Data.{get_member, as_str};
ghost use Rattle.toml.specs.View.{view, table_view};
ghost use Rattle.bid_import.specs.Documents.{ReadsTable};
ghost use Rattle.bid_import.specs.Settings.{number_in, number_from, text_value, limit_setting, cap_in, cap_setting, pairs_word, pairs_setting, demand_setting, least_setting, load_with, load_above, load_setting};

use crate::fault::Key;
use crate::settings::MOST_LIMIT;
use roster::{Load, MOST_LOAD};
use score_spec::{Value, read_value};
use std::alloc::{AllocError, AllocFailed, Global};
use std::str;
use toml::Table;

/// Why bytes gave no table.
#[derive(Clone, Copy)]
pub(crate) enum TableFault {
    Memory,
    NotToml,
}

/// Why a table gave no settings.
#[derive(Clone, Copy)]
pub(crate) enum KeyFault {
    Memory,
    At(Key),
}

impl From<Key> for KeyFault {
    ghost use Rattle.std.specs.Prelude.{◌≡◌};
    ghost use Rattle.bid_import.specs.declared.document.KeyFault.TheVariants.{At};

    ghost from_gives = { λ key fault. fault ≡ At key };

    fn from(key: Key) -> KeyFault {
        KeyFault::At(key)
    }
}

impl From<AllocError> for KeyFault {
    ghost use Rattle.std.specs.Prelude.{◌≡◌};
    ghost use Rattle.bid_import.specs.declared.document.KeyFault.TheVariants.{Memory};

    ghost from_gives = { λ _ fault. fault ≡ Memory };

    fn from(_error: AllocError) -> KeyFault {
        KeyFault::Memory
    }
}

impl<T: Drop> From<AllocFailed<T>> for KeyFault {
    ghost use Rattle.std.specs.Prelude.{◌≡◌};
    ghost use Rattle.bid_import.specs.declared.document.KeyFault.TheVariants.{Memory};

    ghost from_gives = { λ _ fault. fault ≡ Memory };

    fn from(_error: AllocFailed<T>) -> KeyFault {
        KeyFault::Memory
    }
}

/// The table that a document in UTF-8 writes.
pub(crate) fn read_table(alloc: Global, bytes: &[u8]) -> Result<Table, TableFault>
    ensures { ReadsTable result bytes.now }
{
    let text = match str::from_utf8(bytes) {
        Ok(text) => text,
        Err(_) => return Err(TableFault::NotToml),
    };
    match toml::table_from_str(alloc, text) {
        Ok(table) => Ok(table),
        Err(error) => {
            if error.is_memory() {
                return Err(TableFault::Memory);
            }
            Err(TableFault::NotToml)
        }
    }
}

/// What stands at a key.
pub(crate) fn member<'a>(table: &'a Table, key: &str) -> Option<&'a toml::Value>
    ensures { option_map (λ v. view v.now) result ≡ get_member key.now (table_view table.now) }
{
    table.get(key)
}

// The number, where it is from low to high.
fn number_in(low: u32, high: u32, number: i64) -> Option<u32>
    ensures same { result ≡ number_in low high number }
    ensures low { IfSome result (λ n. low ≤ n) }
    ensures high { IfSome result (λ n. n ≤ high) }
{
    let count = match u32::try_from(number) {
        Ok(count) => count,
        Err(_) => return None,
    };
    if count < low {
        return None;
    }
    if count > high {
        return None;
    }
    Some(count)
}

fn number(low: u32, high: u32, node: &toml::Value) -> Option<u32>
    ensures same { result ≡ number_from low high (view node.now) }
    ensures low { IfSome result (λ n. low ≤ n) }
    ensures high { IfSome result (λ n. n ≤ high) }
{
    number_in(low, high, node.as_integer()?)
}

/// The value of a string that is a value text.
pub(crate) fn value(node: &toml::Value) -> Option<Value>
    ensures { result ≡ text_value (view node.now) }
{
    read_value(node.as_str()?).ok()
}

/// The limit of reviewers of a paper in one institution.
pub(crate) fn limit(table: &Table) -> Result<u32, Key>
    ensures same { result ≡ limit_setting (table_view table.now) }
    ensures low { IfOk result (λ n. 1 ≤ n) }
    ensures high { IfOk result (λ n. n ≤ MOST_LIMIT) }
{
    let Some(node) = member(table, "limit") else {
        return Ok(MOST_LIMIT);
    };
    number(1, MOST_LIMIT, node).ok_or(Key::Limit)
}

fn cap_in(value: Value) -> Option<Value>
    ensures same { result ≡ cap_in value }
    ensures low { IfSome result (λ v. pos 0 ≤ℤ v) }
    ensures high { IfSome result (λ v. v ≤ℤ pos 10000) }
{
    let tickets = value.tenthousandths();
    if tickets < 0 {
        return None;
    }
    if tickets > 10_000 {
        return None;
    }
    Some(value)
}

fn cap_of(node: &toml::Value) -> Option<Value>
    ensures same { result ≡ option_and_then cap_in (text_value (view node.now)) }
    ensures low { IfSome result (λ v. pos 0 ≤ℤ v) }
    ensures high { IfSome result (λ v. v ≤ℤ pos 10000) }
{
    cap_in(value(node)?)
}

/// The cap of a pair that has none of its own.
pub(crate) fn cap(table: &Table) -> Result<Value, Key>
    ensures same { result ≡ cap_setting (table_view table.now) }
    ensures low { IfOk result (λ v. pos 0 ≤ℤ v) }
    ensures high { IfOk result (λ v. v ≤ℤ pos 10000) }
{
    let Some(node) = member(table, "cap") else {
        return Ok(Value::from_tenthousandths(10_000));
    };
    cap_of(node).ok_or(Key::Cap)
}

fn pairs_word(text: &str) -> Option<bool>
    ensures { result ≡ pairs_word text.now }
{
    if text == "all" {
        return Some(true);
    }
    if text == "listed" {
        return Some(false);
    }
    None
}

fn pairs_of(node: &toml::Value) -> Option<bool>
    ensures { result ≡ option_and_then pairs_word (as_str (view node.now)) }
{
    pairs_word(node.as_str()?)
}

/// Whether all pairs are candidates.
pub(crate) fn all_pairs(table: &Table) -> Result<bool, Key>
    ensures { result ≡ pairs_setting (table_view table.now) }
{
    let Some(node) = member(table, "pairs") else {
        return Ok(false);
    };
    pairs_of(node).ok_or(Key::Pairs)
}

/// The demand of a paper that has none of its own.
pub(crate) fn demand(table: &Table) -> Result<u32, Key>
    ensures same { result ≡ demand_setting (table_view table.now) }
    ensures high { IfOk result (λ n. n ≤ 100) }
{
    let Some(node) = member(table, "demand") else {
        return Ok(3);
    };
    number(0, 100, node).ok_or(Key::Demand)
}

fn least(table: &Table) -> Result<u32, Key>
    ensures { result ≡ least_setting (table_view table.now) }
{
    let Some(node) = member(table, "least") else {
        return Ok(0);
    };
    number(0, MOST_LOAD, node).ok_or(Key::Least)
}

fn given_load(least: u32, node: &toml::Value) -> Option<Load>
    ensures { result ≡ option_and_then (load_from least) (number_from 0 MOST_LOAD (view node.now)) }
{
    Load::new(least, number(0, MOST_LOAD, node)?)
}

fn greatest_load(table: &Table, least: u32) -> Option<Load>
    ensures { ok_or result Key.Greatest ≡ load_above (table_view table.now) least }
{
    match member(table, "greatest") {
        Some(node) => given_load(least, node),
        None => Load::new(least, 6),
    }
}

/// The load of a reviewer that has none of its own.
pub(crate) fn load(table: &Table) -> Result<Load, Key>
    ensures { result ≡ load_setting (table_view table.now) }
{
    greatest_load(table, least(table)?).ok_or(Key::Greatest)
}
