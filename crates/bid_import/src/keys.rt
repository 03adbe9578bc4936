// The keys that settings and their sources may have.

ghost use Rattle.std.specs.Prelude.{◌≡◌, true, map};
ghost use Rattle.std.specs.Option.{option_map_or};
ghost use Rattle.std.specs.List.{list_any, list_all};
ghost use Rattle.std.specs.Str.{bytes_eq};
ghost use Rattle.toml.specs.Data.{as_table};
ghost use Rattle.toml.specs.View.{view, table_view};
ghost use Rattle.bid_import.specs.Settings.{knows, source_keys, knows_sources, knows_all};

use crate::document::member;
use toml::Table;

fn is_known(keys: &[&str], key: &str) -> bool
    ensures { result ≡ list_any (λ known. bytes_eq known.now key.now) keys.now }
{
    for known in keys {
        if *known == key {
            return true;
        }
    }
    false
}

fn knows(keys: &[&str], table: &Table) -> bool
    ensures { result ≡ knows (map (λ known. known.now) keys.now) (table_view table.now) }
{
    for (key, _node) in table.iter() {
        if !is_known(keys, key.as_str()) {
            return false;
        }
    }
    true
}

fn knows_source(node: &toml::Value) -> bool
    ensures { result ≡ option_map_or (knows source_keys) (as_table (view node.now)) true }
{
    match node.as_table() {
        Some(table) => knows(&["name", "kind", "weight", "default"], table),
        None => true,
    }
}

fn knows_each(nodes: &[toml::Value]) -> bool
    ensures { result ≡ list_all (λ d. option_map_or (knows source_keys) (as_table d) true) (map view nodes.now) }
{
    for node in nodes {
        if !knows_source(node) {
            return false;
        }
    }
    true
}

fn knows_sources(node: &toml::Value) -> bool
    ensures { result ≡ knows_sources (view node.now) }
{
    match node.as_array() {
        Some(nodes) => knows_each(nodes.as_slice()),
        None => true,
    }
}

/// Whether each key is one that settings have, also inside a source.
pub(crate) fn knows_all(table: &Table) -> bool
    ensures { result ≡ knows_all (table_view table.now) }
{
    let keys = [
        "limit", "cap", "pairs", "demand", "least", "greatest", "source", "bids",
    ];
    if !knows(&keys, table) {
        return false;
    }
    match member(table, "source") {
        Some(node) => knows_sources(node),
        None => true,
    }
}
