// The sources of a document of settings.

ghost use Rattle.std.specs.Prelude.{◌≡◌, ◌≤◌, pos, [], ◌∷◌, codes, length, map, ok_or, option_map, option_and_then, IfOk};
ghost use Rattle.std.specs.List.{list_all, list_any};
ghost use Rattle.std.specs.Str.{bytes_eq};
ghost use Rattle.toml.specs.Data.{get_member, as_table};
ghost use Rattle.toml.specs.View.{view, table_view};
ghost use Rattle.score_spec.specs.Sources.{SourceValue, IsWeight};
ghost use Rattle.bid_import.specs.Documents.{ReadsKey, ReadsItems};
ghost use Rattle.bid_import.specs.Settings.{is_name_byte, is_source_name, name_from, kind_word, kind_from, weight_in, weight_from, text_value, optional, source_from, are_distinct, HasDistinctNames, sources_in, sources_from, sources_setting, affinity, each};

use crate::document::{KeyFault, member, value};
use crate::fault::Key;
use score_spec::{Kind, SourceSpec, Sources, Text, Value};
use std::alloc::{AllocError, Global};
use toml::Table;

fn is_name_byte(byte: u8) -> bool
    ensures { result ≡ is_name_byte byte }
{
    byte.is_ascii_lowercase() || byte.is_ascii_digit() || byte == b'_' || byte == b'-'
}

fn all_name_bytes(bytes: &[u8]) -> bool
    ensures { result ≡ list_all is_name_byte bytes.now }
{
    bytes.iter().all(|b| is_name_byte(*b))
}

fn is_source_name(text: &str) -> bool
    ensures { result ≡ is_source_name text.now }
{
    if text.is_empty() {
        return false;
    }
    if text.len() > 32 {
        return false;
    }
    all_name_bytes(text.as_bytes())
}

fn name_of(node: &toml::Value) -> Option<&str>
    ensures { option_map (λ t. t.now) result ≡ name_from (view node.now) }
{
    let text = node.as_str()?;
    if is_source_name(text) {
        return Some(text);
    }
    None
}

fn name(table: &Table) -> Option<&str>
    ensures { option_map (λ t. t.now) result ≡ option_and_then name_from (get_member (codes "name") (table_view table.now)) }
{
    name_of(member(table, "name")?)
}

fn kind_word(text: &str) -> Option<Kind>
    ensures { result ≡ kind_word text.now }
{
    if text == "values" {
        return Some(Kind::Values);
    }
    if text == "bids" {
        return Some(Kind::Bids);
    }
    None
}

fn kind_of(node: &toml::Value) -> Option<Kind>
    ensures { result ≡ kind_from (view node.now) }
{
    kind_word(node.as_str()?)
}

fn kind(table: &Table) -> Option<Kind>
    ensures { result ≡ option_and_then kind_from (get_member (codes "kind") (table_view table.now)) }
{
    kind_of(member(table, "kind")?)
}

fn weight_in(number: i64) -> Option<i32>
    ensures { result ≡ weight_in number }
{
    if number < -10_000 {
        return None;
    }
    if number > 10_000 {
        return None;
    }
    Some(number as i32)
}

fn weight_of(node: &toml::Value) -> Option<i32>
    ensures { result ≡ weight_from (view node.now) }
{
    weight_in(node.as_integer()?)
}

fn weight(table: &Table) -> Option<i32>
    ensures { result ≡ optional (pos 100) weight_from (get_member (codes "weight") (table_view table.now)) }
{
    match member(table, "weight") {
        Some(node) => weight_of(node),
        None => Some(100),
    }
}

fn default(table: &Table) -> Option<Value>
    ensures { result ≡ optional (pos 0) text_value (get_member (codes "default") (table_view table.now)) }
{
    match member(table, "default") {
        Some(node) => value(node),
        None => Some(Value::from_tenthousandths(0)),
    }
}

// A source of good parts.
fn source_with(
    alloc: Global,
    name: &str,
    kind: Kind,
    weight: i32,
    default: Value,
) -> Result<SourceSpec, AllocError>
    requires { IsWeight weight }
    ensures { IfOk result (λ s. s ≡ (record { name = name.now; kind = kind; weight = weight; default = default })) }
{
    let name = Text::read(alloc, name)?;
    match SourceSpec::new(name, kind, weight, default) {
        Some(source) => Ok(source),
        None => unreachable!(),
    }
}

fn source(alloc: Global, table: &Table) -> Result<SourceSpec, KeyFault>
    ensures { ReadsKey result (ok_or (source_from (table_view table.now)) Key.Source) }
{
    let name = name(table).ok_or(Key::Source)?;
    let kind = kind(table).ok_or(Key::Source)?;
    let weight = weight(table).ok_or(Key::Source)?;
    let default = default(table).ok_or(Key::Source)?;
    Ok(source_with(alloc, name, kind, weight, default)?)
}

fn source_of(alloc: Global, node: &toml::Value) -> Result<SourceSpec, KeyFault>
    ensures { ReadsKey result (ok_or (option_and_then source_from (as_table (view node.now))) Key.Source) }
{
    source(alloc, node.as_table().ok_or(Key::Source)?)
}

fn all_sources(alloc: Global, nodes: &[toml::Value]) -> Result<Vec<SourceSpec>, KeyFault>
    ensures { ReadsItems result (ok_or (each (λ d. option_and_then source_from (as_table d)) (map view nodes.now)) Key.Source) }
{
    let mut sources = Vec::new(alloc);
    for node in nodes {
        sources.push(source_of(alloc, node)?)?;
    }
    Ok(sources)
}

// Whether one of the sources has this name.
fn has_named(sources: &[SourceSpec], name: &str) -> bool
    ensures { result ≡ list_any (λ (s : SourceValue). bytes_eq s.name name.now) sources.now }
{
    for source in sources {
        if source.name() == name {
            return true;
        }
    }
    false
}

fn are_distinct(sources: &[SourceSpec]) -> bool
    ensures { result ≡ are_distinct (map (λ (s : SourceValue). s.name) sources.now) }
{
    for (place, source) in sources.iter().enumerate() {
        if has_named(&sources[place + 1..], source.name()) {
            return false;
        }
    }
    true
}

fn sources_in(alloc: Global, nodes: &[toml::Value]) -> Result<Sources, KeyFault>
    ensures same { ReadsKey result (ok_or (sources_in (map view nodes.now)) Key.Source) }
    ensures few { IfOk result (λ sources. length sources ≤ 8) }
    ensures names { IfOk result HasDistinctNames }
{
    if nodes.len() > 8 {
        return Err(KeyFault::At(Key::Source));
    }
    let sources = all_sources(alloc, nodes)?;
    if !are_distinct(sources.as_slice()) {
        return Err(KeyFault::At(Key::Source));
    }
    Ok(Sources::from_vec(sources))
}

fn sources_of(alloc: Global, node: &toml::Value) -> Result<Sources, KeyFault>
    ensures same { ReadsKey result (ok_or (sources_from (view node.now)) Key.Source) }
    ensures few { IfOk result (λ sources. length sources ≤ 8) }
    ensures names { IfOk result HasDistinctNames }
{
    let nodes = node.as_array().ok_or(Key::Source)?;
    sources_in(alloc, nodes.as_slice())
}

/// The one source of settings that name none.
pub(crate) fn default_sources(alloc: Global) -> Result<Sources, AllocError>
    ensures { IfOk result (λ sources. sources ≡ affinity ∷ []) }
{
    let source = source_with(
        alloc,
        "affinity",
        Kind::Values,
        100,
        Value::from_tenthousandths(0),
    )?;
    let mut sources = Vec::new(alloc);
    sources.push(source)?;
    Ok(Sources::from_vec(sources))
}

/// The sources.
pub(crate) fn sources(alloc: Global, table: &Table) -> Result<Sources, KeyFault>
    ensures same { ReadsKey result (sources_setting (table_view table.now)) }
    ensures few { IfOk result (λ sources. length sources ≤ 8) }
    ensures names { IfOk result HasDistinctNames }
{
    match member(table, "source") {
        Some(node) => sources_of(alloc, node),
        None => Ok(default_sources(alloc)?),
    }
}
