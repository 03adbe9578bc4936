ghost use Rattle.std.specs.Prelude.{◌≡◌, ◌≤◌, length, IfOk};
ghost use Rattle.toml.specs.View.{table_view};
ghost use Rattle.bid_import.specs.Documents.{ReadsKey};
ghost use Rattle.bid_import.specs.Settings.{HasDistinctNames, AscendInBytes, settings_of, settings_of_file, spec_setting, default_settings, ImportsSettings};

use crate::document::{self, KeyFault, TableFault, read_table};
use crate::fault::{Code, ImportFault, Key};
use crate::keys::knows_all;
use crate::sources::{default_sources, sources};
use crate::words::{default_words, words};
use roster::Load;
use score_spec::{Spec, Value};
use std::alloc::{AllocError, Global};
use std::marker::Model;
use toml::Table;

/// The greatest limit of reviewers that a paper may have of one institution.
pub const MOST_LIMIT: u32 = 1_500;

/// The settings of a venue.
#[derive(Drop)]
pub struct Settings {
    limit: u32,
    cap: Value,
    all_pairs: bool,
    demand: u32,
    load: Load,
    spec: Spec,
}

impl Model for Settings {
    ghost use Rattle.bid_import.specs.Settings.{SettingsValue, IsSettings};

    ghost Value = { SettingsValue };

    ghost view = { λ s. record { limit = s.limit; cap = s.cap; all_pairs = s.all_pairs; demand = s.demand; load = s.load; spec = s.spec } };

    ghost invariant = { λ s. IsSettings (record { limit = s.limit; cap = s.cap; all_pairs = s.all_pairs; demand = s.demand; load = s.load; spec = s.spec }) };
}

impl Settings {
    ghost use Rattle.std.specs.Prelude.{◌≡◌, ◌≤◌, ◌≤ℤ◌, pos, length, IfOk};
    ghost use Rattle.bid_import.specs.Settings.{default_settings, HasDistinctNames, AscendInBytes};

    /// The settings of a venue that has no file of them.
    pub fn standard(alloc: Global) -> Result<Settings, AllocError>
        ensures { IfOk result (λ settings. settings ≡ default_settings) }
    {
        let sources = default_sources(alloc)?;
        let words = default_words(alloc)?;
        Ok(Settings {
            limit: MOST_LIMIT,
            cap: Value::from_tenthousandths(10_000),
            all_pairs: false,
            demand: 3,
            load: default_load(),
            spec: Spec { sources, words },
        })
    }

    /// The most reviewers that a paper may have of one institution.
    pub fn limit(&self) -> u32
        ensures same { result ≡ self.now.limit }
        ensures low { 1 ≤ result }
        ensures high { result ≤ MOST_LIMIT }
    {
        self.limit
    }

    /// The cap of a pair that has none of its own, from 0 to 1. Its ten-thousandths are tickets.
    pub fn cap(&self) -> Value
        ensures same { result ≡ self.now.cap }
        ensures low { pos 0 ≤ℤ result }
        ensures high { result ≤ℤ pos 10000 }
    {
        self.cap
    }

    /// Whether all pairs are candidates, and not those alone that a table lists.
    pub fn all_pairs(&self) -> bool
        ensures { result ≡ self.now.all_pairs }
    {
        self.all_pairs
    }

    /// The demand of a paper that has none of its own.
    pub fn demand(&self) -> u32
        ensures same { result ≡ self.now.demand }
        ensures high { result ≤ 100 }
    {
        self.demand
    }

    /// The load of a reviewer who has none of their own.
    pub fn load(&self) -> Load
        ensures { result ≡ self.now.load }
    {
        self.load
    }

    /// How scores are made.
    pub fn spec(&self) -> &Spec
        ensures same { result.now ≡ self.now.spec }
        ensures few { length result.now.sources ≤ 8 }
        ensures names { HasDistinctNames result.now.sources }
        ensures order { AscendInBytes result.now.words }
    {
        &self.spec
    }

    /// Equal settings.
    pub fn copy(&self, alloc: Global) -> Result<Self, AllocError>
        ensures { IfOk result (λ copy. copy ≡ self.now) }
    {
        let spec = self.spec.copy(alloc)?;
        Ok(Settings {
            limit: self.limit,
            cap: self.cap,
            all_pairs: self.all_pairs,
            demand: self.demand,
            load: self.load,
            spec,
        })
    }
}

fn default_load() -> Load
    ensures { result ≡ default_settings.load }
{
    match Load::new(0, 6) {
        Some(load) => load,
        None => unreachable!(),
    }
}

fn spec(alloc: Global, table: &Table) -> Result<Spec, KeyFault>
    ensures same { ReadsKey result (spec_setting (table_view table.now)) }
    ensures few { IfOk result (λ spec. length spec.sources ≤ 8) }
    ensures names { IfOk result (λ spec. HasDistinctNames spec.sources) }
    ensures order { IfOk result (λ spec. AscendInBytes spec.words) }
{
    let sources = sources(alloc, table)?;
    let words = words(alloc, table)?;
    Ok(Spec { sources, words })
}

fn settings_in(alloc: Global, table: &Table) -> Result<Settings, KeyFault>
    ensures { ReadsKey result (settings_of (table_view table.now)) }
{
    if !knows_all(table) {
        return Err(KeyFault::At(Key::Unknown));
    }
    let limit = document::limit(table)?;
    let cap = document::cap(table)?;
    let all_pairs = document::all_pairs(table)?;
    let demand = document::demand(table)?;
    let load = document::load(table)?;
    let spec = spec(alloc, table)?;
    Ok(Settings {
        limit,
        cap,
        all_pairs,
        demand,
        load,
        spec,
    })
}

fn at_row_0(code: Code) -> ImportFault
    ensures { result ≡ ImportFault.Bad 0 code }
{
    ImportFault::Bad { row: 0, code }
}

/// Reads a file of settings: a TOML document in UTF-8. A fault has the row 0 and, where the document is one, the
/// first key at fault, in the order of the variants of `Key`.
#[tactic(auto, unfolding(crate::specs::Settings::settings_of_file))]
pub fn read_settings(alloc: Global, bytes: &[u8]) -> Result<Settings, ImportFault>
    ensures { ImportsSettings result (settings_of_file bytes.now) }
{
    let table = match read_table(alloc, bytes) {
        Ok(table) => table,
        Err(TableFault::Memory) => return Err(ImportFault::Memory),
        Err(TableFault::NotToml) => return Err(at_row_0(Code::NotToml)),
    };
    match settings_in(alloc, &table) {
        Ok(settings) => Ok(settings),
        Err(KeyFault::Memory) => Err(ImportFault::Memory),
        Err(KeyFault::At(key)) => Err(at_row_0(Code::BadSetting { key })),
    }
}
