ghost use Rattle.std.specs.Prelude.{◌≡◌, ◌↔◌, ◌≢◌, ◌≤◌, [], ℕ, List, Some, Err, IsSome, IsOk, IfOk, OnOk, OnErr, if◌then◌else◌, filter, string_bytes};
ghost use Rattle.std.specs.Option.{option_copied};
ghost use Rattle.score_spec.specs.Scores.{has_values, table_in};
ghost use Rattle.score_spec.specs.PairTables.{HasNoRoom, OthersStay, pair_count, put_pair, put_value, value_of, value_of_pair};

use crate::by_id::{ById, TableValue};
use crate::numbers::Value;
use crate::pairs::{MOST_PAIR_ROWS, PairTable, ScoresFault};
use crate::spec::{Sources, Spec};
use crate::text::Text;
use crate::union::{PairKey, keys_of, union_of};
use match_rules::{PaperId, ReviewerId};
use std::alloc::{AllocError, Global};
use std::marker::Model;

// Puts the table of a source.
fn put_table(
    alloc: Global,
    tables: &mut ById<PairTable<Value>>,
    source: &str,
    table: PairTable<Value>,
) -> Result<(), AllocError>
    ensures put { OnOk result (tables.new ≡ put_value source.now table tables.old) }
    ensures kept { OnErr result (tables.new ≡ tables.old) }
{
    let name = String::from_str(alloc, source)?;
    tables.put(name, table)?;
    Ok(())
}

// Puts a value into the table of a source.
fn put_into_source(
    alloc: Global,
    tables: &mut ById<PairTable<Value>>,
    source: &str,
    paper: PaperId,
    reviewer: ReviewerId,
    value: Value,
) -> Result<(), ScoresFault>
    ensures put { OnOk result (tables.new ≡ put_value source.now (put_pair paper reviewer value (table_in tables.old source.now)) tables.old) }
    ensures full { (result ≡ Err ScoresFault.TooMany) ↔ HasNoRoom (table_in tables.old source.now) paper reviewer }
    ensures known { IsSome (value_of_pair (table_in tables.old source.now) paper reviewer) → IsOk result }
    ensures kept { OnErr result (tables.new ≡ tables.old) }
    ensures few { pair_count (table_in tables.old source.now) ≤ MOST_PAIR_ROWS }
{
    if let Some(table) = tables.get_mut(source) {
        return table.put(paper, reviewer, value);
    }
    let mut table = PairTable::new(alloc);
    table.put(paper, reviewer, value)?;
    match put_table(alloc, tables, source, table) {
        Ok(()) => Ok(()),
        Err(_) => Err(ScoresFault::Memory),
    }
}

// Keeps the tables of these sources of values alone.
fn keep_tables(tables: &mut ById<PairTable<Value>>, sources: &Sources)
    ensures { tables.new ≡ filter (λ entry. has_values sources.now entry.id) tables.old }
{
    tables.map.retain(
        |id, table| -> bool
            ensures keeps { result ≡ has_values sources.entry.now (string_bytes id.now) }
            ensures same { table.new ≡ table.old }
        { sources.has_values(id.as_str()) },
    );
}

/// The values and bids of a conference: a table of values for each source that has one, and the bids' words.
#[derive(Drop)]
pub struct Scores {
    alloc: Global,
    values: ById<PairTable<Value>>,
    bids: PairTable<Text>,
}

impl Model for Scores {
    ghost use Rattle.score_spec.specs.Scores.{ScoresValue};

    ghost Value = { ScoresValue };

    ghost view = { λ s. record { values = s.values; bids = s.bids } };
}

impl Scores {
    ghost use Rattle.score_spec.specs.Keys.{AreKeys, AscendKeys};
    ghost use Rattle.score_spec.specs.Scores.{OtherValuesStay, has_row, no_scores, of_sources, table_of, with_bid, with_value, without_values};

    /// No values and no bids. Takes no memory.
    pub fn new(alloc: Global) -> Self
        ensures { result ≡ no_scores }
    {
        Scores {
            alloc,
            values: ById::new(alloc),
            bids: PairTable::new(alloc),
        }
    }

    /// The table of a source's values, where there is one.
    pub fn values(&self, source: &str) -> Option<&PairTable<Value>>
        ensures { option_copied result ≡ value_of self.now.values source.now }
    {
        self.values.get(source)
    }

    /// The tables of values, by the names of their sources.
    pub fn tables(&self) -> &ById<PairTable<Value>>
        ensures { result.now ≡ self.now.values }
    {
        &self.values
    }

    /// The words that were bid.
    pub fn bids(&self) -> &PairTable<Text>
        ensures { result.now ≡ self.now.bids }
    {
        &self.bids
    }

    /// Puts the value of a pair by a source, in place of the one that it had.
    pub fn put_value(
        &mut self,
        source: &str,
        paper: PaperId,
        reviewer: ReviewerId,
        value: Value,
    ) -> Result<(), ScoresFault>
        ensures put { OnOk result (self.new ≡ with_value source.now paper reviewer value self.old) }
        ensures stands { OnOk result (value_of_pair (table_of self.new source.now) paper reviewer ≡ Some value) }
        ensures others { OnOk result (OtherValuesStay self.old self.new source.now paper reviewer) }
        ensures bids { self.new.bids ≡ self.old.bids }
        ensures full { (result ≡ Err ScoresFault.TooMany) ↔ HasNoRoom (table_of self.old source.now) paper reviewer }
        ensures known { IsSome (value_of_pair (table_of self.old source.now) paper reviewer) → IsOk result }
        ensures kept { OnErr result (self.new ≡ self.old) }
        ensures few { pair_count (table_of self.old source.now) ≤ MOST_PAIR_ROWS }
    {
        put_into_source(self.alloc, &mut self.values, source, paper, reviewer, value)
    }

    /// Puts the word that was bid for a pair, in place of the one that it had. A word is a `Text` and no `String`, so
    /// that the contracts of the table see its bytes.
    pub fn put_bid(
        &mut self,
        paper: PaperId,
        reviewer: ReviewerId,
        word: Text,
    ) -> Result<(), ScoresFault>
        ensures put { OnOk result (self.new ≡ with_bid paper reviewer word self.old) }
        ensures stands { OnOk result (value_of_pair self.new.bids paper reviewer ≡ Some word) }
        ensures others { OnOk result (OthersStay self.old.bids self.new.bids paper reviewer) }
        ensures values { self.new.values ≡ self.old.values }
        ensures full { (result ≡ Err ScoresFault.TooMany) ↔ HasNoRoom self.old.bids paper reviewer }
        ensures known { IsSome (value_of_pair self.old.bids paper reviewer) → IsOk result }
        ensures kept { OnErr result (self.new ≡ self.old) }
        ensures few { pair_count self.old.bids ≤ MOST_PAIR_ROWS }
    {
        self.bids.put(paper, reviewer, word)
    }

    /// Drops the table of a source's values. Takes no memory.
    pub fn clear_values(&mut self, source: &str)
        ensures cleared { self.new ≡ without_values source.now self.old }
        ensures none { table_of self.new source.now ≡ [] }
        ensures others { (name : List ℕ) → name ≢ source.now → table_of self.new name ≡ table_of self.old name }
        ensures bids { self.new.bids ≡ self.old.bids }
    {
        self.values.remove(source);
    }

    /// Drops the bids. Takes no memory.
    pub fn clear_bids(&mut self)
        ensures none { self.new.bids ≡ [] }
        ensures values { self.new.values ≡ self.old.values }
    {
        self.bids = PairTable::new(self.alloc);
    }

    /// Drops the tables of values but those of the spec's sources of values. Takes no memory.
    pub fn keep_sources(&mut self, spec: &Spec)
        ensures kept { self.new ≡ of_sources spec.now.sources self.old }
        ensures tables { (name : List ℕ) → table_of self.new name ≡ (if has_values spec.now.sources name then table_of self.old name else []) }
        ensures bids { self.new.bids ≡ self.old.bids }
    {
        keep_tables(&mut self.values, &spec.sources);
    }

    /// The pairs that have a value by some source or a bid, by paper and then by reviewer.
    pub fn pairs(&self) -> Result<Vec<PairKey>, AllocError>
        ensures ascend { IfOk result (λ keys. AscendKeys keys.items) }
        ensures rows { IfOk result (λ keys. AreKeys (has_row self.now) keys.items) }
    {
        let union = union_of(self.alloc, &self.values, &self.bids)?;
        keys_of(self.alloc, &union)
    }

    /// Equal values and bids.
    pub fn copy(&self, alloc: Global) -> Result<Self, AllocError>
        ensures { IfOk result (λ copy. copy ≡ self.now) }
    {
        let values = self.values.copy(alloc)?;
        let bids = self.bids.copy(alloc)?;
        Ok(Scores {
            alloc,
            values,
            bids,
        })
    }
}
