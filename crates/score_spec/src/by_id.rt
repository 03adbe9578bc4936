ghost use Rattle.std.specs.Prelude.{◌≡◌, ◌==◌, ◌↔◌, ◌<◌, ℕ, List, [], length, None, is_some, IsSome, IsTrue, IsOk, if◌then◌else◌, IfOk, OnOk, OnErr};
ghost use Rattle.std.specs.Borrow.{sem};
ghost use Rattle.std.specs.Option.{option_copied, option_copied_mut};
ghost use Rattle.std.specs.String.{string_bytes};
ghost use Rattle.score_spec.specs.PairTables.{IsLast, entry_id, has_pair, put_pair, put_value, value_of_pair, value_of, without};
ghost use Rattle.roster.specs.Table.{Ascend};
ghost use Rattle.score_spec.specs.TextMaps.{entries_of};

use crate::numbers::Value;
use crate::text::Text;
use std::alloc::{AllocError, Global};
use std::collections::BTreeMap;
use std::collections::btree_map::Iter;
use std::marker::Model;

/// What a table keeps.
pub trait TableValue: Drop {
    /// An equal value.
    fn copy(&self, alloc: Global) -> Result<Self, AllocError>
        ensures { IfOk result (λ copy. copy ≡ self.now) };
}

impl TableValue for i32 {
    fn copy(&self, _alloc: Global) -> Result<Self, AllocError> {
        Ok(*self)
    }
}

impl TableValue for Value {
    fn copy(&self, _alloc: Global) -> Result<Self, AllocError> {
        Ok(*self)
    }
}

impl TableValue for Text {
    fn copy(&self, alloc: Global) -> Result<Self, AllocError> {
        self.copy(alloc)
    }
}

/// Values by ids, in the order of the ids' bytes.
#[derive(Drop)]
pub struct ById<V> {
    pub(crate) map: BTreeMap<String, V>,
}

impl<V> Model for ById<V> {
    ghost use Rattle.score_spec.specs.PairTables.{Entries};
    ghost use Rattle.score_spec.specs.TextMaps.{entries_of};

    ghost Value = { Entries V };

    ghost view = { λ m. entries_of m.map.entries };
}

impl<V> ById<V> {
    ghost use Rattle.score_spec.specs.Lending.{PutsThrough};

    /// No values. Takes no memory.
    pub fn new(alloc: Global) -> Self
        ensures { result ≡ [] }
    {
        ById {
            map: BTreeMap::new(alloc),
        }
    }

    /// The number of values.
    pub fn len(&self) -> usize
        ensures { result ≡ length self.now }
    {
        self.map.len()
    }

    /// Whether there are none.
    pub fn is_empty(&self) -> bool
        ensures { result ≡ (length self.now == 0) }
    {
        self.map.is_empty()
    }

    /// The value of an id, in logarithmic time and without memory.
    pub fn get(&self, id: &str) -> Option<&V>
        ensures { option_copied result ≡ value_of self.now id.now }
    {
        self.map.get(id)
    }

    /// The ids with their values, in order and without memory.
    pub fn iter(&self) -> Iter<'_, String, V>
        ensures same { entries_of result ≡ self.now }
        ensures ascend { Ascend entry_id self.now }
    {
        self.map.iter()
    }

    /// The place of an id's value, in logarithmic time and without memory.
    pub(crate) fn get_mut(&mut self, id: &str) -> Option<&mut V>
        ensures* writes_back { sem 𝓛 (PutsThrough V.row self.entry id.now result) }
        ensures value { option_copied_mut result ≡ value_of self.old id.now }
        ensures ascend { Ascend entry_id self.old }
    {
        self.map.get_mut(id)
    }

    // Whether the id is the last one, by one comparison.
    pub(crate) fn is_last(&self, id: &str) -> bool
        ensures { IsTrue result ↔ IsLast id.now self.now }
    {
        match self.map.last_key_value() {
            Some((last, _)) => last.as_str() == id,
            None => false,
        }
    }

    /// Puts a value for an id, in place of the one that it had, and answers how many ids were added: in logarithmic
    /// time, and with memory only where the id is new.
    pub(crate) fn put(&mut self, id: String, value: V) -> Result<u32, AllocError>
    where
        V: Drop,
        ensures put { OnOk result (self.new ≡ put_value (string_bytes id) value self.old) }
        ensures more { IfOk result (λ more. more ≡ (if is_some (value_of self.old (string_bytes id)) then 0 else 1)) }
        ensures known { IsSome (value_of self.old (string_bytes id)) → IsOk result }
        ensures kept { OnErr result (self.new ≡ self.old) }
    {
        match self.map.insert(id, value) {
            Ok(Some(_)) => Ok(0),
            Ok(None) => Ok(1),
            Err(_) => Err(AllocError),
        }
    }

    /// Drops the value of an id. Takes no memory.
    pub(crate) fn remove(&mut self, id: &str)
    where
        V: Drop,
        ensures removed { self.new ≡ without id.now self.old }
        ensures none { value_of self.new id.now ≡ None }
    {
        self.map.remove(id);
    }
}

impl<V> ById<ById<V>> {
    /// Puts a value for an id into the last table, which is found without a comparison, and answers how many ids were
    /// added to it.
    pub(crate) fn put_in_last(&mut self, id: String, value: V) -> Result<u32, AllocError>
    where
        V: Drop,
        requires { 0 < length self.old }
        ensures put { (last : List ℕ) → IsLast last self.old → OnOk result (self.new ≡ put_pair last (string_bytes id) value self.old) }
        ensures more { (last : List ℕ) → IsLast last self.old → IfOk result (λ more. more ≡ (if has_pair self.old last (string_bytes id) then 0 else 1)) }
        ensures known { (last : List ℕ) → IsLast last self.old → IsSome (value_of_pair self.old last (string_bytes id)) → IsOk result }
        ensures kept { OnErr result (self.new ≡ self.old) }
    {
        match self.map.last_entry() {
            Some(entry) => entry.into_mut().put(id, value),
            None => unreachable!(),
        }
    }
}

impl<V: TableValue> ById<V> {
    // Puts an equal value for an id.
    fn put_copy(&mut self, alloc: Global, id: &str, value: &V) -> Result<(), AllocError>
        ensures { OnOk result (self.new ≡ put_value id.now value.now self.old) }
    {
        let value = value.copy(alloc)?;
        let id = String::from_str(alloc, id)?;
        self.put(id, value)?;
        Ok(())
    }
}

impl<V: TableValue> TableValue for ById<V> {
    fn copy(&self, alloc: Global) -> Result<Self, AllocError> {
        let mut copy = ById::new(alloc);
        for (id, value) in self.iter() {
            copy.put_copy(alloc, id.as_str(), value)?;
        }
        Ok(copy)
    }
}
