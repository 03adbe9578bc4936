ghost use Rattle.std.specs.Prelude.{◌≡◌, IfOk};

use crate::numbers::Value;
use crate::text::Text;
use std::alloc::{AllocError, Global};
use std::marker::Model;

/// Where a source has its values: in a table of its own, or in the words of the bids.
#[derive(Clone, Copy, PartialEq, Eq, Debug)]
pub enum Kind {
    Values,
    Bids,
}

/// A source of the score: a name, a kind, a weight in hundredths from -10,000 to 10,000, and the value of a pair that
/// has none.
#[derive(Drop)]
pub struct SourceSpec {
    name: Text,
    kind: Kind,
    weight: i32,
    default: Value,
}

impl Model for SourceSpec {
    ghost use Rattle.score_spec.specs.Sources.{SourceValue, IsWeight};

    ghost Value = { SourceValue };

    ghost view = { λ s. record { name = s.name; kind = s.kind; weight = s.weight; default = s.default } };

    ghost invariant = { λ s. IsWeight s.weight };
}

impl SourceSpec {
    ghost use Rattle.std.specs.Prelude.{◌≡◌, IfSome, IsNone, ◌↔◌, IfOk};
    ghost use Rattle.score_spec.specs.Sources.{IsWeight, SourceValue};

    /// A source, where the weight is one.
    pub fn new(name: Text, kind: Kind, weight: i32, default: Value) -> Option<SourceSpec>
        ensures same { IfSome result (λ s. s ≡ (record { name = name; kind = kind; weight = weight; default = default })) }
        ensures good { IfSome result (λ _. IsWeight weight) }
        ensures none { IsNone result → ¬ IsWeight weight }
    {
        if weight < -10_000 {
            return None;
        }
        if weight > 10_000 {
            return None;
        }
        Some(SourceSpec {
            name,
            kind,
            weight,
            default,
        })
    }

    /// The name of the source.
    pub fn name(&self) -> &str
        ensures { result.now ≡ self.now.name }
    {
        self.name.as_str()
    }

    /// The kind of the source.
    pub fn kind(&self) -> Kind
        ensures { result ≡ self.now.kind }
    {
        self.kind
    }

    /// The weight in hundredths.
    pub fn weight(&self) -> i32
        ensures same { result ≡ self.now.weight }
        ensures range { IsWeight result }
    {
        self.weight
    }

    /// The value of a pair that has none.
    pub fn default(&self) -> Value
        ensures { result ≡ self.now.default }
    {
        self.default
    }

    /// An equal source.
    pub fn copy(&self, alloc: Global) -> Result<Self, AllocError>
        ensures { IfOk result (λ copy. copy ≡ self.now) }
    {
        let name = self.name.copy(alloc)?;
        Ok(SourceSpec {
            name,
            kind: self.kind,
            weight: self.weight,
            default: self.default,
        })
    }
}

/// A word that a bid may be, and its value.
#[derive(Drop)]
pub struct BidWord {
    pub word: Text,
    pub value: Value,
}

impl BidWord {
    ghost use Rattle.std.specs.Prelude.{◌≡◌, IfOk};

    /// An equal word.
    pub fn copy(&self, alloc: Global) -> Result<Self, AllocError>
        ensures { IfOk result (λ copy. copy ≡ self.now) }
    {
        let word = self.word.copy(alloc)?;
        Ok(BidWord {
            word,
            value: self.value,
        })
    }
}

/// The sources of a score, in their order.
#[derive(Drop)]
pub struct Sources {
    items: Vec<SourceSpec>,
}

impl Model for Sources {
    ghost use Rattle.std.specs.Prelude.{List};
    ghost use Rattle.score_spec.specs.Sources.{SourceValue};

    ghost Value = { List SourceValue };

    ghost view = { λ s. s.items.items };
}

impl Sources {
    ghost use Rattle.std.specs.Prelude.{◌≡◌, ◌&&◌, IfOk};
    ghost use Rattle.std.specs.Ordering.{is_eq};
    ghost use Rattle.roster.specs.Table.{id_cmp};
    ghost use Rattle.score_spec.specs.Scores.{has_values, is_values};

    /// The sources of a vector, without taking memory.
    pub fn from_vec(items: Vec<SourceSpec>) -> Self
        ensures { result ≡ items.items }
    {
        Sources { items }
    }

    /// The vector of these sources, without taking memory.
    pub fn into_vec(self) -> Vec<SourceSpec>
        ensures { result.items ≡ self }
    {
        self.items
    }

    /// Whether a source of values has the name.
    pub fn has_values(&self, name: &str) -> bool
        ensures { result ≡ has_values self.now name.now }
    {
        self.items.iter().any(
            |source| -> bool
                ensures { result ≡ (is_values source.now.kind && is_eq (id_cmp source.now.name name.entry.now)) }
            { source.kind() == Kind::Values && source.name().cmp(name).is_eq() },
        )
    }

    /// The sources as a slice.
    pub fn as_slice(&self) -> &[SourceSpec]
        ensures { result.now ≡ self.now }
    {
        self.items.as_slice()
    }

    /// Equal sources.
    pub fn copy(&self, alloc: Global) -> Result<Self, AllocError>
        ensures { IfOk result (λ copy. copy ≡ self.now) }
    {
        let mut items = Vec::new(alloc);
        for source in self.items.iter() {
            items.push(source.copy(alloc)?)?;
        }
        Ok(Sources { items })
    }
}

/// The words of bids, in the order of their bytes.
#[derive(Drop)]
pub struct Words {
    items: Vec<BidWord>,
}

impl Model for Words {
    ghost use Rattle.std.specs.Prelude.{List};
    ghost use Rattle.score_spec.specs.declared.spec.BidWord.{BidWord};

    ghost Value = { List BidWord };

    ghost view = { λ w. w.items.items };
}

impl Words {
    /// The words of a vector, without taking memory.
    pub fn from_vec(items: Vec<BidWord>) -> Self
        ensures { result ≡ items.items }
    {
        Words { items }
    }

    /// The vector of these words, without taking memory.
    pub fn into_vec(self) -> Vec<BidWord>
        ensures { result.items ≡ self }
    {
        self.items
    }

    /// The words as a slice.
    pub fn as_slice(&self) -> &[BidWord]
        ensures { result.now ≡ self.now }
    {
        self.items.as_slice()
    }

    /// Equal words.
    pub fn copy(&self, alloc: Global) -> Result<Self, AllocError>
        ensures { IfOk result (λ copy. copy ≡ self.now) }
    {
        let mut items = Vec::new(alloc);
        for word in self.items.iter() {
            items.push(word.copy(alloc)?)?;
        }
        Ok(Words { items })
    }
}

/// How scores are made: the sources, and the values of the bid words.
#[derive(Drop)]
pub struct Spec {
    pub sources: Sources,
    pub words: Words,
}

impl Spec {
    ghost use Rattle.std.specs.Prelude.{◌≡◌, IfOk};

    /// An equal spec.
    pub fn copy(&self, alloc: Global) -> Result<Self, AllocError>
        ensures { IfOk result (λ copy. copy ≡ self.now) }
    {
        let sources = self.sources.copy(alloc)?;
        let words = self.words.copy(alloc)?;
        Ok(Spec { sources, words })
    }
}
