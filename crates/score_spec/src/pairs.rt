ghost use Rattle.std.specs.Prelude.{◌≡◌, ◌==◌, ◌&&◌, not, ◌↔◌, ◌≤◌, [], Some, Err, if◌then◌else◌, IsSome, IsOk, IfOk, OnOk, OnErr};
ghost use Rattle.std.specs.Option.{option_copied};
ghost use Rattle.std.specs.String.{string_bytes};
ghost use Rattle.score_spec.specs.PairTables.{ArePairs, HasNoRoom, OthersStay, has_pair, pair_count, put_pair, value_of_pair};

use crate::by_id::{ById, TableValue};
use match_rules::{PaperId, ReviewerId};
use std::alloc::{AllocError, Global};
use std::marker::Model;

/// The most rows of a table of values, bids, marks or caps, each of which has a pair of its own.
pub const MOST_PAIR_ROWS: u32 = 250_000;

/// Why a row was not put.
#[derive(Clone, Copy, PartialEq, Eq, Debug)]
pub enum ScoresFault {
    /// So many rows are there that no new key has room.
    TooMany,
    /// Memory was wanting.
    Memory,
}

// Puts a value for a paper and a reviewer, and answers how many pairs were added.
pub(crate) fn put_in<V: Drop>(
    alloc: Global,
    papers: &mut ById<ById<V>>,
    paper: &str,
    reviewer: String,
    value: V,
) -> Result<u32, AllocError>
    ensures put { OnOk result (papers.new ≡ put_pair paper.now (string_bytes reviewer) value papers.old) }
    ensures more { IfOk result (λ more. more ≡ (if has_pair papers.old paper.now (string_bytes reviewer) then 0 else 1)) }
    ensures known { IsSome (value_of_pair papers.old paper.now (string_bytes reviewer)) → IsOk result }
    ensures kept { OnErr result (papers.new ≡ papers.old) }
{
    if papers.is_last(paper) {
        return papers.put_in_last(reviewer, value);
    }
    if let Some(reviewers) = papers.get_mut(paper) {
        return reviewers.put(reviewer, value);
    }
    let mut reviewers = ById::new(alloc);
    reviewers.put(reviewer, value)?;
    papers.put(String::from_str(alloc, paper)?, reviewers)?;
    Ok(1)
}

/// Values of pairs, at most 250,000, by paper and then by reviewer, in the order of their ids' bytes. Contracts see
/// for each paper its reviewers with their values.
#[derive(Drop)]
pub struct PairTable<V> {
    alloc: Global,
    papers: ById<ById<V>>,
    count: u32,
}

impl<V> Model for PairTable<V> {
    ghost use Rattle.score_spec.specs.PairTables.{PairsValue, IsPairTable};

    ghost Value = { PairsValue V };

    ghost view = { λ t. t.papers };

    ghost invariant = { λ t. IsPairTable t.papers t.count };
}

impl<V> PairTable<V> {
    /// A table without values. Takes no memory.
    pub fn new(alloc: Global) -> Self
        ensures { result ≡ [] }
    {
        PairTable {
            alloc,
            papers: ById::new(alloc),
            count: 0,
        }
    }

    /// The number of pairs that have a value.
    pub fn len(&self) -> u32
        ensures count { result ≡ pair_count self.now }
        ensures few { result ≤ MOST_PAIR_ROWS }
    {
        self.count
    }

    /// Whether no pair has a value.
    pub fn is_empty(&self) -> bool
        ensures { result ≡ (pair_count self.now == 0) }
    {
        self.count == 0
    }

    /// For each paper in order, its reviewers in order, with their values.
    pub fn papers(&self) -> &ById<ById<V>>
        ensures same { result.now ≡ self.now }
        ensures pairs { ArePairs self.now }
    {
        &self.papers
    }

    /// The value of a pair, in logarithmic time and without memory.
    pub fn get(&self, paper: &str, reviewer: &str) -> Option<&V>
        ensures { option_copied result ≡ value_of_pair self.now paper.now reviewer.now }
    {
        self.papers.get(paper)?.get(reviewer)
    }

    // Whether the pair has no value, and as many pairs have one as may.
    fn has_no_room(&self, paper: &str, reviewer: &str) -> bool
        ensures { result ≡ ((pair_count self.now == MOST_PAIR_ROWS) && not (has_pair self.now paper.now reviewer.now)) }
    {
        self.count == MOST_PAIR_ROWS && self.get(paper, reviewer).is_none()
    }

    /// Puts a value for a pair, in place of the one that it had. Takes memory where the pair is new.
    pub fn put(&mut self, paper: PaperId, reviewer: ReviewerId, value: V) -> Result<(), ScoresFault>
    where
        V: Drop,
        ensures put { OnOk result (self.new ≡ put_pair paper reviewer value self.old) }
        ensures stands { OnOk result (value_of_pair self.new paper reviewer ≡ Some value) }
        ensures others { OnOk result (OthersStay self.old self.new paper reviewer) }
        ensures full { (result ≡ Err ScoresFault.TooMany) ↔ HasNoRoom self.old paper reviewer }
        ensures known { IsSome (value_of_pair self.old paper reviewer) → IsOk result }
        ensures kept { OnErr result (self.new ≡ self.old) }
        ensures few { pair_count self.old ≤ MOST_PAIR_ROWS }
    {
        if self.has_no_room(paper.text(), reviewer.text()) {
            return Err(ScoresFault::TooMany);
        }
        match put_in(
            self.alloc,
            &mut self.papers,
            paper.text(),
            reviewer.into_string(),
            value,
        ) {
            Ok(more) => {
                self.count += more;
                Ok(())
            }
            Err(_) => Err(ScoresFault::Memory),
        }
    }
}

impl<V: TableValue> PairTable<V> {
    /// An equal table.
    pub fn copy(&self, alloc: Global) -> Result<Self, AllocError>
        ensures { IfOk result (λ copy. copy ≡ self.now) }
    {
        let papers = self.papers.copy(alloc)?;
        Ok(PairTable {
            alloc,
            papers,
            count: self.count,
        })
    }
}

impl<V: TableValue> TableValue for PairTable<V> {
    fn copy(&self, alloc: Global) -> Result<Self, AllocError> {
        self.copy(alloc)
    }
}
