ghost use Rattle.std.specs.Prelude.{◌≡◌, ◌&&◌, ◌||◌, ◌++◌, [], ℕ, List, true, is_some, IfOk, OnOk};
ghost use Rattle.std.specs.List.{list_any};
ghost use Rattle.std.specs.Ordering.{is_eq};
ghost use Rattle.match_rules.specs.Id.{is_id};
ghost use Rattle.roster.specs.Table.{id_cmp};
ghost use Rattle.score_spec.specs.PairTables.{AreIds, ArePairs, has_pair, value_of};
ghost use Rattle.score_spec.specs.Keys.{keys_of, pair_key, paper_keys};

use crate::by_id::ById;
use crate::numbers::Value;
use crate::pairs::{PairTable, put_in};
use crate::text::Text;
use match_rules::{IdFault, PaperId, ReviewerId};
use std::alloc::{AllocError, Global};

/// A paper and a reviewer.
#[derive(Drop)]
pub struct PairKey {
    pub paper: PaperId,
    pub reviewer: ReviewerId,
}

// Adds a paper's reviewers.
fn add_reviewers<V>(
    alloc: Global,
    union: &mut ById<ById<()>>,
    paper: &str,
    reviewers: &ById<V>,
) -> Result<(), AllocError>
    requires pairs { ArePairs union.old }
    requires paper { is_id paper.now ≡ true }
    requires reviewers { AreIds reviewers.now }
    ensures pairs { OnOk result (ArePairs union.new) }
    ensures has { OnOk result ((p r : List ℕ) → has_pair union.new p r ≡ (has_pair union.old p r || (is_eq (id_cmp paper.now p) && is_some (value_of reviewers.now r)))) }
{
    for (reviewer, _) in reviewers.iter() {
        let reviewer = String::from_str(alloc, reviewer.as_str())?;
        put_in(alloc, union, paper, reviewer, ())?;
    }
    Ok(())
}

// Adds the pairs of a table.
fn add_pairs<V>(
    alloc: Global,
    union: &mut ById<ById<()>>,
    table: &PairTable<V>,
) -> Result<(), AllocError>
    requires { ArePairs union.old }
    ensures pairs { OnOk result (ArePairs union.new) }
    ensures has { OnOk result ((p r : List ℕ) → has_pair union.new p r ≡ (has_pair union.old p r || has_pair table.now p r)) }
{
    for (paper, reviewers) in table.papers().iter() {
        add_reviewers(alloc, union, paper.as_str(), reviewers)?;
    }
    Ok(())
}

/// The pairs of all these tables.
pub(crate) fn union_of(
    alloc: Global,
    tables: &ById<PairTable<Value>>,
    bids: &PairTable<Text>,
) -> Result<ById<ById<()>>, AllocError>
    ensures pairs { IfOk result (λ union. ArePairs union) }
    ensures has { IfOk result (λ union. (p r : List ℕ) → has_pair union p r ≡ (list_any (λ table. has_pair table.value p r) tables.now || has_pair bids.now p r)) }
{
    let mut union = ById::new(alloc);
    for (_, table) in tables.iter() {
        add_pairs(alloc, &mut union, table)?;
    }
    add_pairs(alloc, &mut union, bids)?;
    Ok(union)
}

fn paper_of(alloc: Global, id: &str) -> Result<PaperId, AllocError>
    requires { is_id id.now ≡ true }
    ensures { IfOk result (λ paper. paper ≡ id.now) }
{
    match PaperId::read(alloc, id) {
        Ok(paper) => Ok(paper),
        Err(IdFault::Memory) => Err(AllocError),
        Err(IdFault::BadId) => unreachable!(),
    }
}

fn reviewer_of(alloc: Global, id: &str) -> Result<ReviewerId, AllocError>
    requires { is_id id.now ≡ true }
    ensures { IfOk result (λ reviewer. reviewer ≡ id.now) }
{
    match ReviewerId::read(alloc, id) {
        Ok(reviewer) => Ok(reviewer),
        Err(IdFault::Memory) => Err(AllocError),
        Err(IdFault::BadId) => unreachable!(),
    }
}

fn key_of(alloc: Global, paper: &str, reviewer: &str) -> Result<PairKey, AllocError>
    requires paper { is_id paper.now ≡ true }
    requires reviewer { is_id reviewer.now ≡ true }
    ensures { IfOk result (λ key. key ≡ pair_key paper.now reviewer.now) }
{
    let paper = paper_of(alloc, paper)?;
    let reviewer = reviewer_of(alloc, reviewer)?;
    Ok(PairKey { paper, reviewer })
}

// Adds the keys of a paper's reviewers.
fn push_keys(
    alloc: Global,
    keys: &mut Vec<PairKey>,
    paper: &str,
    reviewers: &ById<()>,
) -> Result<(), AllocError>
    requires paper { is_id paper.now ≡ true }
    requires reviewers { AreIds reviewers.now }
    ensures { OnOk result (keys.new.items ≡ keys.old.items ++ paper_keys paper.now reviewers.now) }
{
    for (reviewer, _) in reviewers.iter() {
        keys.push(key_of(alloc, paper, reviewer.as_str())?)?;
    }
    Ok(())
}

/// The pairs of a table, in their order.
pub(crate) fn keys_of(alloc: Global, union: &ById<ById<()>>) -> Result<Vec<PairKey>, AllocError>
    requires { ArePairs union.now }
    ensures { IfOk result (λ keys. keys.items ≡ keys_of union.now) }
{
    let mut keys = Vec::new(alloc);
    for (paper, reviewers) in union.iter() {
        push_keys(alloc, &mut keys, paper.as_str(), reviewers)?;
    }
    Ok(keys)
}
