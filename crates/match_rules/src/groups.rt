// The groups of rules, counted once: the group of each pair, and the first pair of each group.

ghost use Rattle.std.specs.Prelude.{◌≡◌, ◌↔◌, ℕ, ◌+◌, ◌<◌, ◌≤◌, List, length, map, slice_index, slice_index_or, IfOk, Option, None, Some};
ghost use Rattle.std.specs.List.{Contains, filter_map};
ghost use Rattle.std.specs.List.Sorted.{IsStrictlySortedBy, IsStrictlyIncreasing};
ghost use Rattle.match_rules.specs.GroupTable.{texts, IsPlaceOf, HasName, IsRank, AreNamed, AreRanks, AreSmall, code_of, IsCodePlace, AreCodePlaces, IsFirstPair, IsCounted, IsGroupTable};
ghost use Rattle.match_rules.specs.Rules.{RulesValue, id_cmp, pair_in};

use crate::rules::{MOST_PAIRS, MOST_PAPERS, MOST_REVIEWERS, RulePair, RuleReviewer};
use std::alloc::{AllocError, Global};

// The names of all institutions of the reviewers, one for each reviewer.
fn all_names<'a>(alloc: Global, reviewers: &'a [RuleReviewer]) -> Result<Vec<&'a str>, AllocError>
    ensures few { IfOk result (λ names. length names.items ≤ length reviewers.now) }
    ensures named { IfOk result (λ names. AreNamed (texts names.items) reviewers.now) }
{
    let mut names = Vec::new(alloc);
    for reviewer in reviewers {
        if let Some(name) = &reviewer.institution {
            names.push(name.text())?;
        }
    }
    Ok(names)
}

// The same names, ascending, each once.
fn distinct_names<'a>(mut names: Vec<&'a str>) -> Vec<&'a str>
    ensures few { length result.items ≤ length names.entry.items }
    ensures ascending { IsStrictlySortedBy id_cmp (texts result.items) }
    ensures kept { (name : List ℕ) → HasName (texts names.entry.items) name → HasName (texts result.items) name }
{
    names.sort_unstable();
    names.dedup();
    names
}

// The place of a name among names that ascend.
fn place_of(names: &[&str], name: &str) -> u32
    requires few { length names.now ≤ MOST_REVIEWERS }
    requires ascending { IsStrictlySortedBy id_cmp (texts names.now) }
    requires there { HasName (texts names.now) name.now }
    ensures { IsPlaceOf (texts names.now) name.now result }
{
    match names.binary_search(&name) {
        Ok(place) => place as u32,
        Err(place) => place as u32,
    }
}

// The place of a reviewer's institution.
fn rank_of(names: &[&str], reviewer: &RuleReviewer) -> Option<u32>
    requires few { length names.now ≤ MOST_REVIEWERS }
    requires ascending { IsStrictlySortedBy id_cmp (texts names.now) }
    requires there { (name : List ℕ) → reviewer.now.institution ≡ Some name → HasName (texts names.now) name }
    ensures { IsRank (texts names.now) reviewer.now.institution result }
{
    match &reviewer.institution {
        Some(name) => Some(place_of(names, name.text())),
        None => None,
    }
}

// The place of each reviewer's institution.
fn ranks_among(
    alloc: Global,
    names: &[&str],
    reviewers: &[RuleReviewer],
) -> Result<Vec<Option<u32>>, AllocError>
    requires few { length names.now ≤ MOST_REVIEWERS }
    requires ascending { IsStrictlySortedBy id_cmp (texts names.now) }
    requires there { AreNamed (texts names.now) reviewers.now }
    ensures { IfOk result (λ ranks. AreRanks (texts names.now) reviewers.now ranks.items) }
{
    let mut ranks = Vec::new(alloc);
    for reviewer in reviewers {
        ranks.push(rank_of(names, reviewer))?;
    }
    Ok(ranks)
}

// The place of each reviewer's institution among all of theirs.
fn ranks(alloc: Global, reviewers: &[RuleReviewer]) -> Result<Vec<Option<u32>>, AllocError>
    requires { length reviewers.now ≤ MOST_REVIEWERS }
    ensures { IfOk result (λ ranks. (names : List (List ℕ)) × AreRanks names reviewers.now ranks.items) }
{
    let names = distinct_names(all_names(alloc, reviewers)?);
    ranks_among(alloc, &names, reviewers)
}

// One number for the paper of a pair and the institution of its reviewer.
fn code(ranks: &[Option<u32>], pair: &RulePair) -> Option<u32>
    requires paper { pair.now.paper < MOST_PAPERS }
    requires reviewer { pair.now.reviewer < length ranks.now }
    requires ranks { AreSmall ranks.now }
    ensures { result ≡ code_of ranks.now pair.now }
{
    match ranks[pair.reviewer as usize] {
        Some(rank) => Some(pair.paper * MOST_REVIEWERS + rank),
        None => None,
    }
}

// The numbers of all pairs.
fn codes(
    alloc: Global,
    ranks: &[Option<u32>],
    pairs: &[RulePair],
) -> Result<Vec<Option<u32>>, AllocError>
    requires pairs { (e : ℕ) → e < length pairs.now → ((pair_in pairs.now e).paper < MOST_PAPERS) × ((pair_in pairs.now e).reviewer < length ranks.now) }
    requires ranks { AreSmall ranks.now }
    ensures { IfOk result (λ codes. codes.items ≡ map (code_of ranks.now) pairs.now) }
{
    let mut codes = Vec::new(alloc);
    for pair in pairs {
        codes.push(code(ranks, pair))?;
    }
    Ok(codes)
}

// The numbers that are there.
fn present(alloc: Global, codes: &[Option<u32>]) -> Result<Vec<u32>, AllocError>
    ensures { IfOk result (λ numbers. numbers.items ≡ filter_map (λ code. code) codes.now) }
{
    codes.iter().filter_map(|code| *code).collect(alloc)
}

// The same numbers, ascending, each once.
fn distinct_numbers(mut numbers: Vec<u32>) -> Vec<u32>
    ensures few { length result.items ≤ length numbers.items }
    ensures ascending { IsStrictlyIncreasing result.items }
    ensures kept { (x : ℕ) → Contains numbers.items x → Contains result.items x }
    ensures only { (x : ℕ) → Contains result.items x → Contains numbers.items x }
{
    numbers.sort_unstable();
    numbers.dedup();
    numbers
}

// The numbers of codes, ascending, each once.
fn numbers_of(alloc: Global, codes: &[Option<u32>]) -> Result<Vec<u32>, AllocError>
    ensures few { IfOk result (λ numbers. length numbers.items ≤ length codes.now) }
    ensures ascending { IfOk result (λ numbers. IsStrictlyIncreasing numbers.items) }
    ensures all { IfOk result (λ numbers. (x : ℕ) → Contains codes.now (Some x) → Contains numbers.items x) }
    ensures only { IfOk result (λ numbers. (x : ℕ) → Contains numbers.items x → Contains codes.now (Some x)) }
{
    let numbers = present(alloc, codes)?;
    Ok(distinct_numbers(numbers))
}

// The place of a number among numbers that ascend.
fn place_among(numbers: &[u32], number: u32) -> u32
    requires few { length numbers.now ≤ MOST_PAIRS }
    requires ascending { IsStrictlyIncreasing numbers.now }
    requires there { Contains numbers.now number }
    ensures { IsCodePlace numbers.now (Some number) (Some result) }
{
    match numbers.binary_search(&number) {
        Ok(place) => place as u32,
        Err(place) => place as u32,
    }
}

// The place of a pair's number, where it has one.
fn code_place(numbers: &[u32], code: Option<u32>) -> Option<u32>
    requires few { length numbers.now ≤ MOST_PAIRS }
    requires ascending { IsStrictlyIncreasing numbers.now }
    requires there { (x : ℕ) → code ≡ Some x → Contains numbers.now x }
    ensures { IsCodePlace numbers.now code result }
{
    match code {
        Some(number) => Some(place_among(numbers, number)),
        None => None,
    }
}

// The places of all pairs' numbers.
fn code_places(
    alloc: Global,
    numbers: &[u32],
    codes: &[Option<u32>],
) -> Result<Vec<Option<u32>>, AllocError>
    requires few { length numbers.now ≤ MOST_PAIRS }
    requires ascending { IsStrictlyIncreasing numbers.now }
    requires there { (x : ℕ) → Contains codes.now (Some x) → Contains numbers.now x }
    ensures { IfOk result (λ places. AreCodePlaces numbers.now codes.now places.items) }
{
    let mut places = Vec::new(alloc);
    for code in codes {
        places.push(code_place(numbers, *code))?;
    }
    Ok(places)
}

// The first pair of each group.
fn first_pairs(alloc: Global, groups: &[Option<u32>], count: usize) -> Result<Vec<u32>, AllocError>
    requires few { length groups.now ≤ MOST_PAIRS }
    requires within { (e g : ℕ) → slice_index_or groups.now e None ≡ Some g → g < count }
    ensures as_long { IfOk result (λ firsts. length firsts.items ≡ count) }
    ensures first { IfOk result (λ firsts. (e g : ℕ) → e < length groups.now → slice_index_or groups.now e None ≡ Some g → IsFirstPair groups.now g (slice_index firsts.items g)) }
{
    let mut firsts = vec![in alloc; 0u32; count]?;
    for e in (0..groups.len()).rev() {
        if let Some(group) = groups[e] {
            firsts[group as usize] = e as u32;
        }
    }
    Ok(firsts)
}

/// A group: a paper and an institution that has a candidate for it.
#[derive(Clone, Copy)]
pub struct Group {
    /// The place of the paper.
    pub paper: u32,
    /// The place of the first reviewer of the institution who has a pair with the paper.
    pub reviewer: u32,
}

/// The groups of rules: the group of each pair, and the first pair of each group.
#[derive(Drop)]
pub(crate) struct GroupTable {
    pub(crate) of_pair: Vec<Option<u32>>,
    pub(crate) firsts: Vec<u32>,
}

impl GroupTable {
    pub(crate) fn copy(&self, alloc: Global) -> Result<Self, AllocError>
        ensures of_pair { IfOk result (λ copy. copy.of_pair.items ≡ self.now.of_pair.items) }
        ensures firsts { IfOk result (λ copy. copy.firsts.items ≡ self.now.firsts.items) }
    {
        let of_pair = Vec::from_slice(alloc, self.of_pair.as_slice())?;
        let firsts = Vec::from_slice(alloc, self.firsts.as_slice())?;
        Ok(GroupTable { of_pair, firsts })
    }
}

// The group of each pair and the first pair of each group, by the numbers of the pairs and these numbers in order.
fn table_of(alloc: Global, codes: &[Option<u32>], numbers: &[u32]) -> Result<GroupTable, AllocError>
    requires few_pairs { length codes.now ≤ MOST_PAIRS }
    requires few { length numbers.now ≤ MOST_PAIRS }
    requires ascending { IsStrictlyIncreasing numbers.now }
    requires there { (x : ℕ) → Contains codes.now (Some x) → Contains numbers.now x }
    ensures { IfOk result (λ table. IsCounted codes.now numbers.now table.of_pair.items table.firsts.items) }
{
    let of_pair = code_places(alloc, numbers, codes)?;
    let firsts = first_pairs(alloc, &of_pair, numbers.len())?;
    Ok(GroupTable { of_pair, firsts })
}

/// The groups of the pairs. Time n log n.
pub(crate) fn group_table(
    alloc: Global,
    reviewers: &[RuleReviewer],
    pairs: &[RulePair],
) -> Result<GroupTable, AllocError>
    requires few { length reviewers.now ≤ MOST_REVIEWERS }
    requires few_pairs { length pairs.now ≤ MOST_PAIRS }
    requires places { (e : ℕ) → e < length pairs.now → ((pair_in pairs.now e).paper < MOST_PAPERS) × ((pair_in pairs.now e).reviewer < length reviewers.now) }
    ensures { IfOk result (λ table. (rules : RulesValue) → rules.reviewers ≡ reviewers.now → rules.pairs ≡ pairs.now → IsGroupTable rules table.of_pair.items table.firsts.items) }
{
    let ranks = ranks(alloc, reviewers)?;
    let codes = codes(alloc, &ranks, pairs)?;
    let numbers = numbers_of(alloc, &codes)?;
    table_of(alloc, &codes, &numbers)
}
