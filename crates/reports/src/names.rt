// The institutions of the reviewers, in the order of their bytes.
ghost use Rattle.std.specs.Prelude.{◌≡◌, ℕ, ◌<◌, ◌≤◌, List, length, IfOk, Some};
ghost use Rattle.std.specs.List.Sorted.{IsStrictlySortedBy};
ghost use Rattle.match_rules.specs.GroupTable.{texts, HasName, IsPlaceOf};
ghost use Rattle.match_rules.specs.Rules.{id_cmp};
ghost use Rattle.reports.specs.Institutions.{institutions, names_of};

use match_rules::RuleReviewer;
use std::alloc::{AllocError, Global};

// The names of all institutions of the reviewers, one for each reviewer who has one.
fn all_names<'a>(alloc: Global, reviewers: &'a [RuleReviewer]) -> Result<Vec<&'a str>, AllocError>
    ensures { IfOk result (λ names. texts names.items ≡ names_of reviewers.now) }
{
    let mut names = Vec::new(alloc);
    for reviewer in reviewers {
        if let Some(name) = &reviewer.institution {
            names.push(name.text())?;
        }
    }
    Ok(names)
}

// The same names, ascending, each once.
fn distinct_names<'a>(mut names: Vec<&'a str>) -> Vec<&'a str>
    ensures ascending { IsStrictlySortedBy id_cmp (texts result.items) }
    ensures kept { (name : List ℕ) → HasName (texts names.entry.items) name → HasName (texts result.items) name }
    ensures only { (name : List ℕ) → HasName (texts result.items) name → HasName (texts names.entry.items) name }
{
    names.sort_unstable();
    names.dedup();
    names
}

/// The institutions of the reviewers, in the order of their bytes, each once.
pub(crate) fn institutions<'a>(
    alloc: Global,
    reviewers: &'a [RuleReviewer],
) -> Result<Vec<&'a str>, AllocError>
    ensures { IfOk result (λ names. texts names.items ≡ institutions reviewers.now) }
{
    Ok(distinct_names(all_names(alloc, reviewers)?))
}

/// The place of a name among names that ascend.
pub(crate) fn place_of(names: &[&str], name: &str) -> usize
    requires ascending { IsStrictlySortedBy id_cmp (texts names.now) }
    requires there { HasName (texts names.now) name.now }
    ensures { IsPlaceOf (texts names.now) name.now result }
{
    match names.binary_search(&name) {
        Ok(place) => place,
        Err(place) => place,
    }
}
