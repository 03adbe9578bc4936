// How many papers, groups, reviewers and pairs rules have.

ghost use Rattle.std.specs.Prelude.{◌≡◌, ◌≤◌};

use crate::rules::{MOST_PAIRS, Rules};

/// How many papers, groups, reviewers and pairs rules have.
#[derive(Clone, Copy)]
pub struct Sizes {
    /// The number of papers.
    pub papers: u32,
    /// The number of groups.
    pub groups: u32,
    /// The number of reviewers.
    pub reviewers: u32,
    /// The number of candidate pairs.
    pub pairs: u32,
}

impl Sizes {
    ghost use Rattle.match_rules.specs.Sound.{sizes_of};

    /// The sizes of rules.
    pub fn of(rules: &Rules) -> Sizes
        ensures same { result ≡ sizes_of rules.now }
        ensures few { result.pairs ≤ MOST_PAIRS }
    {
        Sizes {
            papers: rules.papers().len() as u32,
            groups: rules.group_count(),
            reviewers: rules.reviewers().len() as u32,
            pairs: rules.pairs().len() as u32,
        }
    }
}
