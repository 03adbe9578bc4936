// The rules of one edition: papers, reviewers and candidate pairs.

ghost use Rattle.std.specs.Prelude.{◌≡◌, ◌↔◌, ◌<◌, ◌≤◌, length, IfOk, IfSome, IsNone, IsTrue, None, Some};
ghost use Rattle.std.specs.List.Sorted.{IsStrictlySortedBy};
ghost use Rattle.match_rules.specs.Groups.{groups, group_count, group_of, group_key, key_cmp, first_member, paper_of_group};
ghost use Rattle.match_rules.specs.GroupTable.{IsGroupTable};
ghost use Rattle.match_rules.specs.Rules.{RulesValue, AreRules, locked_places, pair_at, reviewer_at, rules_value};

use crate::groups::{Group, GroupTable};
use crate::ids::{Institution, PaperId, ReviewerId};
use std::alloc::{AllocError, Global};
use std::marker::Model;

/// The greatest number of tickets that a lottery is split over.
pub const MOST_TICKETS: u32 = 10_000;

/// The number of tickets that the rules of every edition have.
pub const RULES_TICKETS: u32 = MOST_TICKETS;

/// The greatest number of papers.
pub const MOST_PAPERS: u32 = 1_500;

/// The greatest number of reviewers.
pub const MOST_REVIEWERS: u32 = 1_500;

/// The greatest number of candidate pairs.
pub const MOST_PAIRS: u32 = 250_000;

/// The greatest number of reviewers that one paper may demand.
pub const MOST_DEMAND: u32 = 100;

/// The greatest number of reviewers that all papers together may demand.
pub const MOST_DEMAND_IN_ALL: u32 = 4_500;

/// The greatest number of papers that one reviewer may be given.
pub const MOST_LOAD: u32 = 1_500;

/// The greatest limit on the reviewers of one institution for one paper.
pub const MOST_LIMIT: u32 = 1_500;

/// The greatest magnitude of a score, in 10^-6.
pub const MOST_SCORE: u64 = 8_000_000_000;

/// A paper with the number of reviewers that it needs in each assignment.
#[derive(Drop)]
pub struct RulePaper {
    /// Its id.
    pub id: PaperId,
    /// Reviewers in each assignment, 0 to 100.
    pub demand: u32,
}

impl RulePaper {
    /// An equal paper.
    pub fn copy(&self, alloc: Global) -> Result<Self, AllocError>
        ensures { IfOk result (λ copy. copy ≡ self.now) }
    {
        let id = self.id.copy(alloc)?;
        Ok(RulePaper {
            id,
            demand: self.demand,
        })
    }
}

/// A reviewer with the numbers of papers that they may have in an assignment.
#[derive(Drop)]
pub struct RuleReviewer {
    /// The reviewer's id.
    pub id: ReviewerId,
    /// Where the reviewer works, if that is known.
    pub institution: Option<Institution>,
    /// The least number of papers in each assignment, 0 to 1,500.
    pub least: u32,
    /// The greatest number of papers in each assignment, up to 1,500.
    pub greatest: u32,
}

impl RuleReviewer {
    /// An equal reviewer.
    pub fn copy(&self, alloc: Global) -> Result<Self, AllocError>
        ensures { IfOk result (λ copy. copy ≡ self.now) }
    {
        let id = self.id.copy(alloc)?;
        let institution = match &self.institution {
            Some(institution) => Some(institution.copy(alloc)?),
            None => None,
        };
        Ok(RuleReviewer {
            id,
            institution,
            least: self.least,
            greatest: self.greatest,
        })
    }
}

/// A candidate pair of a paper and a reviewer.
#[derive(Clone, Copy)]
pub struct RulePair {
    /// The place of the paper.
    pub paper: u32,
    /// The place of the reviewer.
    pub reviewer: u32,
    /// The score, in 10^-6, of magnitude at most 8,000,000,000.
    pub score: i64,
    /// The least number of tickets: 0, or all of them for a locked pair.
    pub floor: u32,
    /// The greatest number of tickets.
    pub cap: u32,
}

impl RulePair {
    ghost use Rattle.match_rules.specs.Rules.{IsPairBefore};

    /// Whether this pair stands before another: by the place of the paper, and then that of the reviewer.
    pub fn is_before(&self, other: &RulePair) -> bool
        ensures { IsTrue result ↔ IsPairBefore self.now other.now }
    {
        if self.paper < other.paper {
            return true;
        }
        if self.paper > other.paper {
            return false;
        }
        self.reviewer < other.reviewer
    }
}

/// The rules of one edition, which keep all conditions of a lottery: papers, reviewers and pairs strictly ascend, and
/// every number is within its limit.
#[derive(Drop)]
pub struct Rules {
    tickets: u32,
    limit: u32,
    papers: Vec<RulePaper>,
    reviewers: Vec<RuleReviewer>,
    pairs: Vec<RulePair>,
    locked: Vec<u32>,
    groups: GroupTable,
}

impl Model for Rules {
    ghost use Rattle.std.specs.Prelude.{◌≡◌};
    ghost use Rattle.match_rules.specs.GroupTable.{IsGroupTable};
    ghost use Rattle.match_rules.specs.Rules.{RulesValue, AreRules, locked_places};

    ghost Value = { RulesValue };

    ghost view = { λ r. record { tickets = r.tickets; limit = r.limit; papers = r.papers.items; reviewers = r.reviewers.items; pairs = r.pairs.items } };

    ghost invariant = { λ r. AreRules (record { tickets = r.tickets; limit = r.limit; papers = r.papers.items; reviewers = r.reviewers.items; pairs = r.pairs.items })
        × (r.locked.items ≡ locked_places (record { tickets = r.tickets; limit = r.limit; papers = r.papers.items; reviewers = r.reviewers.items; pairs = r.pairs.items }))
        × IsGroupTable (record { tickets = r.tickets; limit = r.limit; papers = r.papers.items; reviewers = r.reviewers.items; pairs = r.pairs.items }) r.groups.of_pair.items r.groups.firsts.items };
}

/// Why rules were refused: the first part, in the order limit, papers, reviewers, pairs, that breaks a condition, and
/// its first place that does.
#[derive(Clone, Copy)]
pub enum RulesFault {
    /// The limit isn't 1 to 1,500.
    Limit,
    /// A paper.
    Papers { place: u32 },
    /// A reviewer.
    Reviewers { place: u32 },
    /// A pair.
    Pairs { place: u32 },
    /// Memory was wanting.
    Memory,
}

impl Rules {
    // The rules of a number of tickets, a limit and three lists, with the places of the locked pairs and the groups.
    pub(crate) fn of_parts(
        tickets: u32,
        limit: u32,
        papers: Vec<RulePaper>,
        reviewers: Vec<RuleReviewer>,
        pairs: Vec<RulePair>,
        locked: Vec<u32>,
        groups: GroupTable,
    ) -> Rules
        requires rules { AreRules (rules_value tickets limit papers.items reviewers.items pairs.items) }
        requires locked { locked.items ≡ locked_places (rules_value tickets limit papers.items reviewers.items pairs.items) }
        requires groups { IsGroupTable (rules_value tickets limit papers.items reviewers.items pairs.items) groups.of_pair.items groups.firsts.items }
        ensures { result ≡ rules_value tickets limit papers.items reviewers.items pairs.items }
    {
        Rules {
            tickets,
            limit,
            papers,
            reviewers,
            pairs,
            locked,
            groups,
        }
    }

    /// The number of tickets over which a lottery is split.
    pub fn tickets(&self) -> u32
        ensures value { result ≡ self.now.tickets }
        ensures kept { AreRules self.now }
    {
        self.tickets
    }

    /// The greatest number of reviewers of one institution that one paper may have in an assignment, 1 to 1,500.
    pub fn limit(&self) -> u32
        ensures value { result ≡ self.now.limit }
        ensures kept { AreRules self.now }
    {
        self.limit
    }

    /// The papers, ascending by the bytes of their ids.
    pub fn papers(&self) -> &[RulePaper]
        ensures value { result.now ≡ self.now.papers }
        ensures len { length result.now ≡ length self.now.papers }
        ensures kept { AreRules self.now }
    {
        self.papers.as_slice()
    }

    /// The reviewers, ascending by the bytes of their ids.
    pub fn reviewers(&self) -> &[RuleReviewer]
        ensures value { result.now ≡ self.now.reviewers }
        ensures len { length result.now ≡ length self.now.reviewers }
        ensures kept { AreRules self.now }
    {
        self.reviewers.as_slice()
    }

    /// The candidate pairs, ascending by the place of the paper and then that of the reviewer.
    pub fn pairs(&self) -> &[RulePair]
        ensures value { result.now ≡ self.now.pairs }
        ensures len { length result.now ≡ length self.now.pairs }
        ensures kept { AreRules self.now }
    {
        self.pairs.as_slice()
    }

    /// The places of the locked pairs, ascending.
    pub(crate) fn locked(&self) -> &[u32]
        ensures value { result.now ≡ locked_places self.now }
    {
        self.locked.as_slice()
    }

    /// The number of groups. A group is a paper and an institution, of which a reviewer has a pair with the paper;
    /// groups ascend by the place of the paper and then the bytes of the institution.
    pub fn group_count(&self) -> u32
        ensures value { result ≡ group_count self.now }
        ensures few { result ≤ length self.now.pairs }
        ensures ascending { IsStrictlySortedBy key_cmp (groups self.now) }
        ensures kept { AreRules self.now }
    {
        self.groups.firsts.len() as u32
    }

    /// The group of a pair, where its reviewer has an institution.
    pub fn group_of(&self, pair: u32) -> Option<u32>
        requires { pair < length self.now.pairs }
        ensures value { result ≡ group_of self.now pair }
        ensures below { IfSome result (λ group. group < group_count self.now) }
        ensures paper { IfSome result (λ group. paper_of_group self.now group ≡ (pair_at self.now pair).paper) }
        ensures none { IsNone result ↔ ((reviewer_at self.now (pair_at self.now pair).reviewer).institution ≡ None) }
    {
        self.groups.of_pair[pair as usize]
    }

    /// The paper of a group, and the first reviewer of its institution who has a pair with the paper.
    pub fn group_at(&self, group: u32) -> Group
        requires { group < group_count self.now }
        ensures paper { result.paper ≡ paper_of_group self.now group }
        ensures reviewer { Some result.reviewer ≡ first_member self.now (group_key self.now group) }
    {
        let first = self.groups.firsts[group as usize];
        let pair = self.pairs[first as usize];
        Group {
            paper: pair.paper,
            reviewer: pair.reviewer,
        }
    }

    /// Equal rules.
    pub fn copy(&self, alloc: Global) -> Result<Self, AllocError>
        ensures { IfOk result (λ copy. copy ≡ self.now) }
    {
        let pairs = Vec::from_slice(alloc, self.pairs.as_slice())?;
        let locked = Vec::from_slice(alloc, self.locked.as_slice())?;
        let groups = self.groups.copy(alloc)?;
        let papers = copy_papers(alloc, self.papers.as_slice())?;
        let reviewers = copy_reviewers(alloc, self.reviewers.as_slice())?;
        Ok(Rules {
            tickets: self.tickets,
            limit: self.limit,
            papers,
            reviewers,
            pairs,
            locked,
            groups,
        })
    }
}

fn copy_papers(alloc: Global, papers: &[RulePaper]) -> Result<Vec<RulePaper>, AllocError>
    ensures { IfOk result (λ copies. copies.items ≡ papers.now) }
{
    let mut copies = Vec::new(alloc);
    for paper in papers {
        copies.push(paper.copy(alloc)?)?;
    }
    Ok(copies)
}

fn copy_reviewers(
    alloc: Global,
    reviewers: &[RuleReviewer],
) -> Result<Vec<RuleReviewer>, AllocError>
    ensures { IfOk result (λ copies. copies.items ≡ reviewers.now) }
{
    let mut copies = Vec::new(alloc);
    for reviewer in reviewers {
        copies.push(reviewer.copy(alloc)?)?;
    }
    Ok(copies)
}
