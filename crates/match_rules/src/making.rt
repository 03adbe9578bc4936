// Rules made from their parts.

ghost use Rattle.std.specs.Prelude.{◌≡◌, ◌↔◌, ◌≤◌, [], length, IfOk, OnOk, IfErr, IfSome, IsNone};
ghost use Rattle.match_rules.specs.Rules.{AreRules, locked_places, rules_value};
ghost use Rattle.match_rules.specs.RulesFaults.{IsFaultOf};

use crate::groups::group_table;
use crate::parts::{pair_fault, paper_fault, reviewer_fault};
use crate::rules::{
    MOST_LIMIT, MOST_PAIRS, RULES_TICKETS, RulePair, RulePaper, RuleReviewer, Rules, RulesFault,
};
use std::alloc::{AllocError, Global};

// The places of the pairs whose floor is all tickets, ascending.
fn locked_of(alloc: Global, tickets: u32, pairs: &[RulePair]) -> Result<Vec<u32>, AllocError>
    requires { length pairs.now ≤ MOST_PAIRS }
    ensures { IfOk result (λ places. places.items ≡ locked_places (rules_value tickets 0 [] [] pairs.now)) }
{
    let mut places = Vec::new(alloc);
    for (e, pair) in pairs.iter().enumerate() {
        if pair.floor == tickets {
            places.push(e as u32)?;
        }
    }
    Ok(places)
}

// What rules of a limit and three lists would be refused for.
fn fault_of(
    limit: u32,
    papers: &[RulePaper],
    reviewers: &[RuleReviewer],
    pairs: &[RulePair],
) -> Option<RulesFault>
    ensures fault { IfSome result (λ fault. IsFaultOf fault (rules_value RULES_TICKETS limit papers.now reviewers.now pairs.now)) }
    ensures none { IsNone result ↔ AreRules (rules_value RULES_TICKETS limit papers.now reviewers.now pairs.now) }
{
    if limit < 1 || limit > MOST_LIMIT {
        return Some(RulesFault::Limit);
    }
    if let Some(place) = paper_fault(papers) {
        return Some(RulesFault::Papers { place });
    }
    if let Some(place) = reviewer_fault(reviewers) {
        return Some(RulesFault::Reviewers { place });
    }
    match pair_fault(RULES_TICKETS, papers.len(), reviewers.len(), pairs) {
        Some(place) => Some(RulesFault::Pairs { place }),
        None => None,
    }
}

impl Rules {
    /// The rules of a limit and three lists. Papers and reviewers ascend by the bytes of their ids, pairs by the place
    /// of the paper and then that of the reviewer. A fault names the first place at which a list, up to and with it,
    /// breaks a condition.
    pub fn new(
        alloc: Global,
        limit: u32,
        papers: Vec<RulePaper>,
        reviewers: Vec<RuleReviewer>,
        pairs: Vec<RulePair>,
    ) -> Result<Rules, RulesFault>
        ensures value { IfOk result (λ rules. rules ≡ rules_value RULES_TICKETS limit papers.items reviewers.items pairs.items) }
        ensures good { OnOk result (AreRules (rules_value RULES_TICKETS limit papers.items reviewers.items pairs.items)) }
        ensures fault { IfErr result (λ fault. IsFaultOf fault (rules_value RULES_TICKETS limit papers.items reviewers.items pairs.items)) }
        ensures only { AreRules (rules_value RULES_TICKETS limit papers.items reviewers.items pairs.items) → IfErr result (λ fault. fault ≡ RulesFault.Memory) }
    {
        if let Some(fault) = fault_of(limit, &papers, &reviewers, &pairs) {
            return Err(fault);
        }
        match Rules::of_tested(alloc, RULES_TICKETS, limit, papers, reviewers, pairs) {
            Ok(rules) => Ok(rules),
            Err(_) => Err(RulesFault::Memory),
        }
    }

    /// The rules of a number of tickets, a limit and three lists, for a caller that tested all their conditions.
    pub fn of_tested(
        alloc: Global,
        tickets: u32,
        limit: u32,
        papers: Vec<RulePaper>,
        reviewers: Vec<RuleReviewer>,
        pairs: Vec<RulePair>,
    ) -> Result<Rules, AllocError>
        requires { AreRules (rules_value tickets limit papers.items reviewers.items pairs.items) }
        ensures { IfOk result (λ rules. rules ≡ rules_value tickets limit papers.items reviewers.items pairs.items) }
    {
        let locked = locked_of(alloc, tickets, pairs.as_slice())?;
        let groups = group_table(alloc, reviewers.as_slice(), pairs.as_slice())?;
        Ok(Rules::of_parts(tickets, limit, papers, reviewers, pairs, locked, groups))
    }
}
