// The rules of a venue, or the first limit that they pass.

ghost use Rattle.std.specs.Prelude.{◌≡◌, ◌≤◌, true, length, map, None, Ok, IfOk, IfSome, OnOk, All};
ghost use Rattle.venue_rules.specs.Candidates.{candidates};
ghost use Rattle.venue_rules.specs.Found.{IsPair};
ghost use Rattle.venue_rules.specs.Parts.{AnswersRules, IsPaper, IsReviewer};
ghost use Rattle.venue_rules.specs.Venues.{IsDemand, KeepsLimits, paper_key, reviewer_key};
ghost use Rattle.venue_rules.specs.VenueRules.{demand_of, demand_sum, forbidden_in, if_few_pairs, if_no_lock, load_of, made_rules, rule_paper, rule_reviewer, rules_of};
ghost use Rattle.roster.specs.Table.{Ascend};

use crate::candidates::candidates;
use crate::fault::{LimitFault, VenueFault};
use crate::locks::forbidden_lock;
use crate::tables::Tables;
use match_rules::{
    MOST_DEMAND_IN_ALL, MOST_PAIRS, RULES_TICKETS, RulePair, RulePaper, RuleReviewer, Rules,
};
use roster::{Load, MOST_ROWS, PaperRow, ReviewerRow};
use score_spec::PairKey;
use std::alloc::{AllocError, Global};

fn demand_of(tables: &Tables, paper: &PaperRow) -> u32
    requires { IsDemand paper.now.demand }
    ensures same { result ≡ demand_of tables.now paper.now }
    ensures few { result ≤ 100 }
{
    match paper.demand {
        Some(demand) => demand,
        None => tables.settings.demand(),
    }
}

fn load_of(tables: &Tables, reviewer: &ReviewerRow) -> Load
    ensures { result ≡ load_of tables.now reviewer.now }
{
    match reviewer.load {
        Some(load) => load,
        None => tables.settings.load(),
    }
}

// The reviewers that the papers need in all.
fn demand_sum(tables: &Tables) -> u64
    requires { KeepsLimits tables.now }
    ensures { result ≡ demand_sum tables.now tables.now.papers }
{
    let mut sum = 0u64;
    for paper in tables.papers.rows() {
        sum += u64::from(demand_of(tables, paper));
    }
    sum
}

fn rule_paper(alloc: Global, tables: &Tables, paper: &PaperRow) -> Result<RulePaper, AllocError>
    requires { IsDemand paper.now.demand }
    ensures same { IfOk result (λ made. made ≡ rule_paper tables.now paper.now) }
    ensures good { OnOk result (IsPaper tables.now paper.now) }
{
    let id = paper.id.copy(alloc)?;
    Ok(RulePaper {
        id,
        demand: demand_of(tables, paper),
    })
}

fn rule_papers(alloc: Global, tables: &Tables) -> Result<Vec<RulePaper>, AllocError>
    requires { KeepsLimits tables.now }
    ensures same { IfOk result (λ made. made.items ≡ map (rule_paper tables.now) tables.now.papers) }
    ensures good { OnOk result (All (IsPaper tables.now) tables.now.papers) }
    ensures order { Ascend paper_key tables.now.papers }
    ensures few { length tables.now.papers ≤ MOST_ROWS }
{
    let mut papers = Vec::new(alloc);
    for paper in tables.papers.rows() {
        papers.push(rule_paper(alloc, tables, paper)?)?;
    }
    Ok(papers)
}

fn rule_reviewer(
    alloc: Global,
    tables: &Tables,
    reviewer: &ReviewerRow,
) -> Result<RuleReviewer, AllocError>
    ensures same { IfOk result (λ made. made ≡ rule_reviewer tables.now reviewer.now) }
    ensures good { OnOk result (IsReviewer tables.now reviewer.now) }
{
    let id = reviewer.id.copy(alloc)?;
    let institution = reviewer.copy_institution(alloc)?;
    let load = load_of(tables, reviewer);
    Ok(RuleReviewer {
        id,
        institution,
        least: load.least(),
        greatest: load.greatest(),
    })
}

fn rule_reviewers(alloc: Global, tables: &Tables) -> Result<Vec<RuleReviewer>, AllocError>
    ensures same { IfOk result (λ made. made.items ≡ map (rule_reviewer tables.now) tables.now.reviewers) }
    ensures good { OnOk result (All (IsReviewer tables.now) tables.now.reviewers) }
    ensures order { Ascend reviewer_key tables.now.reviewers }
    ensures few { length tables.now.reviewers ≤ MOST_ROWS }
{
    let mut reviewers = Vec::new(alloc);
    for reviewer in tables.reviewers.rows() {
        reviewers.push(rule_reviewer(alloc, tables, reviewer)?)?;
    }
    Ok(reviewers)
}

// The rules of a venue that passes no limit.
fn made_rules(alloc: Global, tables: &Tables, pairs: Vec<RulePair>) -> Result<Rules, AllocError>
    requires limits { KeepsLimits tables.now }
    requires demand { demand_sum tables.now tables.now.papers ≤ MOST_DEMAND_IN_ALL }
    requires pairs { pairs.items ≡ candidates tables.now }
    requires few { length pairs.items ≤ MOST_PAIRS }
    requires within { All IsPair pairs.items }
    ensures { IfOk result (λ rules. rules ≡ made_rules tables.now) }
{
    let limit = tables.settings.limit();
    let papers = rule_papers(alloc, tables)?;
    let reviewers = rule_reviewers(alloc, tables)?;
    Rules::of_tested(alloc, RULES_TICKETS, limit, papers, reviewers, pairs)
}

// The rules, where the pairs aren't too many.
fn few_pairs(alloc: Global, tables: &Tables) -> Result<Rules, VenueFault>
    requires limits { KeepsLimits tables.now }
    requires demand { demand_sum tables.now tables.now.papers ≤ MOST_DEMAND_IN_ALL }
    ensures { AnswersRules result (if_few_pairs tables.now) }
{
    let found = candidates(alloc, tables)?;
    let count = found.count;
    if count > MOST_PAIRS as u64 {
        return Err(VenueFault::Limit(LimitFault::TooManyPairs { count }));
    }
    let rules = made_rules(alloc, tables, found.pairs)?;
    Ok(rules)
}

// The rules, where no lock is forbidden.
fn unlocked(alloc: Global, tables: &Tables) -> Result<Rules, VenueFault>
    requires limits { KeepsLimits tables.now }
    requires demand { demand_sum tables.now tables.now.papers ≤ MOST_DEMAND_IN_ALL }
    ensures { AnswersRules result (if_no_lock tables.now (forbidden_in tables.now tables.now.marks)) }
{
    match forbidden_lock(alloc, tables)? {
        None => few_pairs(alloc, tables),
        Some(PairKey { paper, reviewer }) => {
            Err(VenueFault::Limit(LimitFault::LockForbidden { paper, reviewer }))
        }
    }
}

/// The rules of a venue of these tables, or the first limit that they pass: too much demand, then a forbidden lock,
/// then too many pairs.
pub fn rules_of(alloc: Global, tables: &Tables) -> Result<Rules, VenueFault>
    requires { KeepsLimits tables.now }
    ensures { AnswersRules result (rules_of tables.now) }
{
    let sum = demand_sum(tables);
    if sum > MOST_DEMAND_IN_ALL as u64 {
        return Err(VenueFault::Limit(LimitFault::TooMuchDemand { sum }));
    }
    unlocked(alloc, tables)
}
