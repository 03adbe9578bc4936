// The first place at which papers, reviewers or pairs break a condition.

ghost use Rattle.std.specs.Prelude.{◌≡◌, ◌+◌, ◌<◌, ◌≤◌, ◌↔◌, length, take, IsTrue, IfSome, IsNone, ℕ, List, Some, true};
ghost use Rattle.match_rules.specs.Id.{is_institution};
ghost use Rattle.match_rules.specs.Rules.{ArePapers, AreReviewers, ArePairs, IsPair, IsPairBefore, IsFirstFault};
ghost use Rattle.match_rules.specs.NextRows.{demand_below, IsNextPaper, IsNextReviewer, IsNextPair};

use crate::magnitudes::is_within;
use crate::rules::{
    MOST_DEMAND, MOST_DEMAND_IN_ALL, MOST_LOAD, MOST_PAIRS, MOST_PAPERS, MOST_REVIEWERS,
    MOST_SCORE, RulePair, RulePaper, RuleReviewer,
};

// Whether a paper may follow the papers before it, which demand this many reviewers.
fn is_next_paper(papers: &[RulePaper], p: usize, before: u32) -> bool
    requires within { p < length papers.now }
    requires before { before ≡ demand_below papers.now p }
    requires few { before ≤ MOST_DEMAND_IN_ALL }
    ensures { IsTrue result ↔ IsNextPaper papers.now p }
{
    let paper = &papers[p];
    // What was read as an id is one.
    let _text = paper.id.text();
    if p >= MOST_PAPERS as usize {
        return false;
    }
    if paper.demand > MOST_DEMAND {
        return false;
    }
    if before + paper.demand > MOST_DEMAND_IN_ALL {
        return false;
    }
    if p == 0 {
        return true;
    }
    papers[p - 1].id.cmp(&paper.id).is_lt()
}

pub(crate) fn paper_fault(papers: &[RulePaper]) -> Option<u32>
    ensures fault { IfSome result (λ place. IsFirstFault (λ n. ArePapers (take n papers.now)) (length papers.now) place) }
    ensures none { IsNone result ↔ ArePapers papers.now }
{
    let mut before = 0;
    for p in 0..papers.len() {
        if !is_next_paper(papers, p, before) {
            return Some(p as u32);
        }
        before += papers[p].demand;
    }
    None
}

fn has_loads(reviewer: &RuleReviewer) -> bool
    ensures { IsTrue result ↔ ((reviewer.now.least ≤ reviewer.now.greatest) × (reviewer.now.greatest ≤ MOST_LOAD)) }
{
    reviewer.least <= reviewer.greatest && reviewer.greatest <= MOST_LOAD
}

// What was read as the name of an institution is one.
fn read_institution(reviewer: &RuleReviewer)
    ensures { (name : List ℕ) → reviewer.now.institution ≡ Some name → is_institution name ≡ true }
{
    if let Some(name) = &reviewer.institution {
        let _text = name.text();
    }
}

// Whether a reviewer may follow the reviewers before.
fn is_next_reviewer(reviewers: &[RuleReviewer], r: usize) -> bool
    requires { r < length reviewers.now }
    ensures { IsTrue result ↔ IsNextReviewer reviewers.now r }
{
    let reviewer = &reviewers[r];
    // What was read as an id is one.
    let _text = reviewer.id.text();
    read_institution(reviewer);
    if r >= MOST_REVIEWERS as usize {
        return false;
    }
    if !has_loads(reviewer) {
        return false;
    }
    if r == 0 {
        return true;
    }
    reviewers[r - 1].id.cmp(&reviewer.id).is_lt()
}

pub(crate) fn reviewer_fault(reviewers: &[RuleReviewer]) -> Option<u32>
    ensures fault { IfSome result (λ place. IsFirstFault (λ n. AreReviewers (take n reviewers.now)) (length reviewers.now) place) }
    ensures none { IsNone result ↔ AreReviewers reviewers.now }
{
    for r in 0..reviewers.len() {
        if !is_next_reviewer(reviewers, r) {
            return Some(r as u32);
        }
    }
    None
}

// Whether a pair is of known places, with numbers within their limits, in rules of a number of tickets.
fn is_pair(tickets: u32, papers: usize, reviewers: usize, pair: &RulePair) -> bool
    ensures { IsTrue result ↔ IsPair tickets papers reviewers pair.now }
{
    if pair.paper as usize >= papers {
        return false;
    }
    if pair.reviewer as usize >= reviewers {
        return false;
    }
    if !is_within(MOST_SCORE, i128::from(pair.score)) {
        return false;
    }
    if pair.floor != 0 && pair.floor != tickets {
        return false;
    }
    if pair.floor > pair.cap {
        return false;
    }
    pair.cap <= tickets
}

// Whether a pair may follow the pairs before it.
fn is_next_pair(tickets: u32, papers: usize, reviewers: usize, pairs: &[RulePair], e: usize) -> bool
    requires { e < length pairs.now }
    ensures { IsTrue result ↔ IsNextPair tickets papers reviewers pairs.now e }
{
    if e >= MOST_PAIRS as usize {
        return false;
    }
    let pair = &pairs[e];
    if !is_pair(tickets, papers, reviewers, pair) {
        return false;
    }
    if e == 0 {
        return true;
    }
    pairs[e - 1].is_before(pair)
}

pub(crate) fn pair_fault(
    tickets: u32,
    papers: usize,
    reviewers: usize,
    pairs: &[RulePair],
) -> Option<u32>
    ensures fault { IfSome result (λ place. IsFirstFault (λ n. ArePairs tickets papers reviewers (take n pairs.now)) (length pairs.now) place) }
    ensures none { IsNone result ↔ ArePairs tickets papers reviewers pairs.now }
{
    for e in 0..pairs.len() {
        if !is_next_pair(tickets, papers, reviewers, pairs, e) {
            return Some(e as u32);
        }
    }
    None
}
