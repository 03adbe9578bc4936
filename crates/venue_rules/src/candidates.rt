// The candidate pairs of a venue.

ghost use Rattle.std.specs.Prelude.{◌≡◌, ◌<◌, ◌≤◌, ◌+◌, ◌*◌, ◌^◌, ◌||◌, ◌++◌, ◌∷◌, [], List, pos, neg_ℤ, IfOk, IsTrue, OnOk};
ghost use Rattle.std.specs.Ordering.{int_eq};
ghost use Rattle.venue_rules.specs.Candidates.{do_share, is_listed, pair_of, pairs_of_paper, candidates, tickets_of};
ghost use Rattle.venue_rules.specs.Found.{AreFound, IsPair, candidate_at, scores_of};
ghost use Rattle.venue_rules.specs.Listed.{AreListed};
ghost use Rattle.venue_rules.specs.Venues.{IsCap, KeepsLimits, cap_of, mark_of};
ghost use Rattle.match_rules.specs.declared.rules.RulePair.{RulePair};

use crate::conflict::do_share;
use crate::listed::listed_places;
use crate::tables::Tables;
use match_rules::{MOST_PAIRS, RULES_TICKETS, RulePair};
use roster::{MOST_ROWS, PaperRow, ReviewerRow};
use score_spec::{PaperScores, Value};
use std::alloc::{AllocError, Global};

/// How many pairs were found, and the first 250,000 of them.
#[derive(Drop)]
pub(crate) struct Found {
    pub count: u64,
    pub pairs: Vec<RulePair>,
}

fn mark_of(tables: &Tables, paper: &PaperRow, reviewer: &ReviewerRow) -> i32
    ensures { result ≡ mark_of tables.now paper.now.id reviewer.now.id }
{
    match tables.marks.get(paper.id.text(), reviewer.id.text()) {
        Some(mark) => *mark,
        None => 0,
    }
}

fn is_forbidden(paper: &PaperRow, reviewer: &ReviewerRow, mark: i32) -> bool
    ensures { result ≡ (int_eq mark (neg_ℤ (pos 1)) || do_share paper.now reviewer.now) }
{
    mark == -1 || do_share(paper, reviewer)
}

fn cap_of(tables: &Tables, paper: &PaperRow, reviewer: &ReviewerRow) -> Value
    requires { KeepsLimits tables.now }
    ensures same { result ≡ cap_of tables.now paper.now.id reviewer.now.id }
    ensures within { IsCap result }
{
    match tables.caps.get(paper.id.text(), reviewer.id.text()) {
        Some(cap) => *cap,
        None => tables.settings.cap(),
    }
}

fn tickets_of(tables: &Tables, paper: &PaperRow, reviewer: &ReviewerRow) -> u32
    requires { KeepsLimits tables.now }
    ensures same { result ≡ tickets_of (cap_of tables.now paper.now.id reviewer.now.id) }
    ensures within { result ≤ RULES_TICKETS }
{
    let cap = cap_of(tables, paper, reviewer);
    cap.tenthousandths() as u32
}

/// A paper at its place in its table.
#[derive(Drop)]
struct PaperAt<'a> {
    place: u32,
    row: &'a PaperRow,
}

/// A reviewer at its place in its table.
#[derive(Drop)]
struct ReviewerAt<'a> {
    place: u32,
    row: &'a ReviewerRow,
}

fn locked_pair(paper: u32, reviewer: u32, score: i64) -> RulePair
    ensures { result ≡ record { paper = paper; reviewer = reviewer; score = score; floor = RULES_TICKETS; cap = RULES_TICKETS } }
{
    RulePair {
        paper,
        reviewer,
        score,
        floor: RULES_TICKETS,
        cap: RULES_TICKETS,
    }
}

fn pair_of(
    tables: &Tables,
    scores: &PaperScores,
    paper: &PaperAt,
    reviewer: &ReviewerAt,
    mark: i32,
) -> RulePair
    requires mark { mark ≡ mark_of tables.now paper.now.row.now.id reviewer.now.row.now.id }
    requires scores { scores.now ≡ scores_of tables.now paper.now.row.now }
    requires limits { KeepsLimits tables.now }
    ensures same { result ≡ pair_of tables.now paper.now.place paper.now.row.now reviewer.now.place reviewer.now.row.now }
    ensures within { IsPair result }
{
    let score = scores.score(reviewer.row.id.text());
    if mark == 1 {
        return locked_pair(paper.place, reviewer.place, score);
    }
    RulePair {
        paper: paper.place,
        reviewer: reviewer.place,
        score,
        floor: 0,
        cap: tickets_of(tables, paper.row, reviewer.row),
    }
}

fn add_pair(
    found: &mut Found,
    tables: &Tables,
    scores: &PaperScores,
    paper: &PaperAt,
    reviewer: &ReviewerAt,
    mark: i32,
) -> Result<(), AllocError>
    requires mark { mark ≡ mark_of tables.now paper.now.row.now.id reviewer.now.row.now.id }
    requires scores { scores.now ≡ scores_of tables.now paper.now.row.now }
    requires limits { KeepsLimits tables.now }
    requires room { found.old.count < 2 ^ 32 }
    ensures count { OnOk result (found.new.count ≡ found.old.count + 1) }
    ensures found { OnOk result ((pairs : List RulePair) → AreFound found.old pairs → AreFound found.new (pairs ++ pair_of tables.now paper.now.place paper.now.row.now reviewer.now.place reviewer.now.row.now ∷ [])) }
{
    found.count += 1;
    if found.count > MOST_PAIRS as u64 {
        return Ok(());
    }
    let pair = pair_of(tables, scores, paper, reviewer, mark);
    found.pairs.push(pair)?;
    Ok(())
}

// Adds the pair of a listed reviewer, if nothing forbids it.
fn add_listed(
    found: &mut Found,
    tables: &Tables,
    scores: &PaperScores,
    paper: &PaperAt,
    reviewer: &ReviewerAt,
) -> Result<(), AllocError>
    requires listed { IsTrue (is_listed tables.now paper.now.row.now reviewer.now.row.now) }
    requires scores { scores.now ≡ scores_of tables.now paper.now.row.now }
    requires limits { KeepsLimits tables.now }
    requires room { found.old.count < 2 ^ 32 }
    ensures count { OnOk result (found.new.count ≤ found.old.count + 1) }
    ensures found { OnOk result ((pairs : List RulePair) → AreFound found.old pairs → AreFound found.new (pairs ++ candidate_at tables.now paper.now.place paper.now.row.now reviewer.now.place reviewer.now.row.now)) }
{
    let mark = mark_of(tables, paper.row, reviewer.row);
    if is_forbidden(paper.row, reviewer.row, mark) {
        return Ok(());
    }
    add_pair(found, tables, scores, paper, reviewer, mark)
}

// Adds the candidates of a paper: it visits the reviewers that are listed for it, and no others.
fn add_paper(
    found: &mut Found,
    tables: &Tables,
    scores: &PaperScores,
    paper: &PaperAt,
    listed: &[u32],
) -> Result<(), AllocError>
    requires listed { AreListed tables.now paper.now.row.now listed.now }
    requires scores { scores.now ≡ scores_of tables.now paper.now.row.now }
    requires limits { KeepsLimits tables.now }
    requires room { found.old.count ≤ MOST_ROWS * MOST_ROWS }
    ensures count { OnOk result (found.new.count ≤ found.old.count + MOST_ROWS) }
    ensures found { OnOk result ((pairs : List RulePair) → AreFound found.old pairs → AreFound found.new (pairs ++ pairs_of_paper tables.now paper.now.place paper.now.row.now 0 tables.now.reviewers)) }
{
    let reviewers = tables.reviewers.rows();
    for j in listed {
        let reviewer = ReviewerAt {
            place: *j,
            row: &reviewers[*j as usize],
        };
        add_listed(found, tables, scores, paper, &reviewer)?;
    }
    Ok(())
}

/// The candidate pairs of a venue, by paper and then reviewer.
pub(crate) fn candidates(alloc: Global, tables: &Tables) -> Result<Found, AllocError>
    requires { KeepsLimits tables.now }
    ensures { IfOk result (λ found. AreFound found (candidates tables.now)) }
{
    let mut found = Found {
        count: 0,
        pairs: Vec::new(alloc),
    };
    for (i, row) in tables.papers.rows().iter().enumerate() {
        let listed = listed_places(alloc, tables, row)?;
        let spec = tables.settings.spec();
        let scores = PaperScores::new(alloc, spec, tables.scores, row.id.text())?;
        let paper = PaperAt {
            place: i as u32,
            row,
        };
        add_paper(&mut found, tables, &scores, &paper, listed.as_slice())?;
    }
    Ok(found)
}
