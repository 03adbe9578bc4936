// Lines of candidate pairs in the text of rules.
ghost use Rattle.std.specs.Prelude.{◌≡◌, ◌&&◌, List, Result, Ok};
ghost use Rattle.publication.specs.RulesReading.{are_numbers, is_pair_behind, pair_of, place_of, places_of, ranged_of, tickets_of};

use match_rules::{MOST_SCORE, RULES_TICKETS, RulePair};
use std::alloc::Global;
use text_lines::{
    LineCode, LineError, LineForm, five_fields, integer_from, is_canonical, is_canonical_signed,
    number_from,
};

/// Lines of a paper's and a reviewer's place, a score, a floor and a cap.
#[derive(Drop)]
pub struct PairForm {
    pub papers: u32,
    pub reviewers: u32,
}

impl LineForm for PairForm {
    type Item = RulePair;

    ghost ready = { λ form before. Unit {0} };

    ghost reads = { λ form before line. pair_of form.papers form.reviewers before line };

    fn read(
        &mut self,
        _alloc: Global,
        before: &[RulePair],
        line: &str,
    ) -> Result<RulePair, LineError> {
        Ok(read_pair(self.papers, self.reviewers, before, line)?)
    }
}

#[tactic(auto, unfolding(crate::specs::RulesReading::pair_of))]
fn read_pair(
    papers: u32,
    reviewers: u32,
    before: &[RulePair],
    line: &str,
) -> Result<RulePair, LineCode>
    ensures { result ≡ pair_of papers reviewers before.now line.now }
{
    let Some((paper, reviewer, score, floor, cap)) = five_fields(line) else {
        return Err(LineCode::Form);
    };
    if !are_numbers(paper, reviewer, score, floor, cap) {
        return Err(LineCode::Number);
    }
    let (paper, reviewer) = read_places(papers, reviewers, paper, reviewer)?;
    let score = integer_from(score, MOST_SCORE)?;
    let (floor, cap) = read_tickets(floor, cap)?;
    let pair = RulePair {
        paper,
        reviewer,
        score,
        floor,
        cap,
    };
    if !is_pair_behind(before, &pair) {
        return Err(LineCode::Order);
    }
    Ok(pair)
}

fn are_numbers(paper: &str, reviewer: &str, score: &str, floor: &str, cap: &str) -> bool
    ensures { result ≡ are_numbers (paper.now, reviewer.now, score.now, floor.now, cap.now) }
{
    is_canonical(paper.as_bytes())
        && (is_canonical(reviewer.as_bytes())
            && (is_canonical_signed(score.as_bytes())
                && (is_canonical(floor.as_bytes()) && is_canonical(cap.as_bytes()))))
}

// A place below a count.
fn read_place(count: u32, field: &str) -> Result<u32, LineCode>
    ensures { result ≡ place_of count field.now }
{
    let place = number_from(field, 0, count)?;
    if place < count {
        Ok(place)
    } else {
        Err(LineCode::Range)
    }
}

fn read_places(
    papers: u32,
    reviewers: u32,
    paper: &str,
    reviewer: &str,
) -> Result<(u32, u32), LineCode>
    ensures { result ≡ places_of papers reviewers paper.now reviewer.now }
{
    let paper = read_place(papers, paper)?;
    let reviewer = read_place(reviewers, reviewer)?;
    Ok((paper, reviewer))
}

// A floor of none or all tickets, and a cap from the floor on.
fn read_tickets(floor: &str, cap: &str) -> Result<(u32, u32), LineCode>
    ensures { result ≡ tickets_of floor.now cap.now }
{
    let cap = number_from(cap, 0, RULES_TICKETS)?;
    let floor = number_from(floor, 0, cap)?;
    if floor == 0 || floor == RULES_TICKETS {
        Ok((floor, cap))
    } else {
        Err(LineCode::Range)
    }
}

fn is_pair_behind(before: &[RulePair], pair: &RulePair) -> bool
    ensures { result ≡ is_pair_behind before.now pair.now }
{
    match before.last() {
        Some(last) => last.is_before(pair),
        None => true,
    }
}
