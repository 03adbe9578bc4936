// How far down a cut stays violated (Newton's method on the scores: the cut of one score says the next one to try).

ghost use Rattle.std.specs.Prelude.{◌<◌, ◌≤ℤ◌, IfOk, IfSome, length, pos};
ghost use Rattle.match_rules.specs.declared.answer.Sieve.TheVariants.{Above};
ghost use Rattle.match_rules.specs.Answers.{CutMatches};
ghost use Rattle.match_rules.specs.Evidence.{Violated};
ghost use Rattle.match_rules.specs.Rules.{most_score};

use crate::offers::{Offer, offer_of, score_for};
use dual_check::{Excess, excess, is_violated};
use match_rules::{Cut, MOST_SCORE, Places, Rules, Side, Sieve};
use std::alloc::{AllocError, Global};

/// A score that no pair passes.
pub(crate) const TOP: i64 = MOST_SCORE as i64;

// Whether a place is among marked ones.
fn is_marked(places: &Places, place: u32) -> bool {
    places.as_slice().binary_search(&place).is_ok()
}

// Whether the tickets of a pair are among those that may pass a cut.
fn may_pass(rules: &Rules, cut: &Cut, place: u32) -> bool
    requires { place < length rules.now.pairs }
{
    let pair = rules.pairs()[place as usize];
    let head = is_marked(&cut.reviewers, pair.reviewer);
    let tail = match rules.group_of(place) {
        Some(group) => is_marked(&cut.groups, group),
        None => is_marked(&cut.papers, pair.paper),
    };
    match cut.side {
        Side::Into => tail && !head,
        Side::OutOf => head && !tail,
    }
}

// What the pairs offer that may pass a cut and aren't locked.
fn passing_offers(alloc: Global, rules: &Rules, cut: &Cut) -> Result<Vec<Offer>, AllocError> {
    let mut offers = Vec::new(alloc);
    for place in 0..rules.pairs().len() as u32 {
        let pair = rules.pairs()[place as usize];
        if pair.floor != rules.tickets() && may_pass(rules, cut, place) {
            offers.push(offer_of(rules, pair))?;
        }
    }
    Ok(offers)
}

// The greatest score with which as much may pass a cut as has to, if there is one.
fn passing_score(alloc: Global, rules: &Rules, cut: &Cut) -> Result<Option<i64>, AllocError>
    requires { CutMatches rules.now cut.now }
{
    let Excess { need, room } = excess(rules, Sieve::Above { score: TOP }, cut);
    let mut offers = passing_offers(alloc, rules, cut)?;
    Ok(score_for(&mut offers, need.saturating_sub(room)))
}

/// A score above which a cut is violated: the least one, which is that of a pair. There is none where the cut is violated with
/// all pairs, or isn't with the locked ones.
///
/// Time is that of sorting the pairs that may pass the cut by their scores.
pub(crate) fn lowest(alloc: Global, rules: &Rules, cut: &Cut) -> Result<Option<i64>, AllocError>
    requires { CutMatches rules.now cut.now }
    ensures low { IfOk result (λ found. IfSome found (λ score. score ≤ℤ pos most_score)) }
    ensures above { IfOk result (λ found. IfSome found (λ score. Violated rules.now (Above score) cut.now)) }
{
    let Some(score) = passing_score(alloc, rules, cut)? else {
        return Ok(None);
    };
    if score > TOP {
        return Ok(None);
    }
    let serves = is_violated(rules, Sieve::Above { score }, cut);
    if serves { Ok(Some(score)) } else { Ok(None) }
}
