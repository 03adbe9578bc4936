// A first cut, guessed without a flow: that round the paper which comes to its demand last when the pairs come in the order of
// their scores, the greatest first. No threshold is above the score at which it does.

ghost use Rattle.std.specs.Prelude.{◌<◌, length};

use crate::offers::{Offer, offer_of, score_for};
use match_rules::{Cut, Places, Rules, Side};
use std::alloc::{AllocError, Global};

// Puts the offers of a paper's pairs in the place of those that there are.
fn take_offers(rules: &Rules, paper: u32, offers: &mut Vec<Offer>) -> Result<(), AllocError> {
    offers.clear();
    let pairs = rules.pairs();
    let first = pairs.partition_point(|pair| pair.paper < paper);
    for pair in pairs.iter().skip(first) {
        if pair.paper != paper {
            break;
        }
        offers.push(offer_of(rules, *pair))?;
    }
    Ok(())
}

// The score at which a paper comes to its demand, and the least number where it never does.
fn score_of_paper(rules: &Rules, paper: u32, offers: &mut Vec<Offer>) -> Result<i64, AllocError>
    requires { paper < length rules.now.papers }
{
    take_offers(rules, paper, offers)?;
    let demand = rules.papers()[paper as usize].demand;
    let tickets = u64::from(rules.tickets()) * u64::from(demand);
    match score_for(offers, tickets) {
        Some(score) => Ok(score),
        None => Ok(i64::MIN),
    }
}

// The first of the papers with the least such score; 0 where there is no paper.
fn last_paper(alloc: Global, rules: &Rules) -> Result<u32, AllocError> {
    let mut offers = Vec::new(alloc);
    let mut last = 0;
    let mut least = i64::MAX;
    for paper in 0..rules.papers().len() as u32 {
        let score = score_of_paper(rules, paper, &mut offers)?;
        if score < least {
            last = paper;
            least = score;
        }
    }
    Ok(last)
}

// The groups of a paper, ascending.
fn groups_of(alloc: Global, rules: &Rules, paper: u32) -> Result<Vec<u32>, AllocError> {
    let mut groups = Vec::new(alloc);
    for group in 0..rules.group_count() {
        if rules.group_at(group).paper == paper {
            groups.push(group)?;
        }
    }
    Ok(groups)
}

/// The cut into the paper that comes to its demand last, with its groups, so that the paper's pairs alone leave it. Whether it
/// is a cut of the rules and violated is to be tested: where there is no paper it isn't.
///
/// Time is that of sorting each paper's pairs by their scores.
pub(crate) fn first_cut(alloc: Global, rules: &Rules) -> Result<Cut, AllocError> {
    let paper = last_paper(alloc, rules)?;
    let mut papers = Vec::new(alloc);
    papers.push(paper)?;
    let groups = groups_of(alloc, rules, paper)?;
    Ok(Cut {
        side: Side::Into,
        papers: Places::from_vec(papers),
        groups: Places::from_vec(groups),
        reviewers: Places::from_vec(Vec::new(alloc)),
    })
}
