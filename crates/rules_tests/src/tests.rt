// The calls that no program makes, with ample memory: copies of rules and of answers, and the assignment of counts.

use match_rules::{
    Answer, Blocked, Cut, Institution, Level, Lottery, Mode, PaperId, Piece, Places, PriceList,
    Prices, ReviewerId, RulePair, RulePaper, RuleReviewer, Rules, Shares, Side, Winning,
    chosen_places,
};
use std::alloc::{AllocError, Global};
use std::test::Fail;

fn papers(alloc: Global) -> Result<Vec<RulePaper>, AllocError> {
    let Ok(id) = PaperId::read(alloc, "p1") else {
        return Err(AllocError);
    };
    let mut papers = Vec::new(alloc);
    papers.push(RulePaper { id, demand: 1 })?;
    Ok(papers)
}

fn institution(alloc: Global) -> Result<Option<Institution>, AllocError> {
    match Institution::read(alloc, "u") {
        Ok(institution) => Ok(Some(institution)),
        Err(_) => Err(AllocError),
    }
}

fn reviewers(alloc: Global) -> Result<Vec<RuleReviewer>, AllocError> {
    let institution = institution(alloc)?;
    let Ok(id) = ReviewerId::read(alloc, "r1") else {
        return Err(AllocError);
    };
    let mut reviewers = Vec::new(alloc);
    reviewers.push(RuleReviewer {
        id,
        institution,
        least: 0,
        greatest: 1,
    })?;
    Ok(reviewers)
}

fn pairs(alloc: Global) -> Result<Vec<RulePair>, AllocError> {
    let pair = RulePair {
        paper: 0,
        reviewer: 0,
        score: 500_000,
        floor: 0,
        cap: 10_000,
    };
    Vec::from_slice(alloc, &[pair])
}

// One paper, one reviewer of an institution, and their pair.
fn rules(alloc: Global) -> Result<Rules, AllocError> {
    let pairs = pairs(alloc)?;
    let papers = papers(alloc)?;
    let reviewers = reviewers(alloc)?;
    match Rules::new(alloc, 1, papers, reviewers, pairs) {
        Ok(rules) => Ok(rules),
        Err(_) => Err(AllocError),
    }
}

fn places(alloc: Global) -> Result<Places, AllocError> {
    Ok(Places::from_vec(Vec::from_slice(alloc, &[0])?))
}

fn cut(alloc: Global) -> Result<Cut, AllocError> {
    Ok(Cut {
        side: Side::Into,
        papers: places(alloc)?,
        groups: places(alloc)?,
        reviewers: places(alloc)?,
    })
}

fn price(alloc: Global) -> Result<PriceList, AllocError> {
    Ok(PriceList::from_vec(Vec::from_slice(alloc, &[0])?))
}

fn prices(alloc: Global) -> Result<Prices, AllocError> {
    Ok(Prices {
        papers: price(alloc)?,
        groups: price(alloc)?,
        reviewers: price(alloc)?,
    })
}

// All tickets for the pair.
fn lottery(alloc: Global) -> Result<Lottery, AllocError> {
    let pairs = chosen_places(alloc, &[1])?;
    let mut pieces = Vec::new(alloc);
    pieces.push(Piece {
        weight: 10_000,
        pairs,
    })?;
    Lottery::new(pieces).ok().ok_or(AllocError)
}

fn winning(alloc: Global) -> Result<Answer, AllocError> {
    let shares = Shares::from_vec(Vec::from_slice(alloc, &[10_000])?);
    let lottery = lottery(alloc)?;
    let prices = prices(alloc)?;
    let cut = cut(alloc)?;
    Ok(Answer::Lottery(Winning {
        mode: Mode::Fair,
        level: Level::At {
            score: 500_000,
            cut,
        },
        total: 5_000_000_000,
        prices,
        shares,
        lottery,
    }))
}

fn blocked(alloc: Global) -> Result<Answer, AllocError> {
    Ok(Answer::Infeasible(Blocked {
        mode: Mode::Whole,
        cut: cut(alloc)?,
        need: 20_000,
        room: 10_000,
    }))
}

// A copy of the rules.
fn copied_rules(alloc: Global) -> Result<Rules, AllocError> {
    let rules = rules(alloc)?;
    rules.copy(alloc)
}

// A copy of an answer.
fn copied(alloc: Global, answer: Answer) -> Result<Answer, AllocError> {
    answer.copy(alloc)
}

#[test]
fn rules_are_copied(rt: HostRuntime) -> Result<(), Fail> {
    copied_rules(rt.alloc())?;
    Ok(())
}

#[test]
fn lotteries_are_copied(rt: HostRuntime) -> Result<(), Fail> {
    copied(rt.alloc(), winning(rt.alloc())?)?;
    Ok(())
}

#[test]
fn cuts_are_copied(rt: HostRuntime) -> Result<(), Fail> {
    copied(rt.alloc(), blocked(rt.alloc())?)?;
    Ok(())
}
