// The texts of the tables of a made conference.
ghost use Rattle.std.specs.Prelude.{◌≡◌, ◌++◌, IfOk, OnOk};
ghost use Rattle.made_conference.specs.Rows.{bid_lines};
ghost use Rattle.made_conference.specs.Tables.{papers_text, reviewers_text, values_text, bids_text};

use crate::lines::{bid_line, paper_line, reviewer_line, value_line};
use crate::pairs::MadePair;
use std::alloc::{AllocError, Global};

/// The table of so many papers.
pub(crate) fn papers_text(alloc: Global, papers: u32) -> Result<Vec<u8>, AllocError>
    ensures { IfOk result (λ text. text.items ≡ papers_text papers) }
{
    let mut text = Vec::new(alloc);
    for paper in 0..papers {
        text.extend_from_slice(paper_line(paper).as_slice())?;
    }
    Ok(text)
}

/// The table of so many reviewers.
pub(crate) fn reviewers_text(alloc: Global, reviewers: u32) -> Result<Vec<u8>, AllocError>
    ensures { IfOk result (λ text. text.items ≡ reviewers_text reviewers) }
{
    let mut text = Vec::new(alloc);
    for reviewer in 0..reviewers {
        text.extend_from_slice(reviewer_line(reviewer).as_slice())?;
    }
    Ok(text)
}

/// The table of the values of these pairs.
pub(crate) fn values_text(alloc: Global, pairs: &[MadePair]) -> Result<Vec<u8>, AllocError>
    ensures { IfOk result (λ text. text.items ≡ values_text pairs.now) }
{
    let mut text = Vec::new(alloc);
    for pair in pairs {
        text.extend_from_slice(value_line(pair).as_slice())?;
    }
    Ok(text)
}

/// The table of the bids of these pairs.
pub(crate) fn bids_text(alloc: Global, pairs: &[MadePair]) -> Result<Vec<u8>, AllocError>
    ensures { IfOk result (λ text. text.items ≡ bids_text pairs.now) }
{
    let mut text = Vec::new(alloc);
    for pair in pairs {
        push_bid(&mut text, pair)?;
    }
    Ok(text)
}

// Puts the line of a pair's bid behind the text, where it has one.
#[tactic(auto, unfolding(crate::specs::Rows::bid_lines))]
fn push_bid(text: &mut Vec<u8>, pair: &MadePair) -> Result<(), AllocError>
    ensures { OnOk result (text.new.items ≡ text.old.items ++ bid_lines pair.now) }
{
    if let Some(bid) = pair.bid {
        text.extend_from_slice(bid_line(pair, bid).as_slice())?;
    }
    Ok(())
}
