// The pairs of a made conference, in the order in which their numbers are drawn.
ghost use Rattle.std.specs.Prelude.{◌≡◌, ◌+◌, ◌*◌, ◌≤◌, ◌++◌, ℕ, IfOk, OnOk};
ghost use Rattle.std.specs.List.{flat_map, range_with_len};
ghost use Rattle.made_conference.specs.Numbers.{state_after};
ghost use Rattle.made_conference.specs.Pairs.{made_pair, made_pairs, pairs_before, paper_pairs};

use crate::bids::{Bid, picked_bid};
use crate::numbers::Numbers;
use std::alloc::{AllocError, Global};

/// The most blocks of a made conference.
pub const MOST_BLOCKS: u32 = 25;

/// How many papers a block has.
pub(crate) const BLOCK_PAPERS: u32 = 60;

/// How many reviewers a block has.
pub(crate) const BLOCK_REVIEWERS: u32 = 45;

/// A paper and a reviewer of its block, by their numbers, with a value in ten-thousandths and maybe a bid.
#[derive(Clone, Copy)]
pub(crate) struct MadePair {
    pub paper: u32,
    pub reviewer: u32,
    pub value: u32,
    pub bid: Option<Bid>,
}

// Draws twice: the value of a pair, and then its bid.
fn made_pair(numbers: &mut Numbers, paper: u32, reviewer: u32) -> MadePair
    ghost seed: { ℕ }
    requires { numbers.old.state ≡ state_after seed (2 * pairs_before paper reviewer) }
    ensures pair { result ≡ made_pair seed paper reviewer }
    ensures state { numbers.new.state ≡ state_after seed (2 * pairs_before paper reviewer + 2) }
{
    let first = numbers.draw();
    let second = numbers.draw();
    MadePair {
        paper,
        reviewer,
        value: first % 10_001,
        bid: picked_bid(second % 6),
    }
}

// Puts the pairs of a paper behind those of the papers before it.
fn push_pairs(
    numbers: &mut Numbers,
    paper: u32,
    pairs: &mut Vec<MadePair>,
) -> Result<(), AllocError>
    ghost seed: { ℕ }
    requires { numbers.old.state ≡ state_after seed (90 * paper) }
    ensures pairs { OnOk result (pairs.new.items ≡ pairs.old.items ++ paper_pairs seed paper) }
    ensures state { OnOk result (numbers.new.state ≡ state_after seed (90 * (paper + 1))) }
{
    let first = BLOCK_REVIEWERS * (paper / BLOCK_PAPERS);
    for reviewer in first..first + BLOCK_REVIEWERS {
        pairs.push(made_pair(numbers, paper, reviewer))?;
    }
    Ok(())
}

// The pairs of so many papers, from the first on.
fn pairs_of(alloc: Global, mut numbers: Numbers, papers: u32) -> Result<Vec<MadePair>, AllocError>
    ghost seed: { ℕ }
    requires { numbers.state ≡ seed }
    ensures { IfOk result (λ pairs. pairs.items ≡ flat_map (paper_pairs seed) (range_with_len 0 papers)) }
{
    let mut pairs = Vec::new(alloc);
    for paper in 0..papers {
        push_pairs(&mut numbers, paper, &mut pairs)?;
    }
    Ok(pairs)
}

/// All pairs of a made conference of so many blocks.
#[tactic(auto, unfolding(crate::specs::Pairs::made_pairs))]
pub(crate) fn made_pairs(alloc: Global, seed: u64, size: u32) -> Result<Vec<MadePair>, AllocError>
    requires { size ≤ MOST_BLOCKS }
    ensures { IfOk result (λ pairs. pairs.items ≡ made_pairs seed size) }
{
    pairs_of(alloc, Numbers::new(seed), BLOCK_PAPERS * size)
}
