// The greatest feasible threshold of the fair mode.
//
// Only pairs with at least the threshold take part, locked pairs aside. The threshold is free where some lottery fits with the
// locked pairs alone, and else the greatest score s of a pair that isn't locked such that some lottery fits with the scores
// s and more. Whether something fits under a sieve is a circulation at no cost, or a violated cut. The fewer pairs, the
// less fits. So the search goes down from above: a cut stays violated for all scores down to one that its own pairs say, which is
// tried next (Newton's method for parametric cuts). The first cut is that round the paper which comes to its demand last, and is
// found without a flow. Where that doesn't end the search, it halves the scores between one at which shares fit and one above
// which a cut is violated. Shares fit with the least score that they use, so that few networks are solved.
//
// Contracts and the answer don't depend on the order in which scores are tried: a threshold is unique.
#![tactic(auto)]

mod descent;
mod first_cut;
mod found;
mod known;
mod levels;
mod lowering;
mod narrowing;
mod offers;
mod probing;
mod scores;
mod thresholds;
mod unpriced;

pub use found::{FoundLevel, Threshold};
pub use levels::level_of;
pub use thresholds::threshold;
