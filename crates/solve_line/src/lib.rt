// From rules to a verdict: a lottery with the evidence that it is best, or a cut that shows that none fits.
#![tactic(auto)]

mod blocking;
mod solving;
mod verdict;
mod winning;

pub use solving::solve;
pub use verdict::{Unsolved, Verdict};
