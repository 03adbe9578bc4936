// Answers to rules: a lottery with its evidence, or a cut that forbids all.

ghost use Rattle.std.specs.Prelude.{◌≡◌, IfOk};

use crate::lists::{Places, PriceList, Shares};
use crate::lottery::Lottery;
use std::alloc::{AllocError, Global};

/// The greatest magnitude of a price, in 10^-6 of a score.
pub const MOST_PRICE: u64 = 10_000_000_000_000_000;

/// The greatest magnitude of a total, in 10^-6 of a score over all tickets.
pub const MOST_TOTAL: u64 = 1_000_000_000_000_000_000;

/// What was asked for.
#[derive(Clone, Copy)]
pub enum Mode {
    /// A lottery of greatest expected score.
    Whole,
    /// The same, among the pairs that pass the greatest feasible threshold.
    Fair,
}

/// On which side of the marked nodes a cut counts.
#[derive(Clone, Copy)]
pub enum Side {
    /// What has to enter the marked nodes is more than may leave them.
    Into,
    /// What has to leave the marked nodes is more than may enter them.
    OutOf,
}

/// Which candidate pairs are kept; every sieve keeps the locked pairs.
#[derive(Clone, Copy)]
pub enum Sieve {
    /// All pairs.
    All,
    /// The pairs with at least this score.
    AtLeast {
        /// In 10^-6.
        score: i64,
    },
    /// The pairs with a greater score.
    Above {
        /// In 10^-6.
        score: i64,
    },
}

impl Sieve {
    ghost use Rattle.match_rules.specs.Assignments.{lets_pass};

    /// Whether a score passes.
    pub fn lets_pass(self, score: i64) -> bool
        ensures { result ≡ lets_pass self score }
    {
        match self {
            Sieve::All => true,
            Sieve::AtLeast { score: least } => least <= score,
            Sieve::Above { score: bound } => bound < score,
        }
    }
}

/// Marked papers, groups and reviewers: evidence that nothing fits, where more has to pass than may pass.
#[derive(Drop)]
pub struct Cut {
    /// Which way is counted.
    pub side: Side,
    /// The places of the marked papers, strictly ascending.
    pub papers: Places,
    /// The places of the marked groups, strictly ascending.
    pub groups: Places,
    /// The places of the marked reviewers, strictly ascending.
    pub reviewers: Places,
}

impl Cut {
    /// An equal cut.
    pub fn copy(&self, alloc: Global) -> Result<Self, AllocError>
        ensures { IfOk result (λ copy. copy ≡ self.now) }
    {
        let papers = self.papers.copy(alloc)?;
        let groups = self.groups.copy(alloc)?;
        let reviewers = self.reviewers.copy(alloc)?;
        Ok(Cut {
            side: self.side,
            papers,
            groups,
            reviewers,
        })
    }
}

/// The greatest feasible score threshold of the fair mode.
#[derive(Drop)]
pub enum Level {
    /// The mode is whole: no threshold was asked for.
    Unasked,
    /// A lottery fits with the locked pairs alone.
    Free,
    /// The greatest score at which something fits.
    At {
        /// In 10^-6, of magnitude at most 8,000,000,000.
        score: i64,
        /// Shows that nothing fits with greater scores alone.
        cut: Cut,
    },
}

impl Level {
    /// An equal level.
    pub fn copy(&self, alloc: Global) -> Result<Self, AllocError>
        ensures { IfOk result (λ copy. copy ≡ self.now) }
    {
        match self {
            Level::Unasked => Ok(Level::Unasked),
            Level::Free => Ok(Level::Free),
            Level::At { score, cut } => {
                let cut = cut.copy(alloc)?;
                Ok(Level::At { score: *score, cut })
            }
        }
    }
}

/// A price for each paper, group and reviewer, in 10^-6 of a score.
#[derive(Drop)]
pub struct Prices {
    /// By the places of the papers.
    pub papers: PriceList,
    /// By the places of the groups.
    pub groups: PriceList,
    /// By the places of the reviewers.
    pub reviewers: PriceList,
}

impl Prices {
    /// Equal prices.
    pub fn copy(&self, alloc: Global) -> Result<Self, AllocError>
        ensures { IfOk result (λ copy. copy ≡ self.now) }
    {
        let papers = self.papers.copy(alloc)?;
        let groups = self.groups.copy(alloc)?;
        let reviewers = self.reviewers.copy(alloc)?;
        Ok(Prices {
            papers,
            groups,
            reviewers,
        })
    }
}

/// A lottery with the evidence that it is best.
#[derive(Drop)]
pub struct Winning {
    /// What was asked for.
    pub mode: Mode,
    /// The threshold, in the fair mode.
    pub level: Level,
    /// The total over all tickets, in 10^-6 of a score.
    pub total: i128,
    /// The prices whose bound is the total.
    pub prices: Prices,
    /// The tickets of each pair.
    pub shares: Shares,
    /// The whole assignments.
    pub lottery: Lottery,
}

impl Winning {
    /// An equal lottery with its evidence.
    pub fn copy(&self, alloc: Global) -> Result<Self, AllocError>
        ensures { IfOk result (λ copy. copy ≡ self.now) }
    {
        let shares = self.shares.copy(alloc)?;
        let lottery = self.lottery.copy(alloc)?;
        let prices = self.prices.copy(alloc)?;
        let level = self.level.copy(alloc)?;
        Ok(Winning {
            mode: self.mode,
            level,
            total: self.total,
            prices,
            shares,
            lottery,
        })
    }
}

/// A cut that shows that no lottery fits.
#[derive(Drop)]
pub struct Blocked {
    /// What was asked for.
    pub mode: Mode,
    /// The cut.
    pub cut: Cut,
    /// What has to pass the cut, in tickets.
    pub need: u64,
    /// What may pass the cut, in tickets.
    pub room: u64,
}

impl Blocked {
    /// An equal cut with its numbers.
    pub fn copy(&self, alloc: Global) -> Result<Self, AllocError>
        ensures { IfOk result (λ copy. copy ≡ self.now) }
    {
        let cut = self.cut.copy(alloc)?;
        Ok(Blocked {
            mode: self.mode,
            cut,
            need: self.need,
            room: self.room,
        })
    }
}

/// The answer to rules.
#[derive(Drop)]
pub enum Answer {
    /// A best lottery.
    Lottery(Winning),
    /// No lottery fits.
    Infeasible(Blocked),
}

impl Answer {
    /// An equal answer.
    pub fn copy(&self, alloc: Global) -> Result<Self, AllocError>
        ensures { IfOk result (λ copy. copy ≡ self.now) }
    {
        match self {
            Answer::Lottery(winning) => {
                let winning = winning.copy(alloc)?;
                Ok(Answer::Lottery(winning))
            }
            Answer::Infeasible(blocked) => {
                let blocked = blocked.copy(alloc)?;
                Ok(Answer::Infeasible(blocked))
            }
        }
    }
}
