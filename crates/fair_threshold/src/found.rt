// What is found of the level of rules in the fair mode.

use match_rules::{Cut, Shares};

/// The level of rules in the fair mode, as shares and cuts show it before a lottery is made.
#[derive(Drop)]
pub enum FoundLevel {
    /// Some lottery fits with the locked pairs alone.
    Free,
    /// The greatest score of a pair that isn't locked at which shares fit.
    At {
        /// In 10^-6, of magnitude at most 8,000,000,000.
        score: i64,
        /// Shares that fit with this score and greater ones.
        shares: Shares,
        /// Shows that nothing fits with greater scores alone.
        cut: Cut,
    },
    /// Nothing fits.
    NoneFits {
        /// Shows it, with all pairs.
        cut: Cut,
    },
}

/// The greatest feasible threshold of rules.
#[derive(Drop)]
pub enum Threshold {
    /// Some lottery fits with the locked pairs alone.
    Free,
    /// The greatest score of a pair that isn't locked such that some lottery fits with this score and greater ones.
    At {
        /// In 10^-6, of magnitude at most 8,000,000,000.
        score: i64,
        /// Shows that nothing fits with greater scores alone.
        cut: Cut,
    },
    /// No lottery fits.
    NoneFits {
        /// Shows it, with all pairs.
        cut: Cut,
    },
}
