// Between which bounds the amounts of pairs, papers, groups and reviewers lie.

use match_rules::Shares;

/// The bounds of an amount.
#[derive(Clone, Copy)]
pub struct Span {
    /// The least amount.
    pub floor: u64,
    /// The greatest amount.
    pub room: u64,
}

/// Which amounts the circulations of a network are.
#[derive(Clone, Copy)]
pub enum Amounts<'a> {
    /// Shares of the pairs, counted in tickets; the cost of one is minus its score.
    Tickets,
    /// Counts of one whole assignment: the amount of each pair, paper, group and reviewer in the shares, divided by the
    /// tickets that are left and rounded down or up. Nothing has a cost.
    Rounded {
        /// The tickets of each pair that are still to be given.
        shares: &'a Shares,
        /// The tickets that are left, at least 1.
        left: u32,
    },
}
