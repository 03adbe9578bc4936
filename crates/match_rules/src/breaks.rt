// What may be wrong with an answer.

/// A broken clause of the check, with its numbers. Pieces, pairs, papers, groups and reviewers are places.
#[derive(Clone, Copy)]
pub enum Break {
    /// Clause 1: the weights don't sum to the tickets.
    Tickets {
        sum: u64,
    },
    /// Clause 2: a piece hasn't a paper as often as its demand.
    Demand {
        piece: u32,
        paper: u32,
        count: u32,
    },
    /// Clause 3: a piece hasn't a reviewer from least to greatest times.
    Load {
        piece: u32,
        reviewer: u32,
        count: u32,
    },
    /// Clause 4: a piece has a group more often than the limit.
    Group {
        piece: u32,
        group: u32,
        count: u32,
    },
    /// Clause 5: a piece hasn't a locked pair.
    Lock {
        piece: u32,
        pair: u32,
    },
    /// Clause 6: the weights of the pieces with a pair don't sum to its share.
    Share {
        pair: u32,
        printed: u64,
        counted: u64,
    },
    /// Clause 7: that sum is above the cap of the pair.
    Cap {
        pair: u32,
    },
    /// Clause 8: a pair below the threshold has a share.
    Below {
        pair: u32,
    },
    /// Clause 9: no pair that isn't locked has the score of the threshold.
    NoSuchScore {
        score: i64,
    },
    /// Clause 10: the cut above the threshold isn't violated.
    Above {
        need: u64,
        room: u64,
    },
    /// Clause 11: the shares don't make the total.
    Total {
        printed: i128,
        counted: i128,
    },
    /// Clause 12: the total isn't the bound of the prices.
    Bound {
        total: i128,
        bound: i128,
    },
    /// Clause 13: the printed need and room aren't those of the cut.
    Counted {
        need: u64,
        room: u64,
    },
    /// Clause 14: the need isn't greater than the room.
    NotViolated {
        need: u64,
        room: u64,
    },
}
