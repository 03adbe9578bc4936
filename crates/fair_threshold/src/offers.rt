// What pairs offer, and the score down to which offers are needed.
//
// Scores that are found here are guesses: what is made of them is tested.

use match_rules::{RulePair, Rules};

/// A pair's score, and how many tickets it can take.
#[derive(Clone, Copy)]
pub(crate) struct Offer {
    /// In 10^-6. A locked pair passes with each score, and so has the greatest one.
    pub(crate) score: i64,
    /// At most all tickets.
    pub(crate) cap: u32,
}

/// The offer of a pair.
pub(crate) fn offer_of(rules: &Rules, pair: RulePair) -> Offer {
    let score = if pair.floor == rules.tickets() {
        i64::MAX
    } else {
        pair.score
    };
    Offer {
        score,
        cap: pair.cap,
    }
}

/// The greatest score such that the offers with at least this score make up so many tickets, if all of them do. It sorts the
/// offers.
pub(crate) fn score_for(offers: &mut Vec<Offer>, tickets: u64) -> Option<i64> {
    offers.sort_unstable_by_key(|offer| offer.score);
    let mut left = tickets;
    for offer in offers.iter().rev() {
        left = left.saturating_sub(u64::from(offer.cap));
        if left == 0 {
            return Some(offer.score);
        }
    }
    None
}
