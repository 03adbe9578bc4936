// The bids of a made conference.
ghost use Rattle.std.specs.Prelude.{◌≡◌, ◌≤◌, length};
ghost use Rattle.made_conference.specs.Pairs.{picked_bid};
ghost use Rattle.made_conference.specs.Rows.{bid_word};

/// A bid of a reviewer for a paper.
#[derive(Clone, Copy)]
pub(crate) enum Bid {
    VeryHigh,
    High,
    Neutral,
    Low,
    VeryLow,
}

/// The bid that a drawn number from 0 to 5 picks, where it picks one.
#[tactic(auto, unfolding(crate::specs::Pairs::picked_bid))]
pub(crate) fn picked_bid(number: u32) -> Option<Bid>
    ensures { result ≡ picked_bid number }
{
    match number {
        0 => Some(Bid::VeryHigh),
        1 => Some(Bid::High),
        2 => Some(Bid::Neutral),
        3 => Some(Bid::Low),
        4 => Some(Bid::VeryLow),
        _ => None,
    }
}

/// The word of a bid in the table.
pub(crate) fn bid_word(bid: Bid) -> &'static str
    ensures word { result.now ≡ bid_word bid }
    ensures short { length result.now ≤ 9 }
{
    match bid {
        Bid::VeryHigh => "Very High",
        Bid::High => "High",
        Bid::Neutral => "Neutral",
        Bid::Low => "Low",
        Bid::VeryLow => "Very Low",
    }
}
