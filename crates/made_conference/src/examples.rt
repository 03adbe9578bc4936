// Worked examples, computed over the definitions. The functions have empty bodies: their clauses are the examples.

ghost use Rattle.std.specs.Prelude.{◌≡◌, ◌∷◌, [], None, Some, codes};
ghost use Rattle.made_conference.specs.Numbers.{drawn};
ghost use Rattle.made_conference.specs.Pairs.{made_pair, pairs_before, picked_bid};
ghost use Rattle.made_conference.specs.Rows.{value_row, bid_lines, paper_row, reviewer_row, value_text};
ghost use Rattle.made_conference.specs.declared.bids.Bid.TheVariants.{VeryHigh, VeryLow};

/// The first draws of seed 7, and what they pick.
#[tactic(auto, unfolding(crate::specs::Numbers::next_state, crate::specs::Numbers::state_after, crate::specs::Pairs::picked_bid, crate::specs::Pairs::pairs_before, crate::specs::Pairs::made_pair))]
pub fn worked_numbers()
    ensures first { drawn 7 0 ≡ 15648 }
    ensures second { drawn 7 1 ≡ 59866 }
    ensures value { (made_pair 7 0 0).value ≡ 5647 }
    ensures bid { (made_pair 7 0 0).bid ≡ Some VeryLow }
    ensures none { picked_bid 5 ≡ None }
    ensures high { picked_bid 0 ≡ Some VeryHigh }
    // The pairs of a block are 60 times 45; the next block begins behind them.
    ensures paper { pairs_before 1 0 ≡ 45 }
    ensures last { pairs_before 59 44 ≡ 2699 }
    ensures block { pairs_before 60 45 ≡ 2700 }
{}

/// Rows of the tables.
pub fn worked_rows()
    ensures value { value_row (made_pair 7 0 0) ≡ codes "p0000,r0000,0.5647" }
    ensures bid { bid_lines (made_pair 7 0 0) ≡ codes "p0000,r0000,Very Low\n" }
    ensures paper { paper_row 1499 ≡ codes "p1499,,i5" }
    ensures reviewer { reviewer_row 44 ≡ codes "r0044,i8,," }
    ensures most { value_text 10000 ≡ codes "1.0000" }
    ensures least { value_text 7 ≡ codes "0.0007" }
{}
