// Worked examples, computed over the definitions. The function has an empty body: its clauses are the examples.

ghost use Rattle.std.specs.Prelude.{◌≡◌, [], ◌∷◌, true, false};
ghost use Rattle.match_rules.specs.Examples.{small, thirds, two_houses, piece};
ghost use Rattle.bounded_network.specs.Compile.{flow_of};
ghost use Rattle.lottery_peel.specs.Peeling.{open_part, open_count, unwhole_count, limit, same_places};
ghost use Rattle.lottery_peel.specs.Standing.{IsLine, amount_by, unit_arc};

/// Amounts that are rounded, and for how many tickets their counts may stand.
pub fn worked_steps()
    // An amount is open where it is no multiple of the tickets that are left.
    ensures open_half { open_part 10000 5000 ≡ 1 }
    ensures open_none { open_part 10000 0 ≡ 0 }
    ensures open_twice { open_part 10000 20000 ≡ 0 }
    ensures open_ticket { open_part 10000 20001 ≡ 1 }
    // 3,000 of 10,000 tickets: without the pair for 7,000 of them, or with it for 3,000.
    ensures without { limit 10000 3000 0 ≡ 7000 }
    ensures with_it { limit 10000 3000 1 ≡ 3000 }
    // A sum of 27,000: two for 3,000 tickets, or three for 7,000.
    ensures two { limit 10000 27000 2 ≡ 3000 }
    ensures three { limit 10000 27000 3 ≡ 7000 }
    // A multiple stays for all tickets that are left.
    ensures always { limit 10000 10000 1 ≡ 10000 }
    ensures never { limit 3000 0 0 ≡ 3000 }
    // Half of the tickets for each of four pairs: the sums of papers and reviewers are whole.
    ensures four_pairs { unwhole_count (small 5000) (5000 ∷ (5000 ∷ (5000 ∷ (5000 ∷ [])))) ≡ 4 }
    ensures four_of_eight { open_count 10000 (flow_of (small 5000) (5000 ∷ (5000 ∷ (5000 ∷ (5000 ∷ []))))) ≡ 4 }
    // Two of three reviewers: three pairs, and three reviewers.
    ensures three_reviewers { unwhole_count (thirds 6667) (6667 ∷ (6667 ∷ (6666 ∷ []))) ≡ 6 }
    // Two reviewers of one house with half of the tickets each: their group has all, and is whole.
    ensures houses { unwhole_count two_houses (5000 ∷ (5000 ∷ (10000 ∷ []))) ≡ 4 }
    ensures all_whole { unwhole_count (small 10000) (10000 ∷ (0 ∷ (0 ∷ (10000 ∷ [])))) ≡ 0 }
    // Of 10,000 tickets an amount of 3,000 has none until 7,000 are used, or one until 3,000 are; turned at ticket 1,000, with 3,000
    // of the 9,000 that are left, it has one until ticket 4,000.
    ensures due_low { IsLine 10000 10000 (unit_arc 0) 0 7000 3000 }
    ensures due_high { IsLine 10000 10000 (unit_arc 0) 1 3000 3000 }
    ensures due_turned { IsLine 10000 9000 (unit_arc 0) 1 4000 3000 }
    // So the count and its ticket say what is left: 3,000 of 9,000 tickets, and none at ticket 4,000, when it is due.
    ensures amount_left { amount_by 10000 9000 (unit_arc 0) 1 4000 ≡ 3000 }
    ensures amount_given { amount_by 10000 6000 (unit_arc 0) 1 4000 ≡ 0 }
    // Places, and not weights, tell pieces apart.
    ensures same { same_places (piece 7000 (0 ∷ (3 ∷ []))) (piece 3000 (0 ∷ (3 ∷ []))) ≡ true }
    ensures other { same_places (piece 7000 (0 ∷ (3 ∷ []))) (piece 7000 (1 ∷ (2 ∷ []))) ≡ false }
{}
