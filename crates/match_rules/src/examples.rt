// Worked examples, computed over the definitions. Each function has an empty body: its clauses are the examples.

ghost use Rattle.std.specs.Prelude.{◌≡◌, ◌++◌, [], ◌∷◌, true, false, None, Some, pos, neg_ℤ, replicate, codes};
ghost use Rattle.match_rules.specs.declared.answer.Sieve.TheVariants.{All as EveryPair, AtLeast, Above};
ghost use Rattle.match_rules.specs.declared.breaks.Break.TheVariants.{Demand, Share, Cap, Lock};
ghost use Rattle.match_rules.specs.Assignments.{tickets, times, total, keeps, cap_under};
ghost use Rattle.match_rules.specs.Breaks.{first_break_of};
ghost use Rattle.match_rules.specs.Evidence.{bound, need, room};
ghost use Rattle.match_rules.specs.Examples.{small, small_uneven, small_locked, small_fixed, small_negative, two_pieces, three_pieces, seven_three, no_prices, prices, piece, cut_into, cut_out_of, one_house, two_houses, thirds, idle_reviewer, empty_rules, key, u, v};
ghost use Rattle.match_rules.specs.Groups.{groups, group_count, group_of, first_member};
ghost use Rattle.match_rules.specs.Id.{is_id, is_institution};

/// Two papers, two reviewers and one cap: lotteries and prices that meet.
pub fn worked_totals()
    // Caps of 0.5: each pair has half of the tickets.
    ensures half_tickets { tickets (two_pieces 5000 5000) ≡ 10000 }
    ensures half_first { times (two_pieces 5000 5000) 0 ≡ 5000 }
    ensures half_second { times (two_pieces 5000 5000) 1 ≡ 5000 }
    ensures half_total { total (small 5000) (two_pieces 5000 5000) ≡ pos 11500000000 }
    ensures half_bound { bound (small 5000) EveryPair no_prices ≡ pos 11500000000 }
    // Caps of 0.7: prices that meet the total, and prices that don't.
    ensures seven_total { total (small 7000) (two_pieces 7000 3000) ≡ pos 12900000000 }
    ensures seven_bound { bound (small 7000) EveryPair (prices (pos 0 ∷ (pos 500000 ∷ [])) [] (pos 300000 ∷ (pos 0 ∷ []))) ≡ pos 12900000000 }
    ensures seven_loose { bound (small 7000) EveryPair no_prices ≡ pos 16100000000 }
    // Negative scores: the prices of both papers are -0.5.
    ensures negative_total { total small_negative (piece 10000 (1 ∷ (2 ∷ [])) ∷ []) ≡ neg_ℤ (pos 10000000000) }
    ensures negative_bound { bound small_negative EveryPair (prices (neg_ℤ (pos 500000) ∷ (neg_ℤ (pos 500000) ∷ [])) [] (pos 0 ∷ (pos 0 ∷ []))) ≡ neg_ℤ (pos 10000000000) }
    // Two of three reviewers: shares that don't divide evenly.
    ensures thirds_first { times three_pieces 0 ≡ 6667 }
    ensures thirds_last { times three_pieces 2 ≡ 6666 }
    ensures thirds_total { total (thirds 6667) three_pieces ≡ pos 4000100000 }
    // A threshold of 0.5: the bound over the pairs with that score and more.
    ensures fair_bound { bound (small 10000) (AtLeast (pos 500000)) (prices (pos 700000 ∷ (pos 500000 ∷ [])) [] (pos 300000 ∷ (pos 0 ∷ []))) ≡ pos 15000000000 }
    ensures fair_total { total (small 10000) (piece 10000 (0 ∷ (3 ∷ [])) ∷ []) ≡ pos 15000000000 }
{}

/// Cuts that show that nothing fits.
pub fn worked_cuts()
    // Caps of 0.4: less may enter paper 0 than it needs.
    ensures low_need { need (small 4000) EveryPair (cut_into (0 ∷ []) []) ≡ 10000 }
    ensures low_room { room (small 4000) EveryPair (cut_into (0 ∷ []) []) ≡ 8000 }
    // All pairs locked: paper 0 gets more than it needs.
    ensures locked_need { need small_locked EveryPair (cut_out_of (0 ∷ []) []) ≡ 20000 }
    ensures locked_room { room small_locked EveryPair (cut_out_of (0 ∷ []) []) ≡ 10000 }
    // Two reviewers of one institution, of whom one is allowed.
    ensures house_need { need one_house EveryPair (cut_into (0 ∷ []) []) ≡ 20000 }
    ensures house_room { room one_house EveryPair (cut_into (0 ∷ []) []) ≡ 10000 }
    // Two of three reviewers, with caps a ticket too low.
    ensures thirds_need { need (thirds 6666) EveryPair (cut_into (0 ∷ []) []) ≡ 20000 }
    ensures thirds_room { room (thirds 6666) EveryPair (cut_into (0 ∷ []) []) ≡ 19998 }
    // A reviewer who needs a paper and is no candidate.
    ensures idle_need { need idle_reviewer EveryPair (cut_out_of [] (1 ∷ [])) ≡ 10000 }
    ensures idle_room { room idle_reviewer EveryPair (cut_out_of [] (1 ∷ [])) ≡ 0 }
    // Above a score of 0.5 both papers share reviewer 0; above 0 they needn't.
    ensures above_need { need (small 10000) (Above (pos 500000)) (cut_into (0 ∷ (1 ∷ [])) (0 ∷ [])) ≡ 20000 }
    ensures above_room { room (small 10000) (Above (pos 500000)) (cut_into (0 ∷ (1 ∷ [])) (0 ∷ [])) ≡ 10000 }
    ensures above_none_room { room (small 10000) (Above (pos 0)) (cut_into (0 ∷ (1 ∷ [])) (0 ∷ [])) ≡ 20000 }
{}

/// Groups of a paper and an institution.
pub fn worked_groups()
    ensures one { groups one_house ≡ key 0 u ∷ [] }
    ensures first { group_of one_house 0 ≡ Some 0 }
    ensures second { group_of one_house 1 ≡ Some 0 }
    ensures two { groups two_houses ≡ key 0 u ∷ (key 0 v ∷ []) }
    ensures third { group_of two_houses 2 ≡ Some 1 }
    ensures member { first_member two_houses (key 0 v) ≡ Some 2 }
    ensures none { group_count (small 7000) ≡ 0 }
    ensures no_group { group_of (small 7000) 3 ≡ None }
{}

/// The first break of lotteries with their shares.
pub fn worked_breaks()
    ensures sound { first_break_of (small 7000) seven_three (two_pieces 7000 3000) ≡ None }
    ensures cap { first_break_of small_uneven seven_three (two_pieces 7000 3000) ≡ Some (Cap 0) }
    ensures demand { first_break_of (small 7000) seven_three (piece 7000 (0 ∷ []) ∷ (piece 3000 (1 ∷ (2 ∷ [])) ∷ [])) ≡ Some (Demand 0 1 0) }
    ensures share { first_break_of (small 7000) seven_three (two_pieces 7001 2999) ≡ Some (Share 0 7000 7001) }
    ensures lock { first_break_of small_fixed (0 ∷ (10000 ∷ (10000 ∷ (0 ∷ [])))) (piece 10000 (1 ∷ (2 ∷ [])) ∷ []) ≡ Some (Lock 0 0) }
    ensures fixed { first_break_of small_fixed (10000 ∷ (0 ∷ (0 ∷ (10000 ∷ [])))) (piece 10000 (0 ∷ (3 ∷ [])) ∷ []) ≡ None }
    ensures houses { first_break_of two_houses (10000 ∷ (0 ∷ (10000 ∷ []))) (piece 10000 (0 ∷ (2 ∷ [])) ∷ []) ≡ None }
    ensures parts { first_break_of (thirds 6667) (6667 ∷ (6667 ∷ (6666 ∷ []))) three_pieces ≡ None }
    ensures empty { first_break_of empty_rules [] (piece 10000 [] ∷ []) ≡ None }
{}

/// Which pairs a sieve keeps, and their greatest numbers of tickets under it.
pub fn worked_sieves()
    ensures all { keeps (small 7000) EveryPair 1 ≡ true }
    ensures at_least { keeps (small 7000) (AtLeast (pos 500000)) 3 ≡ true }
    ensures above { keeps (small 7000) (Above (pos 500000)) 3 ≡ false }
    ensures negative { keeps small_negative (AtLeast (neg_ℤ (pos 500000))) 0 ≡ false }
    ensures locked { keeps small_locked (Above (pos 2000000)) 1 ≡ true }
    ensures kept { cap_under (small 7000) (AtLeast (pos 500000)) 3 ≡ 7000 }
    ensures dropped { cap_under (small 7000) (Above (pos 500000)) 3 ≡ 0 }
{}

/// Texts that are ids and names of institutions, and texts that aren't.
pub fn worked_ids()
    ensures none { is_id [] ≡ false }
    ensures longest { is_id (replicate 128 97) ≡ true }
    ensures too_long { is_id (replicate 129 97) ≡ false }
    ensures comma { is_id (codes "a,b") ≡ false }
    ensures quote { is_id (97 ∷ (34 ∷ [])) ≡ false }
    ensures semicolon { is_id (codes "a;b") ≡ true }
    ensures house_semicolon { is_institution (codes "a;b") ≡ false }
    ensures house { is_institution (codes "a.b") ≡ true }
    ensures space { is_id (codes "a b") ≡ false }
    ensures nul { is_id (0 ∷ []) ≡ false }
    ensures delete { is_id (127 ∷ []) ≡ false }
    // U+0085, U+00A0 and U+3000 are white space; U+009F is a control character.
    ensures next_line { is_id (194 ∷ (133 ∷ [])) ≡ false }
    ensures no_break_space { is_id (194 ∷ (160 ∷ [])) ≡ false }
    ensures wide_space { is_id (227 ∷ (128 ∷ (128 ∷ []))) ≡ false }
    ensures last_control { is_id (194 ∷ (159 ∷ [])) ≡ false }
    // U+00E9 is a letter, and a lone byte of it is no text.
    ensures letter { is_id (195 ∷ (169 ∷ [])) ≡ true }
    ensures broken { is_id (195 ∷ []) ≡ false }
{}
