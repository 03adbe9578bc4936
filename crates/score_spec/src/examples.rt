// Worked examples, computed over the definitions. Each function has an empty body: its clauses are the examples.

ghost use Rattle.std.specs.Prelude.{◌≡◌, [], ◌∷◌, true, false, None, Some, pos, neg_ℤ, codes};
ghost use Rattle.score_spec.specs.Examples.{affinities, bids, small_scores, by_affinity, by_bids, by_both};
ghost use Rattle.score_spec.specs.Keys.{keys_of, pair_key};
ghost use Rattle.score_spec.specs.PairTables.{pair_count, put_pair, value_of_pair};
ghost use Rattle.score_spec.specs.Scores.{has_row, score_of, table_of, without_values};

/// Tables of pairs: look-ups, rows that stand for their keys, and counts.
pub fn worked_tables()
    ensures found { value_of_pair affinities (codes "p1") (codes "r2") ≡ Some (pos 8000) }
    ensures other_paper { value_of_pair affinities (codes "p0") (codes "r2") ≡ None }
    ensures count { pair_count affinities ≡ 4 }
    // The last row of a pair stands, and no pair is added by it.
    ensures last { value_of_pair (put_pair (codes "p1") (codes "r2") (neg_ℤ (pos 1)) affinities) (codes "p1") (codes "r2") ≡ Some (neg_ℤ (pos 1)) }
    ensures same_count { pair_count (put_pair (codes "p1") (codes "r2") (neg_ℤ (pos 1)) affinities) ≡ 4 }
    ensures one_more { pair_count (put_pair (codes "p0") (codes "r2") (pos 1) affinities) ≡ 5 }
    ensures row { has_row small_scores (codes "p1") (codes "r3") ≡ true }
    ensures no_row { has_row small_scores (codes "p0") (codes "r3") ≡ false }
    // The pairs by paper and then by reviewer.
    ensures keys { keys_of bids ≡ pair_key (codes "p0") (codes "r1") ∷ (pair_key (codes "p1") (codes "r1") ∷ (pair_key (codes "p1") (codes "r2") ∷ [])) }
    ensures cleared { table_of (without_values (codes "affinity") small_scores) (codes "affinity") ≡ [] }
{}

/// Scores in millionths: weights in hundredths times values in ten-thousandths.
pub fn worked_scores()
    ensures one { score_of by_affinity small_scores (codes "p1") (codes "r1") ≡ pos 1000000 }
    ensures eight_tenths { score_of by_affinity small_scores (codes "p1") (codes "r2") ≡ pos 800000 }
    ensures half { score_of by_affinity small_scores (codes "p1") (codes "r3") ≡ pos 500000 }
    ensures none { score_of by_affinity small_scores (codes "p2") (codes "r1") ≡ pos 0 }
    ensures bid { score_of by_bids small_scores (codes "p1") (codes "r2") ≡ pos 1000000 }
    // A bid whose word has no value, and no bid: the default.
    ensures bid_without_value { score_of by_bids small_scores (codes "p1") (codes "r1") ≡ pos 250000 }
    ensures no_bid { score_of by_bids small_scores (codes "p1") (codes "r3") ≡ pos 250000 }
    // 70 * 5647 - 30 * 10000
    ensures weighted { score_of by_both small_scores (codes "p0") (codes "r1") ≡ pos 95290 }
{}
