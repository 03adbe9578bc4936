// Worked examples, computed over the definitions. The function has an empty
// body: its clauses are the examples.

ghost use Rattle.std.specs.Prelude.{◌≡◌, [], ◌∷◌, None, Some, Ok, Err, pos, neg_ℤ, codes};
ghost use Rattle.venue_rules.specs.declared.fault.LimitFault.TheVariants.{LockForbidden};
ghost use Rattle.venue_rules.specs.VenueRules.{rules_of};
ghost use Rattle.editions.specs.Examples.{entry, of_paper, small, small_rules, pair};

/// The rules of small venues.
pub fn worked_rules()
    // A mark of 1 locks the first pair, a cap of 0.7 bounds the second, and a mark of -1 forbids the third.
    ensures rules { rules_of (small [] None (of_paper (entry (codes "a") (pos 1) ∷ (entry (codes "c") (neg_ℤ (pos 1)) ∷ []))) (of_paper (entry (codes "b") (pos 7000) ∷ []))) ≡ Ok (small_rules (pair 0 1000000 10000 10000 ∷ (pair 1 500000 0 7000 ∷ []))) }
    // A mark of 1 for a reviewer of an author's institution.
    ensures forbidden { rules_of (small (codes "u" ∷ []) (Some (codes "u")) (of_paper (entry (codes "a") (pos 1) ∷ [])) []) ≡ Err (LockForbidden (codes "p") (codes "a")) }
{}
