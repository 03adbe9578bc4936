// Worked examples, computed over the definitions. Each function has an empty body: its clauses are the examples.

ghost use Rattle.std.specs.Prelude.{◌≡◌, [], ◌∷◌, None, Some, pos};
ghost use Rattle.match_rules.specs.declared.answer.Level.TheVariants.{Unasked, Free, At};
ghost use Rattle.match_rules.specs.declared.breaks.Break.TheVariants.{Below, NoSuchScore, Above};
ghost use Rattle.match_rules.specs.Examples.{small, small_fixed, seven_three, cut_into};
ghost use Rattle.publication.specs.Checks.{threshold_break};

/// The clauses of the threshold, for two papers, two reviewers and the scores 1, 0, 0.8 and 0.5.
pub fn worked_thresholds()
    // Above a score of 0.5 both papers share reviewer 0.
    ensures right { threshold_break (small 10000) (At (pos 500000) (cut_into (0 ∷ (1 ∷ [])) (0 ∷ []))) (10000 ∷ (0 ∷ (0 ∷ (10000 ∷ [])))) ≡ None }
    // The pair with a score of 0 is below, and so is that of 0.5 where the score is 0.8.
    ensures below { threshold_break (small 10000) (At (pos 500000) (cut_into (0 ∷ (1 ∷ [])) (0 ∷ []))) seven_three ≡ Some (Below 1) }
    ensures high { threshold_break (small 10000) (At (pos 800000) (cut_into (0 ∷ (1 ∷ [])) (0 ∷ []))) (10000 ∷ (0 ∷ (0 ∷ (10000 ∷ [])))) ≡ Some (Below 3) }
    // No pair has a score of 0.4.
    ensures no_pair { threshold_break (small 10000) (At (pos 400000) (cut_into (0 ∷ (1 ∷ [])) (0 ∷ []))) (10000 ∷ (0 ∷ (0 ∷ (10000 ∷ [])))) ≡ Some (NoSuchScore (pos 400000)) }
    // Above a score of 0 the same cut isn't violated.
    ensures low { threshold_break (small 10000) (At (pos 0) (cut_into (0 ∷ (1 ∷ [])) (0 ∷ []))) (10000 ∷ (0 ∷ (0 ∷ (10000 ∷ [])))) ≡ Some (Above 20000 20000) }
    // Without a score the locked pairs alone have shares.
    ensures free { threshold_break (small 10000) Free (10000 ∷ (0 ∷ (0 ∷ (10000 ∷ [])))) ≡ Some (Below 0) }
    ensures locked { threshold_break small_fixed Free (10000 ∷ (0 ∷ (0 ∷ (10000 ∷ [])))) ≡ None }
    // Without a threshold there is nothing to break.
    ensures unasked { threshold_break (small 7000) Unasked seven_three ≡ None }
{}
