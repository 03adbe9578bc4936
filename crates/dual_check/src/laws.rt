// What prices and cuts say of all lotteries.

ghost use Rattle.std.specs.Prelude.{◌≡◌, List};
ghost use Rattle.match_rules.specs.declared.answer.Cut.{Cut};
ghost use Rattle.match_rules.specs.declared.answer.Prices.{Prices};
ghost use Rattle.match_rules.specs.declared.answer.Sieve.{Sieve};
ghost use Rattle.match_rules.specs.declared.lottery.Piece.{Piece};
ghost use Rattle.match_rules.specs.Assignments.{Best, Fits, tickets, total};
ghost use Rattle.match_rules.specs.Evidence.{bound, Violated};
ghost use Rattle.match_rules.specs.Rules.{RulesValue, AreRules};

/// What holds of the evidence of all rules, for lotteries of any size. The body is empty: the clauses are the laws.
pub fn evidence_laws()
    // A lottery of all tickets whose total is the bound of any prices is best.
    ensures best { (rules : RulesValue) (sieve : Sieve) (prices : Prices) (lottery : List Piece) → AreRules rules → Fits rules sieve lottery → tickets lottery ≡ rules.tickets → total rules lottery ≡ bound rules sieve prices → Best rules sieve lottery }
    // Where a cut is violated no lottery fits.
    ensures none { (rules : RulesValue) (sieve : Sieve) (cut : Cut) → AreRules rules → Violated rules sieve cut → (lottery : List Piece) → ¬ (Fits rules sieve lottery) }
{}
