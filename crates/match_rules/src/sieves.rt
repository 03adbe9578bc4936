// Which pairs a sieve keeps, and what a sieve that keeps more, or the locked pairs alone, says of lotteries and shares.

ghost use Rattle.std.specs.Prelude.{◌≡◌, ◌↔◌, ◌<◌, ℕ, List, length, true, false, ℤ, pos, ◌≤ℤ◌, ◌<ℤ◌};
ghost use Rattle.match_rules.specs.declared.answer.Sieve.{Sieve};
ghost use Rattle.match_rules.specs.declared.answer.Sieve.TheVariants.{All as EveryPair, AtLeast, Above};
ghost use Rattle.match_rules.specs.declared.lottery.Piece.{Piece};
ghost use Rattle.match_rules.specs.Assignments.{Fits, keeps, times};
ghost use Rattle.match_rules.specs.Rules.{RulesValue, AreRules, is_locked, most_score};
ghost use Rattle.match_rules.specs.SharesFit.{SharesFit};
ghost use Rattle.match_rules.specs.Sieves.{IsFiner};
ghost use Rattle.match_rules.specs.Thresholds.{FitsLocked};

use crate::answer::Sieve;
use crate::rules::Rules;

impl Rules {
    /// Whether a sieve keeps a pair. Every sieve keeps the locked pairs.
    pub fn keeps(&self, sieve: Sieve, pair: u32) -> bool
        requires { pair < length self.now.pairs }
        ensures { result ≡ keeps self.now sieve pair }
    {
        let pair = &self.pairs()[pair as usize];
        pair.floor == self.tickets() || sieve.lets_pass(pair.score)
    }
}

/// What holds of all sieves. The body is empty: the clauses are the laws.
pub fn sieve_laws()
    // Which sieves are finer.
    ensures every_pair { (sieve : Sieve) → IsFiner sieve EveryPair }
    ensures at_least { (low high : ℤ) → low ≤ℤ high → IsFiner (AtLeast high) (AtLeast low) }
    ensures above { (low high : ℤ) → low ≤ℤ high → IsFiner (Above high) (Above low) }
    ensures equal { (score : ℤ) → IsFiner (Above score) (AtLeast score) }
    ensures greater { (low high : ℤ) → low <ℤ high → IsFiner (AtLeast high) (Above low) }

    // What fits under a finer sieve fits under a coarser one.
    ensures pairs { (rules : RulesValue) (fine coarse : Sieve) (e : ℕ) → IsFiner fine coarse → keeps rules fine e ≡ true → keeps rules coarse e ≡ true }
    ensures lotteries { (rules : RulesValue) (fine coarse : Sieve) (lottery : List Piece) → IsFiner fine coarse → Fits rules fine lottery → Fits rules coarse lottery }
    ensures shares { (rules : RulesValue) (fine coarse : Sieve) (shares : List ℕ) → IsFiner fine coarse → SharesFit rules fine shares → SharesFit rules coarse shares }

    // A pair that isn't kept has no ticket.
    ensures dropped { (rules : RulesValue) (sieve : Sieve) (lottery : List Piece) (e : ℕ) → AreRules rules → Fits rules sieve lottery → e < length rules.pairs → keeps rules sieve e ≡ false → times lottery e ≡ 0 }

    // Above the greatest score the locked pairs alone are kept.
    ensures alone { (rules : RulesValue) (e : ℕ) → AreRules rules → e < length rules.pairs → keeps rules (Above (pos most_score)) e ≡ is_locked rules e }
    ensures locked { (rules : RulesValue) (lottery : List Piece) → AreRules rules → Fits rules (Above (pos most_score)) lottery ↔ FitsLocked rules lottery }
{}
