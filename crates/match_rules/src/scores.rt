// The score of shares: the total of each lottery that gives each pair its share.

ghost use Rattle.std.specs.Prelude.{◌≡◌, ◌^◌, ◌<◌, ◌≤◌, List, length, slice_index, pos, neg_ℤ, ◌+ℤ◌, ◌*ℤ◌, ◌≤ℤ◌};
ghost use Rattle.match_rules.specs.declared.lottery.Piece.{Piece};
ghost use Rattle.match_rules.specs.Answers.{LotteryMatches, SharesMatch};
ghost use Rattle.match_rules.specs.Assignments.{total};
ghost use Rattle.match_rules.specs.Rules.{pair_at};
ghost use Rattle.match_rules.specs.SharesFit.{HasShares, shares_score};

use crate::lists::Shares;
use crate::rules::{MOST_TICKETS, Rules};

// The score of a pair times its share.
fn share_term(share: u32, score: i64) -> i128
    requires few { share ≤ MOST_TICKETS }
    ensures value { result ≡ pos share *ℤ score }
    ensures low { neg_ℤ (pos (2 ^ 80)) ≤ℤ result }
    ensures high { result ≤ℤ pos (2 ^ 80) }
{
    share as i128 * score as i128
}

// The sum so far and one more term.
fn plus(sum: i128, term: i128) -> i128
    requires above { neg_ℤ (pos (2 ^ 120)) ≤ℤ sum }
    requires below { sum ≤ℤ pos (2 ^ 120) }
    requires low { neg_ℤ (pos (2 ^ 80)) ≤ℤ term }
    requires high { term ≤ℤ pos (2 ^ 80) }
    ensures { result ≡ sum +ℤ term }
{
    sum + term
}

// The same for the pair at a place.
fn pair_term(rules: &Rules, shares: &Shares, pair: usize) -> i128
    requires place { pair < length rules.now.pairs }
    requires matching { SharesMatch rules.now shares.now }
    ensures value { result ≡ pos (slice_index shares.now pair) *ℤ (pair_at rules.now pair).score }
    ensures low { neg_ℤ (pos (2 ^ 80)) ≤ℤ result }
    ensures high { result ≤ℤ pos (2 ^ 80) }
{
    let pairs = rules.pairs();
    let shares = shares.as_slice();
    share_term(shares[pair], pairs[pair].score)
}

/// The scores of the pairs, each times its share, in 10^-6 of a score over all tickets. The sum is below 2^98, since there
/// are fewer than 2^18 pairs.
pub fn shares_score(rules: &Rules, shares: &Shares) -> i128
    requires { SharesMatch rules.now shares.now }
    ensures value { result ≡ shares_score rules.now shares.now }
    ensures total { (lottery : List Piece) → LotteryMatches rules.now lottery → HasShares rules.now shares.now lottery → total rules.now lottery ≡ result }
{
    let count = rules.pairs().len();
    let mut sum = 0;
    for pair in 0..count {
        sum = plus(sum, pair_term(rules, shares, pair));
    }
    sum
}
