// Amounts of tickets and reviewers, times prices. No sum overflows, whatever the prices of 64 bits: an amount is at
// most 10,000, a score less three prices is below 2^66, so a term is below 2^80; there are fewer than 2^18 terms, and
// all of them times the tickets are below 2^112.

ghost use Rattle.std.specs.Prelude.{◌≡◌, ◌≤◌, ◌^◌, pos, ◌*ℤ◌, ◌≤ℤ◌, ◌-ℤ◌, ◌+ℤ◌, neg_ℤ};
ghost use Rattle.std.specs.Int.{int_max};
ghost use Rattle.match_rules.specs.Evidence.{most_at};

use match_rules::MOST_TICKETS;

/// The greatest amount of tickets or of reviewers that one place of the rules may have.
pub(crate) const MOST_AMOUNT: u32 = MOST_TICKETS;

/// The price of an amount.
pub(crate) fn priced(amount: u32, price: i128) -> i128
    requires few { amount ≤ MOST_AMOUNT }
    requires above { neg_ℤ (pos (2 ^ 66)) ≤ℤ price }
    requires below { price ≤ℤ pos (2 ^ 66) }
    ensures value { result ≡ pos amount *ℤ price }
    ensures low { neg_ℤ (pos (2 ^ 80)) ≤ℤ result }
    ensures high { result ≤ℤ pos (2 ^ 80) }
{
    amount as i128 * price
}

/// The price of all tickets.
pub(crate) fn for_all(tickets: u32, sum: i128) -> i128
    requires few { tickets ≤ MOST_TICKETS }
    requires above { neg_ℤ (pos (2 ^ 98)) ≤ℤ sum }
    requires below { sum ≤ℤ pos (2 ^ 98) }
    ensures value { result ≡ pos tickets *ℤ sum }
    ensures low { neg_ℤ (pos (2 ^ 112)) ≤ℤ result }
    ensures high { result ≤ℤ pos (2 ^ 112) }
{
    tickets as i128 * sum
}

/// What a price makes of an amount between two bounds, at most.
pub(crate) fn most_of(least: u32, greatest: u32, price: i128) -> i128
    requires least { least ≤ MOST_AMOUNT }
    requires greatest { greatest ≤ MOST_AMOUNT }
    requires above { neg_ℤ (pos (2 ^ 66)) ≤ℤ price }
    requires below { price ≤ℤ pos (2 ^ 66) }
    ensures value { result ≡ most_at least greatest price }
    ensures low { neg_ℤ (pos (2 ^ 80)) ≤ℤ result }
    ensures high { result ≤ℤ pos (2 ^ 80) }
{
    let at_least = priced(least, price);
    let at_greatest = priced(greatest, price);
    at_least.max(at_greatest)
}

/// A price that counts only where it is above 0.
pub(crate) fn charged(price: i64) -> i128
    ensures value { result ≡ int_max (pos 0) price }
    ensures low { neg_ℤ (pos (2 ^ 66)) ≤ℤ result }
    ensures high { result ≤ℤ pos (2 ^ 66) }
{
    (price as i128).max(0)
}

/// A score or what is left of it, less a price.
fn minus(score: i128, price: i64) -> i128
    requires above { neg_ℤ (pos (2 ^ 65)) ≤ℤ score }
    requires below { score ≤ℤ pos (2 ^ 65) }
    ensures value { result ≡ score -ℤ price }
    ensures low { (score -ℤ pos (2 ^ 63)) ≤ℤ result }
    ensures high { result ≤ℤ (score +ℤ pos (2 ^ 63)) }
{
    score - price as i128
}

/// A score less the prices of a paper, a group and a reviewer.
pub(crate) fn less(score: i64, paper: i64, group: i64, reviewer: i64) -> i128
    ensures value { result ≡ ((score -ℤ paper) -ℤ group) -ℤ reviewer }
    ensures low { neg_ℤ (pos (2 ^ 66)) ≤ℤ result }
    ensures high { result ≤ℤ pos (2 ^ 66) }
{
    minus(minus(minus(score as i128, paper), group), reviewer)
}

/// The sum of two sums.
pub(crate) fn plus(sum: i128, term: i128) -> i128
    requires above { neg_ℤ (pos (2 ^ 120)) ≤ℤ sum }
    requires below { sum ≤ℤ pos (2 ^ 120) }
    requires low { neg_ℤ (pos (2 ^ 120)) ≤ℤ term }
    requires high { term ≤ℤ pos (2 ^ 120) }
    ensures value { result ≡ sum +ℤ term }
{
    sum + term
}
