// A certified lottery, from a cheapest circulation of the network of rules.

ghost use Rattle.std.specs.Prelude.{◌≡◌, length, IfOk};
ghost use Rattle.match_rules.specs.Plain.{Plain};
ghost use Rattle.match_rules.specs.Thresholds.{sieve_of};
ghost use Rattle.bounded_network.specs.Back.{AreWithinCosts};
ghost use Rattle.bounded_network.specs.Compile.{network_of, node_count};
ghost use Rattle.bounded_network.specs.Network.{AreOptimal, IsCirculation};
ghost use Rattle.bounded_network.specs.Spans.{ticket_spans};
ghost use Rattle.solve_line.specs.Verdicts.{IsLevelFor, IsWon};

use bounded_network::{prices_of, shares_of};
use dual_check::bound;
use lottery_peel::peel;
use match_rules::{Level, Mode, Rules, Sieve, Winning};
use std::alloc::{AllocError, Global};

/// The sieve of a level.
pub(crate) fn sieve_of(level: &Level) -> Sieve
    ensures { result ≡ sieve_of level.now }
{
    match level {
        Level::Unasked => Sieve::All,
        Level::Free => Sieve::All,
        Level::At { score, cut: _ } => Sieve::AtLeast { score: *score },
    }
}

/// The lottery of a circulation of the network of the rules under the sieve of a level, and the evidence of its optimal
/// potentials.
pub(crate) fn win(
    alloc: Global,
    rules: &Rules,
    mode: Mode,
    level: Level,
    flow: &[u64],
    potentials: &[i64],
) -> Result<Winning, AllocError>
    requires plain { Plain rules.now }
    requires level { IsLevelFor rules.now mode level }
    requires circulates { IsCirculation (network_of rules.now (ticket_spans rules.now (sieve_of level))) flow.now }
    requires optimal { AreOptimal (network_of rules.now (ticket_spans rules.now (sieve_of level))) flow.now potentials.now }
    requires long { length potentials.now ≡ node_count rules.now }
    requires within { AreWithinCosts rules.now potentials.now }
    ensures { IfOk result (IsWon rules.now mode) }
{
    // The rules keep their conditions.
    let _pairs = rules.pairs();
    let sieve = sieve_of(&level);
    let shares = shares_of(alloc, rules, sieve, flow)?;
    let prices = prices_of(alloc, rules, sieve, potentials)?;
    let total = bound(rules, sieve, &prices);
    let lottery = peel(alloc, rules, &shares)?;
    Ok(Winning {
        mode,
        level,
        total,
        prices,
        shares,
        lottery,
    })
}
