// Whether shares fit under a sieve.

ghost use Rattle.std.specs.Prelude.{IfOk};
ghost use Rattle.match_rules.specs.Plain.{Plain};
ghost use Rattle.fair_threshold.specs.Search.{IsProbe};

use crate::unpriced::without_costs;
use bounded_network::{Amounts, compile, cut_of, shares_of};
use flow_solver::{Solution, solve};
use match_rules::{Cut, Rules, Shares, Sieve};
use std::alloc::{AllocError, Global};

/// What a circulation, or marks, show of the rules under a sieve.
#[derive(Drop)]
pub(crate) enum Probe {
    /// Shares that fit.
    Fits { shares: Shares },
    /// A cut that is violated.
    Barred { cut: Cut },
}

/// Shares that fit under a sieve, or a cut that is violated. No score counts.
pub(crate) fn probed(alloc: Global, rules: &Rules, sieve: Sieve) -> Result<Probe, AllocError>
    requires plain { Plain rules.now }
    ensures { IfOk result (IsProbe rules.now sieve) }
{
    let priced = compile(alloc, rules, sieve, Amounts::Tickets)?;
    let network = without_costs(alloc, &priced)?;
    match solve(alloc, &network)? {
        Solution::Solved {
            flow,
            potentials: _potentials,
        } => {
            let shares = shares_of(alloc, rules, sieve, &flow)?;
            Ok(Probe::Fits { shares })
        }
        Solution::Unsat { marks } => {
            let cut = cut_of(alloc, rules, sieve, &marks)?;
            Ok(Probe::Barred { cut })
        }
    }
}
