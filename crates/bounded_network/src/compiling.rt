// The network of rules, whose circulations are the amounts within the bounds.

ghost use Rattle.std.specs.Prelude.{◌≡◌, IfOk};
ghost use Rattle.match_rules.specs.Plain.{Plain};
ghost use Rattle.bounded_network.specs.Compile.{network_of, Compiles, Serves};
ghost use Rattle.bounded_network.specs.Spans.{spans_of, CanDivide};

use crate::arcs::arcs_of;
use crate::layout::hub_of;
use crate::network::Network;
use crate::spans::Amounts;
use crate::totals::totals_of;
use match_rules::{Rules, Sieve};
use std::alloc::{AllocError, Global};

/// The network of rules. Its nodes are the papers, the groups, the reviewers and a hub, in this order. Its arcs are the
/// pairs, from the pair's group, or its paper where it is in no group, to its reviewer; then, from the hub to each paper;
/// from its paper to each group; and from each reviewer to the hub. So a circulation is one amount for each pair, and the
/// sums of these.
///
/// With `Tickets` the circulations are the shares that fit the rules under the sieve. With `Rounded` they are counts: each
/// pair, paper, group and reviewer has its amount in the shares, divided by the tickets that are left and rounded down or
/// up. No marks are violated there.
///
/// Time is linear in pairs, papers, groups and reviewers, and memory is that of the arcs, beside the sums of `Rounded`.
pub fn compile(
    alloc: Global,
    rules: &Rules,
    sieve: Sieve,
    amounts: Amounts,
) -> Result<Network, AllocError>
    requires plain { Plain rules.now }
    requires divides { CanDivide rules.now amounts }
    ensures value { IfOk result (λ net. net ≡ network_of rules.now (spans_of rules.now sieve amounts.entry)) }
    ensures means { IfOk result (Compiles rules.now (spans_of rules.now sieve amounts.entry)) }
    ensures serves { IfOk result (Serves rules.now sieve amounts.entry) }
{
    let totals = totals_of(alloc, rules, amounts)?;
    let arcs = arcs_of(alloc, rules, sieve, amounts, &totals)?;
    match Network::new(hub_of(rules) + 1, arcs) {
        Ok(network) => Ok(network),
        Err(_) => unreachable!(),
    }
}
