// Counts that stand from piece to piece.

ghost use Rattle.std.specs.Prelude.{◌≡◌, ◌≤◌, length, List, Bool, IfOk};
ghost use Rattle.match_rules.specs.Plain.{Plain};
ghost use Rattle.match_rules.specs.Rules.{AreRules};
ghost use Rattle.bounded_network.specs.Compile.{flow_of, place_count};
ghost use Rattle.bounded_network.specs.Network.{IsCirculation, AreViolated};
ghost use Rattle.lottery_peel.specs.Standing.{AreFirstDues, HasRounded, IsNextStanding, PassesOn};

use crate::due_lists::DueLists;
use crate::dues::all_waiting;
use crate::weights::limit_of;
use bounded_network::{Amounts, Network, amounts_of, compile};
use flow_solver::{Solution, solve};
use match_rules::{Rules, Shares, Sieve, chosen_places};
use residual_arcs::{Links, Step, links_of};
use std::alloc::{AllocError, Global};
use unit_turns::{Side, blank, links_serve};

/// The counts of a next assignment, at the places of the arcs of the rounded network, and for each the ticket at which it is
/// due: until then it may stand, and its arc waits in the list of that ticket. The places of the pairs that have a count are kept
/// beside them. What else is here serves to turn units.
#[derive(Drop)]
pub struct Standing {
    pub net: Network,
    pub links: Links,
    pub counts: Vec<u64>,
    pub dues: Vec<u32>,
    pub chosen: Vec<u32>,
    pub waiting: DueLists,
    pub ahead: Side,
    pub behind: Side,
    pub steps: Vec<Step>,
}

// The network of the shares, rounded at all tickets.
fn rounded_network(alloc: Global, rules: &Rules, shares: &Shares) -> Result<Network, AllocError>
    requires plain { Plain rules.now }
    requires long { length shares.now ≡ length rules.now.pairs }
    ensures passes { IfOk result (PassesOn rules.now) }
    ensures rounds { IfOk result (HasRounded rules.now.tickets (flow_of rules.now shares.now)) }
    ensures possible { IfOk result (λ net. (marks : List Bool) → ¬ (AreViolated net marks)) }
    ensures kept { AreRules rules.now }
{
    let left = rules.tickets();
    let amounts = Amounts::Rounded { shares, left };
    let net = compile(alloc, rules, Sieve::All, amounts)?;
    Ok(net)
}

// A circulation of a network that has one.
fn circulation_in(alloc: Global, net: &Network) -> Result<Vec<u64>, AllocError>
    requires possible { (marks : List Bool) → ¬ (AreViolated net.now marks) }
    ensures { IfOk result (λ counts. IsCirculation net.now counts.items) }
{
    match solve(alloc, net)? {
        Solution::Solved {
            flow,
            potentials: _,
        } => Ok(flow),
        Solution::Unsat { marks: _ } => unreachable!(),
    }
}

// The tickets at which the counts are due, while all tickets are left.
fn first_dues(
    alloc: Global,
    rules: &Rules,
    shares: &Shares,
    counts: &[u64],
) -> Result<Vec<u32>, AllocError>
    requires long { length shares.now ≡ length rules.now.pairs }
    requires counted { length counts.now ≡ place_count rules.now }
    ensures { IfOk result (λ dues. AreFirstDues rules.now.tickets (flow_of rules.now shares.now) counts.now dues.items) }
{
    let all = u64::from(rules.tickets());
    let amounts = amounts_of(alloc, rules, shares)?;
    let mut dues = Vec::with_capacity(alloc, amounts.len())?;
    for a in 0..amounts.len() {
        dues.push(limit_of(all, amounts[a], counts[a]) as u32)?;
    }
    Ok(dues)
}

/// The counts of a first assignment, from a flow of the rounded network.
pub fn first_standing(alloc: Global, rules: &Rules, shares: &Shares) -> Result<Standing, AllocError>
    requires plain { Plain rules.now }
    requires long { length shares.now ≡ length rules.now.pairs }
    ensures { IfOk result (IsNextStanding rules.now rules.now.tickets shares.now) }
{
    let net = rounded_network(alloc, rules, shares)?;
    let counts = circulation_in(alloc, &net)?;
    let dues = first_dues(alloc, rules, shares, counts.as_slice())?;
    let _arcs = net.arcs();
    let waiting = all_waiting(alloc, rules.tickets(), dues.as_slice())?;
    let places = chosen_places(alloc, &counts[..rules.pairs().len()])?;
    let chosen = places.into_vec();
    let links = links_of(alloc, &net)?;
    links_serve(&net, &links);
    let ahead = blank(alloc, &net)?;
    let behind = blank(alloc, &net)?;
    Ok(Standing {
        net,
        links,
        counts,
        dues,
        chosen,
        waiting,
        ahead,
        behind,
        steps: Vec::new(alloc),
    })
}
