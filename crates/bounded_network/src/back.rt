// What a circulation, potentials and marks of the network of rules mean for the rules.

ghost use Rattle.std.specs.Prelude.{◌≡◌, ℕ, List, ◌<◌, ◌≤◌, length, IfOk, ◌-ℤ◌};
ghost use Rattle.match_rules.specs.Answers.{CutMatches, PricesMatch};
ghost use Rattle.match_rules.specs.Evidence.{bound, need, room, Violated};
ghost use Rattle.match_rules.specs.Groups.{group_count};
ghost use Rattle.match_rules.specs.Plain.{Plain};
ghost use Rattle.match_rules.specs.Rules.{AreRules};
ghost use Rattle.match_rules.specs.SharesFit.{SharesFit, shares_score};
ghost use Rattle.bounded_network.specs.Back.{AreWithinCosts, IsNear, paper_price_in, group_price_in, reviewer_price_in, prices_in, places_where, is_apart, cut_in};
ghost use Rattle.bounded_network.specs.Compile.{listed, node_count, hub, group_node, reviewer_node, network_of, amounts_in};
ghost use Rattle.bounded_network.specs.Network.{IsCirculation, AreOptimal, AreViolated, floors_into, rooms_out_of, potential_at, is_marked};
ghost use Rattle.bounded_network.specs.Spans.{ticket_spans};

use crate::layout::{group_node_of, hub_of, parent, reviewer_node_of};
use match_rules::{Cut, Places, PriceList, Prices, Rules, Shares, Side, Sieve};
use std::alloc::{AllocError, Global};

/// The shares of the pairs in a circulation of the network of the same rules and sieve, compiled with `Tickets`.
pub fn shares_of(
    alloc: Global,
    rules: &Rules,
    sieve: Sieve,
    flow: &[u64],
) -> Result<Shares, AllocError>
    requires plain { Plain rules.now }
    requires circulates { IsCirculation (network_of rules.now (ticket_spans rules.now sieve)) flow.now }
    ensures value { IfOk result (λ shares. shares ≡ amounts_in rules.now flow.now) }
    ensures fit { IfOk result (SharesFit rules.now sieve) }
{
    let count = rules.pairs().len();
    let mut tickets = Vec::with_capacity(alloc, count)?;
    for e in 0..count {
        tickets.push(flow[e] as u32)?;
    }
    Ok(Shares::from_vec(tickets))
}

// What the potential rises from one node to another.
fn rise(potentials: &[i64], from: u32, to: u32) -> i64
    requires from { from < length potentials.now }
    requires to { to < length potentials.now }
    requires near { (v : ℕ) → IsNear (potential_at potentials.now v) }
    ensures { result ≡ potential_at potentials.now to -ℤ potential_at potentials.now from }
{
    potentials[to as usize] - potentials[from as usize]
}

// The prices of the papers.
fn paper_prices(alloc: Global, rules: &Rules, potentials: &[i64]) -> Result<Vec<i64>, AllocError>
    requires long { length potentials.now ≡ node_count rules.now }
    requires within { AreWithinCosts rules.now potentials.now }
    ensures prices { IfOk result (λ prices. prices.items ≡ listed (length rules.now.papers) (paper_price_in rules.now potentials.now)) }
    ensures kept { AreRules rules.now }
{
    let hub = hub_of(rules);
    let count = rules.papers().len() as u32;
    let mut prices = Vec::with_capacity(alloc, count as usize)?;
    for p in 0..count {
        prices.push(rise(potentials, hub, p))?;
    }
    Ok(prices)
}

// The prices of the groups.
fn group_prices(alloc: Global, rules: &Rules, potentials: &[i64]) -> Result<Vec<i64>, AllocError>
    requires long { length potentials.now ≡ node_count rules.now }
    requires within { AreWithinCosts rules.now potentials.now }
    ensures { IfOk result (λ prices. prices.items ≡ listed (group_count rules.now) (group_price_in rules.now potentials.now)) }
{
    let count = rules.group_count();
    let mut prices = Vec::with_capacity(alloc, count as usize)?;
    for g in 0..count {
        let parent = parent(rules, g);
        let group = group_node_of(rules, g);
        prices.push(rise(potentials, parent, group))?;
    }
    Ok(prices)
}

// The prices of the reviewers.
fn reviewer_prices(alloc: Global, rules: &Rules, potentials: &[i64]) -> Result<Vec<i64>, AllocError>
    requires long { length potentials.now ≡ node_count rules.now }
    requires within { AreWithinCosts rules.now potentials.now }
    ensures { IfOk result (λ prices. prices.items ≡ listed (length rules.now.reviewers) (reviewer_price_in rules.now potentials.now)) }
{
    let hub = hub_of(rules);
    let count = rules.reviewers().len() as u32;
    let mut prices = Vec::with_capacity(alloc, count as usize)?;
    for r in 0..count {
        let reviewer = reviewer_node_of(rules, r);
        prices.push(rise(potentials, reviewer, hub))?;
    }
    Ok(prices)
}

/// The prices of potentials of the network of the same rules and sieve, compiled with `Tickets`: what the potential rises
/// from the hub to a paper, from its parent to a group, and from a reviewer to the hub. Their bound is the score of every
/// circulation that is optimal at the potentials.
pub fn prices_of(
    alloc: Global,
    rules: &Rules,
    sieve: Sieve,
    potentials: &[i64],
) -> Result<Prices, AllocError>
    requires plain { Plain rules.now }
    requires long { length potentials.now ≡ node_count rules.now }
    requires within { AreWithinCosts rules.now potentials.now }
    ensures value { IfOk result (λ prices. prices ≡ prices_in rules.now potentials.now) }
    ensures fitting { IfOk result (PricesMatch rules.now) }
    ensures bound { IfOk result (λ prices. (flow : List ℕ) → IsCirculation (network_of rules.now (ticket_spans rules.now sieve)) flow → AreOptimal (network_of rules.now (ticket_spans rules.now sieve)) flow potentials.now → bound rules.now sieve prices ≡ shares_score rules.now (amounts_in rules.now flow)) }
{
    let papers = paper_prices(alloc, rules, potentials)?;
    let groups = group_prices(alloc, rules, potentials)?;
    let reviewers = reviewer_prices(alloc, rules, potentials)?;
    Ok(Prices {
        papers: PriceList::from_vec(papers),
        groups: PriceList::from_vec(groups),
        reviewers: PriceList::from_vec(reviewers),
    })
}

// Whether a node is on the other side of the marks than the hub.
fn is_across(rules: &Rules, marks: &[bool], node: u32) -> bool
    requires long { length marks.now ≡ node_count rules.now }
    requires within { node < node_count rules.now }
    ensures { result ≡ is_apart rules.now marks.now node }
{
    let hub = hub_of(rules);
    if marks[hub as usize] {
        !marks[node as usize]
    } else {
        marks[node as usize]
    }
}

// The papers across from the hub.
fn papers_across(alloc: Global, rules: &Rules, marks: &[bool]) -> Result<Vec<u32>, AllocError>
    requires { length marks.now ≡ node_count rules.now }
    ensures { IfOk result (λ places. places.items ≡ places_where (length rules.now.papers) (is_apart rules.now marks.now)) }
{
    let mut places = Vec::new(alloc);
    for p in 0..rules.papers().len() as u32 {
        let across = is_across(rules, marks, p);
        if across {
            places.push(p)?;
        }
    }
    Ok(places)
}

// The groups across from the hub.
fn groups_across(alloc: Global, rules: &Rules, marks: &[bool]) -> Result<Vec<u32>, AllocError>
    requires { length marks.now ≡ node_count rules.now }
    ensures { IfOk result (λ places. places.items ≡ places_where (group_count rules.now) (λ g. is_apart rules.now marks.now (group_node rules.now g))) }
{
    let mut places = Vec::new(alloc);
    for g in 0..rules.group_count() {
        let across = is_across(rules, marks, group_node_of(rules, g));
        if across {
            places.push(g)?;
        }
    }
    Ok(places)
}

// The reviewers across from the hub.
fn reviewers_across(alloc: Global, rules: &Rules, marks: &[bool]) -> Result<Vec<u32>, AllocError>
    requires { length marks.now ≡ node_count rules.now }
    ensures { IfOk result (λ places. places.items ≡ places_where (length rules.now.reviewers) (λ r. is_apart rules.now marks.now (reviewer_node rules.now r))) }
{
    let mut places = Vec::new(alloc);
    for r in 0..rules.reviewers().len() as u32 {
        let across = is_across(rules, marks, reviewer_node_of(rules, r));
        if across {
            places.push(r)?;
        }
    }
    Ok(places)
}

/// The cut of violated marks of the network of the same rules and sieve, compiled with `Tickets`: the papers, groups and
/// reviewers on the other side than the hub, into them where they are the marked ones, and out of them where the hub is
/// marked. What has to pass it is the floors that enter the marks, and what may pass it the rooms that leave them.
pub fn cut_of(alloc: Global, rules: &Rules, sieve: Sieve, marks: &[bool]) -> Result<Cut, AllocError>
    requires plain { Plain rules.now }
    requires long { length marks.now ≡ node_count rules.now }
    requires broken { AreViolated (network_of rules.now (ticket_spans rules.now sieve)) marks.now }
    ensures value { IfOk result (λ cut. cut ≡ cut_in rules.now marks.now) }
    ensures fitting { IfOk result (CutMatches rules.now) }
    ensures need { IfOk result (λ cut. need rules.now sieve cut ≡ floors_into (network_of rules.now (ticket_spans rules.now sieve)) marks.now) }
    ensures room { IfOk result (λ cut. room rules.now sieve cut ≡ rooms_out_of (network_of rules.now (ticket_spans rules.now sieve)) marks.now) }
    ensures violated { IfOk result (Violated rules.now sieve) }
{
    let papers = papers_across(alloc, rules, marks)?;
    let groups = groups_across(alloc, rules, marks)?;
    let reviewers = reviewers_across(alloc, rules, marks)?;
    let side = if marks[hub_of(rules) as usize] {
        Side::OutOf
    } else {
        Side::Into
    };
    Ok(Cut {
        side,
        papers: Places::from_vec(papers),
        groups: Places::from_vec(groups),
        reviewers: Places::from_vec(reviewers),
    })
}
