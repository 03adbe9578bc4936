// Counts that are due become the other bound.

ghost use Rattle.std.specs.Prelude.{◌≡◌, ◌+◌, ◌<◌, ◌≤◌, ◌⊎◌, ℕ, length, slice_index, OnOk};
ghost use Rattle.bounded_network.specs.Network.{arc_at};
ghost use Rattle.lottery_peel.specs.Standing.{IsNextStanding, IsStanding, MultipleAt, TightAt, rest_of};

use crate::choices::choose_again;
use crate::dues::{list_due, set_dues, wait_again};
use crate::standing::Standing;
use match_rules::Rules;
use residual_arcs::{Step, arc_of};
use std::alloc::AllocError;
use unit_turns::turn;

// Gives a count that is due its other bound, by a unit over its arc and back along a path. There always is one: the amounts
// that are left show it. What is left stays, since a count that changes is due at another ticket from now on.
fn turn_due(rules: &Rules, left: u32, standing: &mut Standing, arc: u32) -> Result<(), AllocError>
    requires stands { IsStanding rules.now left (rest_of rules.now left standing.old) standing.old }
    requires some { 1 ≤ left }
    requires arc_in { arc < length standing.old.net.arcs }
    requires is_due { slice_index standing.old.dues.items arc + left ≡ rules.now.tickets }
    ensures stands { OnOk result (IsStanding rules.now left (rest_of rules.now left standing.old) standing.new) }
    ensures last { OnOk result (slice_index standing.new.dues.items arc ≡ rules.now.tickets) }
    ensures net { OnOk result (standing.new.net ≡ standing.old.net) }
    ensures tight { OnOk result ((a : ℕ) → TightAt rules.now.tickets left standing.old a → TightAt rules.now.tickets left standing.new a) }
    ensures multiple { OnOk result ((a : ℕ) → MultipleAt rules.now.tickets left standing.old a → MultipleAt rules.now.tickets left standing.new a) }
{
    let all = rules.tickets();
    let forward = standing.counts[arc as usize] < arc_of(&standing.net, arc).room;
    let turned = turn(
        &standing.net,
        &standing.links,
        &mut standing.counts,
        &mut standing.ahead,
        &mut standing.behind,
        Step { arc, forward },
        &mut standing.steps,
    )?;
    if !turned {
        unreachable!();
    }
    set_dues(
        all,
        all - left,
        standing.steps.as_slice(),
        &mut standing.dues,
    );
    wait_again(
        all,
        standing.dues.as_slice(),
        standing.steps.as_slice(),
        &mut standing.waiting,
    )?;
    choose_again(
        &standing.counts[..rules.pairs().len()],
        standing.steps.as_slice(),
        &mut standing.chosen,
    )?;
    Ok(())
}

// Turns the count unless an earlier turn has done it.
fn turn_if_due(
    rules: &Rules,
    left: u32,
    standing: &mut Standing,
    arc: u32,
) -> Result<(), AllocError>
    requires stands { IsStanding rules.now left (rest_of rules.now left standing.old) standing.old }
    requires some { 1 ≤ left }
    requires arc_in { arc < length standing.old.net.arcs }
    requires multiple { MultipleAt rules.now.tickets left standing.old arc }
    ensures stands { OnOk result (IsStanding rules.now left (rest_of rules.now left standing.old) standing.new) }
    ensures last { OnOk result (slice_index standing.new.dues.items arc ≡ rules.now.tickets) }
    ensures net { OnOk result (standing.new.net ≡ standing.old.net) }
    ensures tight { OnOk result ((a : ℕ) → TightAt rules.now.tickets left standing.old a → TightAt rules.now.tickets left standing.new a) }
    ensures multiple { OnOk result ((a : ℕ) → MultipleAt rules.now.tickets left standing.old a → MultipleAt rules.now.tickets left standing.new a) }
{
    if standing.dues[arc as usize] < rules.tickets() {
        turn_due(rules, left, standing, arc)?;
    }
    Ok(())
}

// Settles an amount that is a multiple: its count is what each ticket that is left takes, and its bounds leave no other.
fn settle(rules: &Rules, left: u32, standing: &mut Standing, arc: u32) -> Result<(), AllocError>
    requires stands { IsStanding rules.now left (rest_of rules.now left standing.old) standing.old }
    requires some { 1 ≤ left }
    requires arc_in { arc < length standing.old.net.arcs }
    requires multiple { MultipleAt rules.now.tickets left standing.old arc }
    ensures stands { OnOk result (IsStanding rules.now left (rest_of rules.now left standing.old) standing.new) }
    ensures settled { OnOk result (TightAt rules.now.tickets left standing.new arc) }
    ensures long { OnOk result (length standing.new.net.arcs ≡ length standing.old.net.arcs) }
    ensures tight { OnOk result ((a : ℕ) → TightAt rules.now.tickets left standing.old a → TightAt rules.now.tickets left standing.new a) }
    ensures multiple { OnOk result ((a : ℕ) → MultipleAt rules.now.tickets left standing.old a → MultipleAt rules.now.tickets left standing.new a) }
{
    turn_if_due(rules, left, standing, arc)?;
    let _nodes = standing.net.nodes();
    let count = standing.counts[arc as usize];
    let _held = standing.net.rebound(arc, count, count);
    Ok(())
}

// Settles all amounts of a list.
fn settle_all(
    rules: &Rules,
    left: u32,
    standing: &mut Standing,
    arcs: &[u32],
) -> Result<(), AllocError>
    requires stands { IsStanding rules.now left (rest_of rules.now left standing.old) standing.old }
    requires some { 1 ≤ left }
    requires within { (j : ℕ) → j < length arcs.now → slice_index arcs.now j < length standing.old.net.arcs }
    requires multiples { (j : ℕ) → j < length arcs.now → MultipleAt rules.now.tickets left standing.old (slice_index arcs.now j) }
    ensures stands { OnOk result (IsStanding rules.now left (rest_of rules.now left standing.old) standing.new) }
    ensures long { OnOk result (length standing.new.net.arcs ≡ length standing.old.net.arcs) }
    ensures tight { OnOk result ((a : ℕ) → TightAt rules.now.tickets left standing.old a → TightAt rules.now.tickets left standing.new a) }
    ensures settled { OnOk result ((j : ℕ) → j < length arcs.now → TightAt rules.now.tickets left standing.new (slice_index arcs.now j)) }
{
    for place in 0..arcs.len() {
        settle(rules, left, standing, arcs[place])?;
    }
    Ok(())
}

/// Makes the counts those of a next assignment, where the least of the tickets at which they are due is the one that is used now.
/// Each that is due now becomes its other bound, by a unit over its arc, and nothing else is touched but where that unit goes back.
pub fn advance(
    rules: &Rules,
    left: u32,
    standing: &mut Standing,
    arcs: &mut Vec<u32>,
) -> Result<(), AllocError>
    requires stands { IsStanding rules.now left (rest_of rules.now left standing.old) standing.old }
    requires some { 1 ≤ left }
    requires fewer { left ≤ rules.now.tickets }
    requires ready { (a : ℕ) → a < length standing.old.net.arcs → (TightAt rules.now.tickets left standing.old a ⊎ (slice_index standing.old.dues.items a + left ≡ rules.now.tickets)) }
    ensures { OnOk result (IsNextStanding rules.now left (rest_of rules.now left standing.old) standing.new) }
{
    let used = rules.tickets() - left;
    list_due(
        standing.dues.as_slice(),
        standing.waiting.at(used),
        used,
        arcs,
    )?;
    settle_all(rules, left, standing, arcs.as_slice())?;
    Ok(())
}
