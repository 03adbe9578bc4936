// The tickets at which counts are due.

ghost use Rattle.std.specs.Prelude.{◌≡◌, ◌≢◌, ◌<◌, ◌≤◌, ◌↔◌, ◌^◌, ℕ, length, slice_index, Contains, IsTrue, MatchBool, IfOk, OnOk};
ghost use Rattle.unit_turns.specs.Steps.{step_at};
ghost use Rattle.lottery_peel.specs.Standing.{AreDueArcs, AreTurned, AreWaiting, IsLeastDue, Waits};

use crate::due_lists::DueLists;
use residual_arcs::Step;
use std::alloc::{AllocError, Global};

// Whether the arc's count is due at the ticket.
fn is_due(dues: &[u32], arc: u32, ticket: u32) -> bool
    ensures { IsTrue result ↔ ((arc < length dues.now) × (slice_index dues.now arc ≡ ticket)) }
{
    match dues.get(arc as usize) {
        Some(due) => *due == ticket,
        None => false,
    }
}

// Whether one of the arcs has a count that is due at the ticket.
fn some_due(dues: &[u32], arcs: &[u32], ticket: u32) -> bool
    ensures { MatchBool result
        ((a : ℕ) × ((a < length dues.now) × (slice_index dues.now a ≡ ticket)))
        ((a : ℕ) → Contains arcs.now a → a < length dues.now → slice_index dues.now a ≢ ticket) }
{
    for arc in arcs {
        if is_due(dues, *arc, ticket) {
            return true;
        }
    }
    false
}

/// The ticket at which a count is due first, and all tickets where none is due before. It lies after those that are used, and
/// only the lists of the tickets up to it are looked at.
pub fn least_due(all: u32, used: u32, dues: &[u32], waiting: &DueLists) -> u32
    requires waiting { AreWaiting all dues.now waiting.now }
    requires some { used < all }
    requires after { (a : ℕ) → a < length dues.now → used < slice_index dues.now a }
    ensures { IsLeastDue all dues.now result }
{
    for ticket in used + 1..all {
        if some_due(dues, waiting.at(ticket), ticket) {
            return ticket;
        }
    }
    all
}

// Lists those of the arcs whose counts are due at the ticket.
fn keep_due(
    dues: &[u32],
    waiting: &[u32],
    ticket: u32,
    arcs: &mut Vec<u32>,
) -> Result<(), AllocError>
    requires waiting { (a : ℕ) → a < length dues.now → slice_index dues.now a ≡ ticket → Contains waiting.now a }
    ensures { OnOk result (AreDueArcs dues.now ticket arcs.new.items) }
{
    arcs.clear();
    for arc in waiting {
        if is_due(dues, *arc, ticket) {
            arcs.push(*arc)?;
        }
    }
    Ok(())
}

/// Lists the places of the counts that are due at the ticket, in ascending order. They are among those that wait.
pub fn list_due(
    dues: &[u32],
    waiting: &[u32],
    ticket: u32,
    arcs: &mut Vec<u32>,
) -> Result<(), AllocError>
    requires waiting { (a : ℕ) → a < length dues.now → slice_index dues.now a ≡ ticket → Contains waiting.now a }
    ensures { OnOk result (AreDueArcs dues.now ticket arcs.new.items) }
{
    keep_due(dues, waiting, ticket, arcs)?;
    arcs.sort_unstable();
    Ok(())
}

/// Sets the tickets at which counts are due that were raised or lowered by a unit at this ticket.
pub fn set_dues(all: u32, ticket: u32, steps: &[Step], dues: &mut [u32])
    requires within { (i : ℕ) → i < length steps.now → (step_at steps.now i).arc < length dues.old }
    requires apart { (i j : ℕ) → i < j → j < length steps.now → (step_at steps.now i).arc ≢ (step_at steps.now j).arc }
    requires after { (i : ℕ) → i < length steps.now → ticket ≤ slice_index dues.old (step_at steps.now i).arc }
    requires before { (i : ℕ) → i < length steps.now → slice_index dues.old (step_at steps.now i).arc ≤ all }
    ensures { AreTurned all ticket steps.now (length steps.now) dues.old dues.new }
{
    for place in 0..steps.len() {
        let arc = steps[place].arc as usize;
        dues[arc] = ticket + (all - dues[arc]);
    }
}

// Lets an arc wait for the ticket at which its count is due, unless that comes with all tickets.
fn wait(all: u32, due: u32, arc: u32, waiting: &mut DueLists) -> Result<(), AllocError>
    requires long { length waiting.old ≡ all }
    ensures long { OnOk result (length waiting.new ≡ all) }
    ensures added { OnOk result (due < all → Waits waiting.new due arc) }
    ensures kept { OnOk result ((ticket a : ℕ) → Waits waiting.old ticket a → Waits waiting.new ticket a) }
{
    if due < all {
        waiting.push(due, arc)?;
    }
    Ok(())
}

/// Lets arcs wait over which steps were taken, so that all arcs wait whose counts are due before all tickets.
pub fn wait_again(
    all: u32,
    dues: &[u32],
    steps: &[Step],
    waiting: &mut DueLists,
) -> Result<(), AllocError>
    requires within { (i : ℕ) → i < length steps.now → (step_at steps.now i).arc < length dues.now }
    requires long { length waiting.old ≡ all }
    requires others { (a : ℕ) → a < length dues.now → slice_index dues.now a < all → ((i : ℕ) → i < length steps.now → (step_at steps.now i).arc ≢ a) → Waits waiting.old (slice_index dues.now a) a }
    ensures { OnOk result (AreWaiting all dues.now waiting.new) }
{
    for place in 0..steps.len() {
        let arc = steps[place].arc;
        wait(all, dues[arc as usize], arc, waiting)?;
    }
    Ok(())
}

/// Arcs that wait each for the ticket at which its count is due.
pub fn all_waiting(alloc: Global, all: u32, dues: &[u32]) -> Result<DueLists, AllocError>
    requires few { length dues.now < 2 ^ 32 }
    ensures { IfOk result (λ waiting. AreWaiting all dues.now waiting) }
{
    let mut waiting = DueLists::empty(alloc, all)?;
    for arc in 0..dues.len() {
        wait(all, dues[arc], arc as u32, &mut waiting)?;
    }
    Ok(waiting)
}
