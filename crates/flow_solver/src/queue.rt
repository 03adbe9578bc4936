// Nodes that wait at a distance, the nearest first, and of nodes at one distance the last one. In a network of rules the hub,
// where the deficits are, is the last node, and the reviewers stand before it: so among equals the deficits are near.
ghost use Rattle.std.specs.Prelude.{◌≡◌, ◌+◌, ◌<◌, ◌≤◌, ◌⊎◌, ℕ, OnOk, IfSome, IfNone};
ghost use Rattle.std.specs.BinaryHeap.{heap_items, heap_len, IsHeap};
ghost use Rattle.std.proofs.Props.{props};
ghost use Rattle.flow_solver.specs.Queue.{nearer, Waits};

use std::alloc::{AllocError, Global};
use std::cmp::Reverse;
use std::collections::BinaryHeap;

#[derive(Drop)]
pub struct Queue {
    pub waiting: BinaryHeap<(Reverse<u64>, u32)>,
    ghost ordered: { IsHeap nearer (heap_items waiting) } by { Prim.hlevel props },
}

pub fn empty(alloc: Global) -> Queue
    ensures none { (d v : ℕ) → Waits (heap_items result.waiting) d v → ⊥ }
{
    Queue {
        waiting: BinaryHeap::new(alloc),
    }
}

pub fn push(queue: &mut Queue, distance: u64, node: u32) -> Result<(), AllocError>
    ensures added { OnOk result (Waits (heap_items queue.new.waiting) distance node) }
    ensures kept { OnOk result ((d v : ℕ) → Waits (heap_items queue.old.waiting) d v → Waits (heap_items queue.new.waiting) d v) }
    ensures only { OnOk result ((d v : ℕ) → Waits (heap_items queue.new.waiting) d v → Waits (heap_items queue.old.waiting) d v ⊎ ((d ≡ distance) × (v ≡ node))) }
{
    queue.waiting.push((Reverse(distance), node))?;
    Ok(())
}

pub fn pop(queue: &mut Queue) -> Option<(u64, u32)>
    ensures shorter { IfSome result (λ x. heap_len queue.new.waiting + 1 ≡ heap_len queue.old.waiting) }
    ensures waited { IfSome result (λ x. Waits (heap_items queue.old.waiting) x.0 x.1) }
    ensures kept { IfSome result (λ x. (d v : ℕ) → Waits (heap_items queue.old.waiting) d v → Waits (heap_items queue.new.waiting) d v ⊎ ((d ≡ x.0) × (v ≡ x.1))) }
    ensures only { (d v : ℕ) → Waits (heap_items queue.new.waiting) d v → Waits (heap_items queue.old.waiting) d v }
    ensures nearest { IfSome result (λ x. (d v : ℕ) → Waits (heap_items queue.old.waiting) d v → x.0 ≤ d) }
    ensures none { IfNone result ((d v : ℕ) → Waits (heap_items queue.old.waiting) d v → ⊥) }
{
    match queue.waiting.pop() {
        Some((Reverse(distance), node)) => Some((distance, node)),
        None => None,
    }
}

/// The nodes that wait, in any order, each as often as it waits.
pub fn waiting(queue: &Queue) -> &[(Reverse<u64>, u32)]
    ensures { result.now ≡ heap_items queue.now.waiting }
{
    queue.waiting.as_slice()
}

pub fn clear(queue: &mut Queue)
    ensures none { (d v : ℕ) → Waits (heap_items queue.new.waiting) d v → ⊥ }
{
    queue.waiting.clear();
}
