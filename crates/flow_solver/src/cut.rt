// Marks that may show that there is no circulation.
ghost use Rattle.std.specs.Prelude.{◌≡◌, ◌^◌, ◌≤◌, ◌&&◌, not, length, pos, ◌+ℤ◌, ◌-ℤ◌, IfOk};
ghost use Rattle.std.specs.Bool.{OnTrue};
ghost use Rattle.match_rules.specs.Sums.{when};
ghost use Rattle.bounded_network.specs.Network.{IsNetwork, AreViolated, arc_at, is_marked};
ghost use Rattle.bounded_network.specs.declared.network.TheConstants.{MAX_ROOM};
ghost use Rattle.flow_solver.specs.State.{IsWithin};

use bounded_network::{Arc, Network};
use residual_arcs::{arc_count, arc_of};
use std::alloc::{AllocError, Global};

// The greatest and the least of the potentials, and 0, halved.
fn middle_of(potentials: &[i64]) -> i64 {
    let mut least = 0;
    let mut greatest = 0;
    for potential in potentials {
        least = least.min(*potential);
        greatest = greatest.max(*potential);
    }
    least / 2 + greatest / 2
}

/// Marks at the nodes whose potential is below the middle of all. Where more has to enter some nodes than can leave them,
/// a coarse solution lets those update_tree without end, and the others stay.
pub fn low_nodes(alloc: Global, potentials: &[i64]) -> Result<Vec<bool>, AllocError>
    ensures { IfOk result (λ marks. length marks.items ≡ length potentials.now) }
{
    let middle = middle_of(potentials);
    let mut marks = Vec::with_capacity(alloc, potentials.len())?;
    for potential in potentials {
        marks.push(*potential < middle)?;
    }
    Ok(marks)
}

// The balance with the floor of the arc added if it enters the marked nodes, and its room taken away if it leaves them.
fn with_arc(balance: i128, arc: Arc, tail: bool, head: bool) -> i128
    requires small { IsWithin (2 ^ 100) balance }
    requires floor { arc.floor ≤ MAX_ROOM }
    requires room { arc.room ≤ MAX_ROOM }
    ensures { result ≡ (balance +ℤ pos (when (head && not tail) arc.floor)) -ℤ pos (when (tail && not head) arc.room) }
{
    if head && !tail {
        balance + arc.floor as i128
    } else if tail && !head {
        balance - arc.room as i128
    } else {
        balance
    }
}

/// Whether more has to enter the marked nodes than can leave them.
pub fn is_violated(net: &Network, marks: &[bool]) -> bool
    requires { length marks.now ≡ net.now.nodes }
    ensures { OnTrue result (AreViolated net.now marks.now) }
{
    let mut balance = 0i128;
    for place in 0..arc_count(net) {
        let arc = arc_of(net, place);
        let tail = marks[arc.tail as usize];
        let head = marks[arc.head as usize];
        balance = with_arc(balance, arc, tail, head);
    }
    balance > 0
}
