ghost use Rattle.std.specs.Prelude.{◌≡◌, length, ℕ, List, Bool, IfOk};
ghost use Rattle.bounded_network.specs.Network.{IsCirculation, AreOptimal, IsCheapest, AreViolated};
ghost use Rattle.flow_solver.specs.State.{AreBounded};
ghost use Rattle.flow_solver.specs.Solution.{IfSolved, IfUnsat};

use crate::balance::balanced;
use bounded_network::Network;
use residual_arcs::links_of;
use std::alloc::{AllocError, Global};

/// What the solver answers: nothing else is ever answered, whatever the network.
#[derive(Drop)]
pub enum Solution {
    /// A circulation of least cost: an amount for each arc, and a potential for each node that proves it.
    Solved {
        flow: Vec<u64>,
        potentials: Vec<i64>,
    },
    /// Marks of nodes into which more has to flow than can leave them, so that there is no circulation.
    Unsat {
        marks: Vec<bool>,
    },
}

/// A circulation of least cost with the potentials that prove it, or marks that prove that there is none.
///
/// Successive shortest paths (Jewell, Iri, Busacker and Gowen) with potentials (Edmonds and Karp): it begins with amounts
/// that are optimal at its first potentials but don't balance, and carries what is too much at a node to the nearest node
/// with a deficit, by reduced costs, until nothing is left or nothing is reached. Blocking passes (Dinic) come first. Where
/// the searches go over too many arcs, it begins anew at potentials that a coarse solution gives. No number of steps is
/// claimed.
pub fn solve(alloc: Global, net: &Network) -> Result<Solution, AllocError>
    ensures circulates { IfOk result (λ solution. IfSolved solution (λ flow potentials. IsCirculation net.now flow)) }
    ensures optimal { IfOk result (λ solution. IfSolved solution (λ flow potentials. AreOptimal net.now flow potentials)) }
    ensures cheapest { IfOk result (λ solution. IfSolved solution (λ flow potentials. IsCheapest net.now flow)) }
    ensures potentials { IfOk result (λ solution. IfSolved solution (λ flow potentials. length potentials ≡ net.now.nodes)) }
    ensures bounded { IfOk result (λ solution. IfSolved solution (λ flow potentials. AreBounded net.now potentials)) }
    ensures uncut { IfOk result (λ solution. IfSolved solution (λ flow potentials. (marks : List Bool) → AreViolated net.now marks → ⊥)) }

    ensures violated { IfOk result (λ solution. IfUnsat solution (λ marks. AreViolated net.now marks)) }
    ensures none { IfOk result (λ solution. IfUnsat solution (λ marks. (flow : List ℕ) → IsCirculation net.now flow → ⊥)) }
    ensures marks { IfOk result (λ solution. IfUnsat solution (λ marks. length marks ≡ net.now.nodes)) }
{
    let _nodes = net.nodes();
    let links = links_of(alloc, net)?;
    match balanced(alloc, net, &links)? {
        Ok(state) => Ok(Solution::Solved {
            flow: state.flow,
            potentials: state.potentials,
        }),
        Err(marks) => Ok(Solution::Unsat { marks }),
    }
}
