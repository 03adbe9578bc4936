// Networks at no cost.

ghost use Rattle.std.specs.Prelude.{◌≡◌, ◌<◌, ◌↔◌, List, ℕ, Bool, IfOk, map, length};
ghost use Rattle.bounded_network.specs.Network.{IsCirculation, AreViolated};
ghost use Rattle.fair_threshold.specs.Search.{unpriced, IsUnpriced};

use bounded_network::{Arc, Network};
use std::alloc::{AllocError, Global};

// The arcs at no cost.
fn arcs_of(alloc: Global, arcs: &[Arc]) -> Result<Vec<Arc>, AllocError>
    ensures { IfOk result (λ free. free.items ≡ map unpriced arcs.now) }
{
    arcs.iter()
        .map(|arc| Arc { cost: 0, ..*arc })
        .collect(alloc)
}

/// The same network at no cost. Its circulations are the same, and so are violated marks.
pub(crate) fn without_costs(alloc: Global, net: &Network) -> Result<Network, AllocError>
    ensures value { IfOk result (IsUnpriced net.now) }
    ensures circulations { IfOk result (λ free. (flow : List ℕ) → IsCirculation free flow ↔ IsCirculation net.now flow) }
    ensures marks { IfOk result (λ free. (marks : List Bool) → AreViolated free marks → AreViolated net.now marks) }
{
    let arcs = arcs_of(alloc, net.arcs())?;
    match Network::new(net.nodes(), arcs) {
        Ok(free) => Ok(free),
        Err(_) => unreachable!(),
    }
}
