// What potentials and marks of any network show.

ghost use Rattle.std.specs.Prelude.{List, ℕ, ℤ, Bool, ◌≤◌};
ghost use Rattle.bounded_network.specs.Network.{IsCirculation, AreOptimal, IsCheapest, AreViolated};
ghost use Rattle.bounded_network.specs.Scaled.{IsScaled};

use crate::network::Network;

/// A law: no circulation costs less than one with optimal potentials.
pub fn optimal_is_cheapest(network: &Network)
    ensures { (flow : List ℕ) (potentials : List ℤ) → IsCirculation network.now flow → AreOptimal network.now flow potentials → IsCheapest network.now flow }
{
    let _arcs = network.arcs();
}

/// A law: where marks are violated there is no circulation, and nothing balances between any multiple of the bounds.
pub fn violated_excludes(network: &Network)
    ensures none { (marks : List Bool) (flow : List ℕ) → AreViolated network.now marks → ¬ (IsCirculation network.now flow) }
    ensures any_scale { (marks : List Bool) (scale : ℕ) (flow : List ℕ) → AreViolated network.now marks → 1 ≤ scale → ¬ (IsScaled network.now scale flow) }
{
    let _arcs = network.arcs();
}
