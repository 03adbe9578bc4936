// Carrying a unit over steps.
ghost use Rattle.bounded_network.specs.Network.{IsCirculation};
ghost use Rattle.unit_turns.specs.Steps.{AreFree, AreRound, AreTaken};

use bounded_network::Network;
use residual_arcs::{Step, arc_of, carry_on};

/// Carries a unit over each of the steps, which lead back to where they begin.
pub fn carry_round(net: &Network, flow: &mut [u64], steps: &[Step])
    requires circulation { IsCirculation net.now flow.old }
    requires free { AreFree net.now flow.old steps.now }
    requires round { AreRound net.now steps.now }
    ensures circulation { IsCirculation net.now flow.new }
    ensures taken { AreTaken net.now flow.old flow.new steps.now }
{
    for place in 0..steps.len() {
        let step = steps[place];
        let arc = arc_of(net, step.arc);
        let had = flow[step.arc as usize];
        flow[step.arc as usize] = carry_on(arc, had, step.forward, 1);
    }
}
