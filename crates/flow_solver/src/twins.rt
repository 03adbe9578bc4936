// The two links over each arc, forward and back, know each other.
ghost use Rattle.std.specs.Prelude.{◌≡◌, length, IfOk};
ghost use Rattle.residual_arcs.specs.Links.{AreLinks};

use crate::links::link_of;
use bounded_network::Network;
use residual_arcs::Links;
use std::alloc::{AllocError, Global};

/// For each link the place of the other link over its arc.
pub fn twins_of(alloc: Global, net: &Network, links: &Links) -> Result<Vec<usize>, AllocError>
    requires links { AreLinks net.now links.now }
    ensures { IfOk result (λ twins. length twins.items ≡ length links.now.all.items) }
{
    let count = links.all.len();
    let mut twins = vec![in alloc; 0usize; count]?;
    let mut seen = vec![in alloc; count; net.arcs().len()]?;
    for place in 0..count {
        let arc = link_of(net, links, place).step.arc as usize;
        let twin = seen[arc];
        if twin < count {
            twins[place] = twin;
            twins[twin] = place;
        }
        seen[arc] = place;
    }
    Ok(twins)
}
