// The links of a network, for those who want to know no more than that they are safe to follow.
ghost use Rattle.std.specs.Prelude.{◌<◌, length};
ghost use Rattle.flow_solver.specs.Links.{IsLinkWithin};
ghost use Rattle.residual_arcs.specs.Links.{AreLinks};

use bounded_network::Network;
use residual_arcs::{Link, Links};

/// The link at the place.
pub fn link_of(net: &Network, links: &Links, place: usize) -> Link
    requires links { AreLinks net.now links.now }
    requires place_in { place < length links.now.all.items }
    ensures { IsLinkWithin net.now result }
{
    let _nodes = net.nodes();
    links.all[place]
}
