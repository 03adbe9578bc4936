// Links over a network whose bounds were narrowed.
ghost use Rattle.residual_arcs.specs.Links.{AreLinks};
ghost use Rattle.bounded_network.specs.Network.{NetworkValue};
ghost use Rattle.unit_turns.specs.Over.{AreLinksOver, IsNarrower};

use bounded_network::Network;
use residual_arcs::Links;

/// A law: links serve the network that they were made of, and go on to serve it as bounds are narrowed.
pub fn links_serve(net: &Network, links: &Links)
    ensures made { AreLinks net.now links.now → AreLinksOver net.now links.now }
    ensures narrowed { (wide : NetworkValue) → IsNarrower wide net.now → AreLinksOver wide links.now → AreLinksOver net.now links.now }
{
    let _arcs = net.arcs();
    let _starts = links.starts.len();
}
