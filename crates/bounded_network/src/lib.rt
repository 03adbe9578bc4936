// Networks whose arcs carry an amount between a floor and a room, at a cost a unit, and the network of rules.
//
// A network has nodes 0, 1, .., and arcs a from tail(a) to head(a) with a floor l(a), a room u(a) and a cost c(a). A
// circulation x has l(a) <= x(a) <= u(a), and at each node as much enters as leaves; its cost is the sum of c(a) * x(a).
// `specs/Network.antt` has these definitions, and those of optimal potentials and of violated marks; `proofs/Laws.antt`
// proves of them that optimal potentials make a circulation cheapest, and that violated marks exclude every circulation.
#![tactic(auto)]

mod arcs;
mod back;
mod bounds;
mod compiling;
mod evidence;
mod examples;
mod layout;
mod limits;
mod network;
mod places;
mod spans;
mod totals;

pub use back::{cut_of, prices_of, shares_of};
pub use compiling::compile;
pub use evidence::{optimal_is_cheapest, violated_excludes};
pub use examples::worked_networks;
pub use network::{Arc, MAX_ARCS, MAX_COST, MAX_NODES, MAX_ROOM, Network};
pub use places::place_laws;
pub use spans::{Amounts, Span};
pub use totals::amounts_of;
