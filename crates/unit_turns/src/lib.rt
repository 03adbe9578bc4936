// A unit more, or less, over one arc of a circulation, which goes back along a path.
//
// Where a step over an arc takes a unit from u to v, the unit goes back by steps from v to u on which something is left (Ahuja,
// Magnanti and Orlin, Network Flows, 1993, chapter 2). The path is searched from both ends: nodes that v reaches, and nodes
// that reach u, one node of each in turn, until a step leads from the one side to the other (Pohl, Bi-directional Search, 1971).
// Where a side comes to its end first there is no such path. Then the nodes that v reaches, or those that don't reach u, are
// marks that are violated in the network whose arc is held at the unit more, or less: it has no circulation.
#![tactic(auto)]

mod carrying;
mod examples;
mod over;
mod route;
mod scanning;
mod side;
mod turning;

pub use examples::worked_turns;
pub use over::links_serve;
pub use side::{Reach, Side, blank};
pub use turning::turn;
