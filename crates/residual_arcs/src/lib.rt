// The residual arcs of a network: the steps over its arcs, and for each node the steps that leave it.
//
// Where an arc a carries x(a), with l(a) <= x(a) <= u(a), a step forward over it goes from its tail to its head and may carry
// u(a) - x(a) more, and a step back goes from its head to its tail and may carry x(a) - l(a) less. A search for a path goes
// over the steps that leave a node and have something left (Ahuja, Magnanti and Orlin, Network Flows, 1993, chapter 2).
// An arc whose floor is its room never has anything left, so `Links` leaves it out.
//
// `proofs/Amounts.antt` says what a changed amount does to what enters and leaves a node, and `proofs/Closing.antt` that nodes
// which no step with something left leaves are violated marks if more enters than leaves them.
#![tactic(auto)]

mod chains;
mod links;
mod step;

pub use links::{Link, Links, degree_of, links_of};
pub use step::{Step, arc_count, arc_of, carry_on, cost, end, left, start};
