// A circulation of least cost, with the potentials that prove it, or marks that prove that there is none.
//
// Given a network of arcs a with floors l(a), rooms u(a) and costs c(a) a unit, find amounts x(a) with
// l(a) <= x(a) <= u(a), as much entering each node as leaving it, and the sum of c(a) * x(a) least. Potentials p prove that
// it is least: c(a) + p(tail) - p(head) >= 0 where x(a) < u(a), and <= 0 where x(a) > l(a). Where there are no such amounts,
// marks on nodes show it: the floors of the arcs into the marked nodes sum to more than the rooms of the arcs out of them.
// The limits are those of `bounded_network::Network`; a potential is of magnitude at most the greatest cost times the nodes.
//
// Successive shortest paths (Jewell 1958; Iri 1960; Busacker and Gowen 1960) with potentials (Edmonds and Karp 1972),
// from amounts that are optimal at the potentials where it starts and don't balance yet. Blocking passes (Dinic 1970) carry
// away what steps of reduced cost 0 can. Each further path is found by Dijkstra's search. Where the searches go over too many
// arcs, it starts anew at the potentials of a coarse solution by cost scaling (Goldberg and Tarjan 1990) with global updates
// (Goldberg 1997), which also finds most of the marks. What is proved says nothing of the number of steps. The type of the
// search's state keeps its amounts within their bounds, its excesses exact, and no negative reduced cost where more can flow.
#![tactic(auto)]

mod balance;
mod blank;
mod blocking;
mod coarse;
mod cut;
mod drain;
mod global_update;
mod guess;
mod levels;
mod links;
mod path;
mod push;
mod queue;
mod refinement;
mod scaling;
mod search;
mod solver;
mod start;
mod state;
mod twins;
mod unit;

pub use solver::{Solution, solve};
