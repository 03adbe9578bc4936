// From shares to a lottery of whole assignments.
//
// The shares of the pairs give each pair, paper, group and reviewer an amount of tickets. While tickets are left, some
// whole assignment has a count of each that is its amount divided by the tickets that are left, rounded down or up. It
// stands for as many tickets as leave room for a next one: then it is a piece, and what it takes is taken off. So the
// pieces have exactly the shares, and each of them is rounded from all shares, since the bounds of an amount only narrow.
// A piece settles an amount that was open, so there are few.
//
// The first assignment is a flow of the network with rounded bounds. It stands from piece to piece (`Standing`): each count has a
// ticket at which it is due, which doesn't change while it stands, and its arc waits in the list of that ticket (`DueLists`), so that
// no other arc is looked at. At that ticket the amount is a multiple, and the count is given its other bound by a turn
// (`unit_turns`), after which the bounds leave no other. A turn always finds a way, since the amounts that are left are balanced
// between the bounds times the tickets that are left. What is left of an amount is kept nowhere: the bounds of its arc, its count and
// the ticket at which that is due determine it. The pairs that have a count are kept as a list, into and out of which a turn takes
// pairs (`choices`), so that a piece copies it out. All of it is one type (`Remainder`): a piece is one step of it.
//
// `specs/Peeling.antt` has the definitions of a step and of the pieces, `specs/Standing.antt` those of the counts that stand,
// `specs/Choices.antt` those of the chosen pairs, and `specs/Remainder.antt` what is left; `proofs/` has the laws of one amount, of lists, of flows, of networks and of the loop.
#![tactic(auto)]

mod choices;
mod due_lists;
mod dues;
mod examples;
mod peeling;
mod remainder;
mod settling;
mod standing;
mod weights;

pub use examples::worked_steps;
pub use peeling::peel;
