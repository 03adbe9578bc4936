// The rules that the tables of a venue make, or the first limit that they pass.
#![tactic(auto)]

mod candidates;
mod conflict;
mod fault;
mod listed;
mod locks;
mod rules;
mod tables;

pub use fault::{LimitFault, VenueFault};
pub use rules::rules_of;
pub use tables::Tables;
