// What holds of every legal history of a desk.
#![tactic(auto)]

mod evidence;
mod reopened;

pub use evidence::evidence_laws;
pub use reopened::reopened_laws;
