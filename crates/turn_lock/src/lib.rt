//! A lock for a value whose past only grows. Who takes the value in turn learns that its past begins with all that the
//! taker has seen.
#![tactic(auto)]

mod grows;
mod laws;
mod lock;
mod pass;
mod plays;
mod steps;
mod view;

pub use grows::Grows;
pub use laws::rule_says;
pub use lock::{Made, NoRoom, TurnLock};
pub use pass::{Pass, Spent};
