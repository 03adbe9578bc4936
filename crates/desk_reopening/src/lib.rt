// A desk that is opened again from the rows of its keeper: each row is replayed by the rules that hold for a new command.
#![tactic(auto)]

mod commands;
mod faults;
mod laws;
mod lotteries;
mod numbers;
mod publishes;
mod reopening;
mod rows;

pub use faults::OpenFault;
pub use laws::{edition_laws, reopening_laws};
pub use reopening::{Reopened, reopen};
