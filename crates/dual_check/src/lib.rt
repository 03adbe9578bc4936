// Prices that show a lottery best, and cuts that show that none fits.
#![tactic(auto)]

mod amounts;
mod cuts;
mod laws;
mod marks;
mod prices;
mod sums;

pub use cuts::{excess, is_violated};
pub use laws::evidence_laws;
pub use prices::{bound, is_best};
pub use sums::Excess;
