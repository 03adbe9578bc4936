// Venues, their edits and their rules, and the venue of a folder.
#![tactic(auto)]

mod examples;
mod fault;
mod loading;
mod next;
mod venue;

pub use examples::worked_rules;
pub use fault::{EditFault, LoadFault};
pub use loading::load;
pub use table_edits::{Body, Edit, How, TableName};
pub use venue::{Edited, Venue};
pub use venue_rules::LimitFault;
