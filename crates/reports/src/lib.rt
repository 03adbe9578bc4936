// Reports of a certified lottery: exact tables of its shares, of the loads of reviewers, of the scores of papers, of the
// institutions, and of the assignment that a ticket draws.
#![tactic(auto)]

mod assignment;
mod examples;
mod institutions;
mod kinds;
mod lines;
mod loads;
mod names;
mod papers;
mod shares;
mod writing;

pub use examples::worked_reports;
pub use kinds::{Report, ReportFault};
pub use writing::report;
