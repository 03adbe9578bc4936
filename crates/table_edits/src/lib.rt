// Bodies for the tables of a venue: what each names, and the table after its rows are put.
#![tactic(auto)]

mod bodies;
mod edit;
mod files;
mod puts;
mod starts;

pub use bodies::{
    bids_after, caps_after, marks_after, papers_after, reviewers_after, values_after,
};
pub use edit::{Body, Edit, How, TableName};
pub use files::{file_name, has_to_be_there, tables_of};
pub use starts::scores_under;
