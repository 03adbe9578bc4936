// Rows that are kept in a table of an SQLite database.
#![tactic(auto)]

mod keeper;
mod opening;
mod statements;

pub use keeper::SqliteKeeper;
