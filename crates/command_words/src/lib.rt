// The words that the program `matcher` takes, read with `clap`.
#![tactic(auto)]

mod chairs;
mod examples;
mod found;
mod usage_text;
mod words;

pub use chairs::MOST_CHAIRS;
pub use examples::{worked_makings, worked_reports, worked_sessions};
pub use usage_text::usage;
pub use words::{Command, MOST_SEED, MOST_SIZE, MOST_TICKET, WordsFault, read_words};
