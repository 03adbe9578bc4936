// The folder of a made conference: files that a seed and a size determine.
#![tactic(auto)]

mod bids;
mod examples;
mod folder;
mod laws;
mod lines;
mod numbers;
mod pairs;
mod tables;

pub use examples::{worked_numbers, worked_rows};
pub use folder::made_folder;
pub use laws::pair_laws;
pub use pairs::MOST_BLOCKS;
