// The top call of the program `matcher`: words, what they read and what they write.
#![tactic(auto)]

mod checking;
mod folder_rules;
mod lines;
mod made_line;
mod making;
mod matching;
mod refusals;
mod reporting;
mod serving;
mod solving;
mod status;
mod sure_folder;
mod text_refusals;

pub use matching::matcher;
pub use refusals::write_refusal;
pub use status::Status;
