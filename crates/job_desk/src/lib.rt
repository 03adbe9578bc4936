// A desk over a keeper: commands that are accepted are kept as rows.
#![tactic(auto)]

mod asked_looks;
mod asking;
mod commands;
mod desks;
mod drawing;
mod draws;
mod edits;
mod keeping;
mod letting_go;
mod looks;
mod lottery_texts;
mod publishes;
mod rows_of_commands;
mod submits;
mod typed;

pub use asked_looks::look;
pub use desk_reopening::OpenFault;
pub use desks::Desk;
pub use drawing::{Drawn, drawn_of};
pub use draws::draw;
pub use edits::edit;
pub use keeping::{append, note_accepted, row_for};
pub use looks::{job_look, now, outcome_of, publications, rules_now};
pub use lottery_texts::{text_of_answer, text_published};
pub use publishes::publish;
pub use rows_of_commands::{row_of_accepted, row_of_draw, row_of_publish, row_of_submit};
pub use submits::submit;
