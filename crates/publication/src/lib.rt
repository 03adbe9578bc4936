// The texts of rules and of answers: each has one spelling, and is read back from it alone.
#![tactic(auto)]

mod answer;
mod answer_forms;
mod answer_text;
mod answer_writing;
mod asked_forms;
mod certificate;
mod checking;
mod cut_forms;
mod cut_writing;
mod drawing;
mod examples;
mod infeasible_text;
mod lottery_writing;
mod numbers;
mod pair_form;
mod paper_form;
mod pieces;
mod refusal;
mod reviewer_form;
mod rules_lines;
mod rules_reading;
mod rules_writing;
mod single_texts;
mod threshold_checking;
mod waiting;

pub use answer_writing::write_answer;
pub use certificate::{Certificate, read_certificate};
pub use checking::check;
pub use drawing::{ticket_of, worked_tickets};
pub use examples::worked_thresholds;
pub use refusal::ReadRefusal;
pub use rules_writing::write_rules;
pub use single_texts::{read_answer, read_rules};
