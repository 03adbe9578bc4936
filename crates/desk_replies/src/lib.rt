// What the desk answers, as replies of HTTP.
#![tactic(auto)]

mod accepted;
mod certificate_texts;
mod examples;
mod import_faults;
mod import_words;
mod objects;
mod outcomes;
mod pair_texts;
mod refusals;
mod replies;

pub use accepted::reply_of_answer;
pub use examples::{worked_answers, worked_faults, worked_finishes, worked_jobs, worked_refusals};
pub use refusals::reply_of_refusal;
pub use replies::reply_of;
