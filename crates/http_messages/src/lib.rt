// The messages of HTTP/1.1 as values, and replies as text.
#![tactic(auto)]

mod fields;
mod refusals;
mod replies;
mod requests;
mod texts;
mod writing;

pub use fields::{Field, is_named, only_value, value_count};
pub use refusals::{LONGEST_WORD, write_refusal};
pub use replies::{MediaType, Method, Reply};
pub use requests::Request;
pub use writing::{write_continue, write_reply};
