// What stands at the front of a stream of HTTP/1.1 requests.
#![tactic(auto)]

mod blanks;
mod examples;
mod fault;
mod head;
mod laws;
mod lengths;
mod lists;
mod reading;

pub use blanks::{MOST_HEAD_BYTES, blank_length, head_end};
pub use examples::{worked_ends, worked_fronts, worked_tests};
pub use fault::{FrameFault, write_fault};
pub use head::{Head, MOST_FIELDS};
pub use laws::front_laws;
pub use lengths::MOST_BODY_BYTES;
pub use reading::read_head;
