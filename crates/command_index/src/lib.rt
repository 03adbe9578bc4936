// Where accepted commands stand: a command that comes again is found by its caller and number, not by a scan of all entries.
//
// `specs/Places.antt` says where a command stands in a history, and when an index is that of a history.
#![tactic(auto)]

mod index;
mod indexing;
mod laws;
mod repeats;

pub use index::{CommandIndex, CommandPlace};
pub use indexing::index_of;
pub use laws::index_laws;
pub use repeats::{Repeat, repeat_of, repeated};
