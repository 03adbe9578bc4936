// Where accepted commands are kept: the rows that they are written as, and what keeps them.
#![tactic(auto)]

mod decoding;
mod encoding;
mod examples;
mod keeper;
mod laws;
mod memory;
mod names;
mod reading;
mod same;
mod words;

pub use decoding::decode;
pub use encoding::encode;
pub use examples::worked_rows;
pub use keeper::{KeepFault, Keeper};
pub use laws::row_laws;
pub use memory::{MemoryKeeper, SureKeeper};
pub use names::{is_chair_name, is_source_name};
pub use words::{Bytes, Command, EditWords, HowWords, Kept, Name, Named, RowFault, TableWords};
