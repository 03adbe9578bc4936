// The outside as the other crates see it: where bytes come from and where they go.
#![tactic(auto)]

mod adapters;
mod calls;
mod dir;
mod folder;
mod memory;
mod sure;
mod traits;
mod writing;

pub use adapters::{ReadSource, WriteSink};
pub use calls::Calls;
pub use dir::DirFolder;
pub use folder::{FileRead, Folder, FolderFault, MOST_FILE_BYTES, MemoryFile, MemoryFolder};
pub use memory::{MemorySink, MemorySource};
pub use sure::{SureSink, SureSource};
pub use traits::{Io, Sink, Source};
pub use writing::write_all;
