// A folder in memory that never fails.
ghost use Rattle.std.specs.Prelude.{◌≡◌, [], Some};
ghost use Rattle.edge_io.specs.Files.{FolderFails, ReadsFile};

use edge_io::{FileRead, Folder, FolderFault, MemoryFolder};
use std::alloc::Global;
use std::marker::Model;

/// Files in memory, of which no read fails.
#[derive(Drop)]
pub(crate) struct SureFolder {
    folder: MemoryFolder,
}

impl Model for SureFolder {
    ghost use Rattle.std.specs.Prelude.{◌≡◌, List, []};
    ghost use Rattle.edge_io.specs.FileValues.{FileValue};

    ghost Value = { List FileValue };

    ghost view = { λ s. s.folder.files };

    ghost invariant = { λ s. s.folder.calls.fails ≡ [] };
}

impl SureFolder {
    /// The files of a folder of which no read is listed to fail. Takes no memory.
    pub(crate) fn new(folder: MemoryFolder) -> SureFolder
        requires { folder.calls.fails ≡ [] }
        ensures { result ≡ folder.files }
    {
        SureFolder { folder }
    }
}

impl Folder for SureFolder {
    ghost faults = { λ _. 0 };

    ghost files = { λ s. Some s };

    fn read_whole(&mut self, alloc: Global, name: &str) -> Result<FileRead, FolderFault>
        ensures reads { ReadsFile (Some self.old) (Some self.new) result name.now }
        ensures cause { FolderFails 0 0 result }
    {
        self.folder.read_whole(alloc, name)
    }
}
