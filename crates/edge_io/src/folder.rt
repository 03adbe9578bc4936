// Files that are read whole, by name.
ghost use Rattle.std.specs.Prelude.{◌≡◌, ◌+◌, ◌↔◌, true, ℕ, List, Option, Some, Err, IsOkAnd, IfOk};
ghost use Rattle.std.specs.Option.{option_map, option_copied};
ghost use Rattle.std.specs.Str.{bytes_eq};
ghost use Rattle.edge_io.specs.FileValues.{FileValue};
ghost use Rattle.edge_io.specs.Files.{file_named, IsRead, ReadsFile, FolderFails};
ghost use Rattle.edge_io.specs.Memory.{is_listed, one_more};

use crate::{Calls, Io};
use std::alloc::{AllocError, Global};
use std::marker::Model;

/// The most bytes of a file that is read: 32 MiB.
pub const MOST_FILE_BYTES: usize = 33_554_432;

/// What reading a file answers.
#[derive(Drop)]
pub enum FileRead {
    /// The bytes of the file.
    Found(Vec<u8>),
    /// There is no such file.
    Absent,
    /// The file has more bytes than are read.
    TooLong,
}

/// Why a file wasn't read.
#[derive(Clone, Copy)]
pub enum FolderFault {
    /// The folder failed.
    Failed,
    /// Memory was wanting.
    Memory,
}

/// Where files are found.
pub trait Folder {
    /// How often it has failed. It may rise in any call, and never falls.
    ghost faults: { Self → ℕ };

    /// The files, where it tells them.
    ghost files: { Self → Option (List FileValue) };

    /// Reads the file of a name whole.
    fn read_whole(&mut self, alloc: Global, name: &str) -> Result<FileRead, FolderFault>
        ensures reads { ReadsFile (files self.old) (files self.new) result name.now }
        ensures cause { FolderFails (faults self.old) (faults self.new) result };
}

/// A file of a folder in memory.
#[derive(Drop)]
pub struct MemoryFile {
    /// Its name.
    pub name: String,
    /// All of it.
    pub bytes: Vec<u8>,
}

impl Model for MemoryFile {
    ghost use Rattle.std.specs.String.{string_bytes};
    ghost use Rattle.edge_io.specs.FileValues.{FileValue};

    ghost Value = { FileValue };

    ghost view = { λ f. record { name = string_bytes f.name; bytes = f.bytes.items } };
}

/// Files in memory, of which the first of a name stands. The reads with listed numbers fail.
#[derive(Drop)]
pub struct MemoryFolder {
    files: Vec<MemoryFile>,
    calls: Calls,
}

impl Model for MemoryFolder {
    ghost use Rattle.edge_io.specs.Files.{FolderValue};

    ghost Value = { FolderValue };

    ghost view = { λ f. record { files = f.files.items; calls = f.calls } };
}

impl MemoryFolder {
    /// A folder of these files. The reads whose numbers are in `fails` fail; the first has the number 1.
    pub fn new(files: Vec<MemoryFile>, fails: Vec<u64>) -> Result<MemoryFolder, AllocError>
        ensures { IsOkAnd result (λ f. f ≡ record {
          files = files.items;
          calls = record { made = 0; faults = 0; fails = fails.items };
        }) }
    {
        Ok(MemoryFolder {
            files,
            calls: Calls::new(fails),
        })
    }
}

fn has_name(file: &MemoryFile, name: &str) -> bool
    ensures { result ≡ bytes_eq file.now.name name.now }
{
    file.name.as_str() == name
}

fn found_in<'a>(files: &'a [MemoryFile], name: &str) -> Option<&'a MemoryFile>
    ensures { option_map (λ file. file.bytes) (option_copied result) ≡ file_named files.now name.now }
{
    for file in files {
        if has_name(file, name) {
            return Some(file);
        }
    }
    None
}

fn answer_of(alloc: Global, file: Option<&MemoryFile>) -> Result<FileRead, AllocError>
    ensures { IfOk result (λ answer. IsRead answer (option_map (λ f. f.bytes) (option_copied file.entry))) }
{
    let Some(file) = file else {
        return Ok(FileRead::Absent);
    };
    if file.bytes.len() > MOST_FILE_BYTES {
        return Ok(FileRead::TooLong);
    }
    let bytes = Vec::from_slice(alloc, file.bytes.as_slice())?;
    Ok(FileRead::Found(bytes))
}

impl Folder for MemoryFolder {
    ghost faults = { λ f. f.calls.faults };

    ghost files = { λ f. Some f.files };

    fn read_whole(&mut self, alloc: Global, name: &str) -> Result<FileRead, FolderFault>
        ensures reads { ReadsFile (Some self.old.files) (Some self.new.files) result name.now }
        ensures cause { FolderFails self.old.calls.faults self.new.calls.faults result }
        ensures failed { (result ≡ Err FolderFault.Failed) ↔ (is_listed (self.old.calls.made + 1) self.old.calls.fails ≡ true) }
        ensures made { self.new.calls.made ≡ one_more self.old.calls.made }
        ensures listed { self.new.calls.fails ≡ self.old.calls.fails }
    {
        match self.calls.begin() {
            Ok(()) => {}
            Err(Io::Failed) => return Err(FolderFault::Failed),
        }
        match answer_of(alloc, found_in(self.files.as_slice(), name)) {
            Ok(answer) => Ok(answer),
            Err(_) => Err(FolderFault::Memory),
        }
    }
}
