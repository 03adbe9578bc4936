// Files of the current folder. They tell nothing: what a file system holds, no proof knows.
ghost use Rattle.std.specs.Prelude.{◌≡◌, ◌≢◌, ◌+◌, ℕ, List, take, IsErrOf, IfOk, IfSome, None, Some, Ok, Err};
ghost use Rattle.edge_io.specs.Files.{ReadsFile, FolderFails, IsRead};
ghost use Rattle.edge_io.specs.Memory.{one_more};

use crate::{FileRead, Folder, FolderFault, MOST_FILE_BYTES};
use std::alloc::Global;
use std::fs;
use std::io::{self, ErrorKind, Read};
use std::marker::Model;
use std::rt::Files;

/// The current folder of the process. Each error of the system but a file that isn't there is counted as a fault.
/// The count stays at 18,446,744,073,709,551,615 once it is there.
#[derive(Drop)]
pub struct DirFolder<R: Files + Drop> {
    rt: R,
    faults: u64,
}

impl<R: Files + Drop> Model for DirFolder<R> {
    ghost use Rattle.std.specs.Prelude.{ℕ};

    ghost Value = { ℕ };

    ghost view = { λ f. f.faults };
}

impl<R: Files + Drop> DirFolder<R> {
    /// The folder has not failed yet. Takes no memory.
    pub fn new(rt: R) -> DirFolder<R>
        ensures { result ≡ 0 }
    {
        DirFolder { rt, faults: 0 }
    }
}

// The bytes at the front of a file: one more than may be, so that a longer file shows.
fn read_front<T: Read + Drop>(alloc: Global, file: T) -> io::Result<Vec<u8>>
    ensures { IfOk result (λ front. IfSome (T.remaining file) (λ all. front.items ≡ take (MOST_FILE_BYTES + 1) all)) }
{
    let mut front = Vec::new(alloc);
    file.take(MOST_FILE_BYTES as u64 + 1)
        .read_to_end(&mut front)?;
    Ok(front)
}

// What such a front says of the file: it is all of it, or the file is too long.
fn answer_of_front(front: Vec<u8>) -> FileRead
    ensures { (all : List ℕ) → front.items ≡ take (MOST_FILE_BYTES + 1) all → IsRead result (Some all) }
{
    if front.len() > MOST_FILE_BYTES {
        return FileRead::TooLong;
    }
    FileRead::Found(front)
}

// Reads a file whole, or finds it too long.
fn read_open<T: Read + Drop>(alloc: Global, file: T) -> io::Result<FileRead>
    ensures { IfOk result (λ answer. IfSome (T.remaining file) (λ all. IsRead answer (Some all))) }
{
    let front = read_front(alloc, file)?;
    Ok(answer_of_front(front))
}

fn read_named<R: Files>(rt: &R, alloc: Global, name: &str) -> io::Result<FileRead> {
    let file = fs::open(rt, name)?;
    read_open(alloc, file)
}

// What an error of the system says of a file.
fn answer_at_error(kind: ErrorKind) -> Result<FileRead, FolderFault>
    ensures absent { kind ≡ ErrorKind.NotFound → result ≡ Ok FileRead.Absent }
    ensures memory { kind ≡ ErrorKind.OutOfMemory → result ≡ Err FolderFault.Memory }
    ensures failed { kind ≢ ErrorKind.NotFound → kind ≢ ErrorKind.OutOfMemory → result ≡ Err FolderFault.Failed }
{
    match kind {
        ErrorKind::NotFound => Ok(FileRead::Absent),
        ErrorKind::OutOfMemory => Err(FolderFault::Memory),
        _ => Err(FolderFault::Failed),
    }
}

impl<R: Files + Drop> Folder for DirFolder<R> {
    ghost faults = { λ f. f };

    ghost files = { λ _. None };

    fn read_whole(&mut self, alloc: Global, name: &str) -> Result<FileRead, FolderFault>
        ensures reads { ReadsFile None None result name.now }
        ensures cause { FolderFails self.old self.new result }
        ensures counted { IsErrOf result FolderFault.Failed → self.new ≡ one_more self.old }
    {
        let answer = match read_named(&self.rt, alloc, name) {
            Ok(answer) => Ok(answer),
            Err(error) => answer_at_error(error.kind()),
        };
        if matches!(answer, Err(FolderFault::Failed)) {
            self.faults = self.faults.saturating_add(1);
        }
        answer
    }
}
