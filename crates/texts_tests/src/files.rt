// Files in memory and real ones.
use edge_io::{
    DirFolder, FileRead, Folder, FolderFault, MOST_FILE_BYTES, MemoryFile, MemoryFolder,
};
use std::alloc::{AllocError, Global};
use std::fs;
use std::test::Fail;

// How a read ended: with so many bytes, or why without.
fn ending(read: Result<FileRead, FolderFault>) -> Result<usize, &'static str> {
    match read {
        Ok(FileRead::Found(bytes)) => Ok(bytes.len()),
        Ok(FileRead::Absent) => Err("absent"),
        Ok(FileRead::TooLong) => Err("too long"),
        Err(FolderFault::Failed) => Err("failed"),
        Err(FolderFault::Memory) => Err("memory"),
    }
}

fn file_of(alloc: Global, name: &str, bytes: &[u8]) -> Result<MemoryFile, AllocError> {
    Ok(MemoryFile {
        name: String::from_str(alloc, name)?,
        bytes: Vec::from_slice(alloc, bytes)?,
    })
}

#[test]
fn files_in_memory_are_read(rt: HostRuntime) -> Result<(), Fail> {
    let alloc = rt.alloc();
    let mut files = Vec::new(alloc);
    files.push(file_of(alloc, "caps.csv", b"first")?)?;
    files.push(file_of(alloc, "bids.csv", b"")?)?;
    let mut folder = MemoryFolder::new(files, [3].to_vec(alloc)?)?;
    assert_eq!(rt; ending(folder.read_whole(alloc, "caps.csv")), Ok(5));
    assert_eq!(rt; ending(folder.read_whole(alloc, "bids.csv")), Ok(0));
    assert_eq!(rt; ending(folder.read_whole(alloc, "caps.csv")), Err("failed"));
    assert_eq!(rt; ending(folder.read_whole(alloc, "caps")), Err("absent"));
    Ok(())
}

#[test]
fn a_real_file_at_the_limit_is_read_and_a_longer_one_is_not(rt: HostRuntime) -> Result<(), Fail> {
    let alloc = rt.alloc();
    let mut folder = DirFolder::new(rt.clone()?);
    assert_eq!(rt; ending(folder.read_whole(alloc, "most.csv")), Err("absent"));
    let mut bytes = vec![in alloc; 7; MOST_FILE_BYTES]?;
    fs::write(&rt, "most.csv", bytes.as_slice())?;
    assert_eq!(rt;
        ending(folder.read_whole(alloc, "most.csv")),
        Ok(33_554_432)
    );
    bytes.push(7)?;
    fs::write(&rt, "most.csv", bytes.as_slice())?;
    assert_eq!(rt;
        ending(folder.read_whole(alloc, "most.csv")),
        Err("too long")
    );
    fs::remove_file(&rt, "most.csv")?;
    Ok(())
}
