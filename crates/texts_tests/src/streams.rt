// Streams of std, bytes in memory, and the longest line.
use edge_io::{Io, MemorySink, MemorySource, ReadSource, Sink, Source, WriteSink, write_all};
use std::alloc::{AllocError, Global};
use std::io;
use std::io::{Cursor, ErrorKind, Read};
use std::test::Fail;
use text_lines::{LONGEST_LINE, Lines};

// A reader whose first read fails.
#[derive(Drop)]
struct FailsFirst {
    failed: bool,
    bytes: Cursor<Vec<u8>>,
}

impl Read for FailsFirst {
    fn read(&mut self, room: &mut [u8]) -> io::Result<usize> {
        if self.failed {
            self.bytes.read(room)
        } else {
            self.failed = true;
            Err(io::Error::from(ErrorKind::TimedOut))
        }
    }
}

#[test]
fn a_reader_is_read_to_its_end(rt: HostRuntime) -> Result<(), Fail> {
    let mut source = ReadSource::new(FailsFirst {
        failed: false,
        bytes: Cursor::new(b"ab".to_vec(rt.alloc())?),
    });
    let mut room = [0; 8];
    assert_eq!(rt; source.read(&mut room), Err(Io::Failed));
    assert_eq!(rt; source.read(&mut room), Ok(2));
    assert_eq!(rt; source.read(&mut room), Ok(0));
    Ok(())
}

#[test]
fn a_full_writer_is_a_fault(rt: HostRuntime) {
    let mut room = [0; 2];
    let mut sink = WriteSink::new(room.as_mut_slice());
    assert_eq!(rt; write_all(&mut sink, b"ab"), Ok(()));
    assert_eq!(rt; sink.write(b"c"), Err(Io::Failed));
}

#[test]
fn a_sink_in_memory_holds_what_it_took(rt: HostRuntime) -> Result<(), Fail> {
    let alloc = rt.alloc();
    let mut sink = MemorySink::new(alloc, [2].to_vec(alloc)?)?;
    assert_eq!(rt; sink.write(b"ab"), Ok(2));
    assert_eq!(rt; sink.write(b"cd"), Err(Io::Failed));
    assert_eq!(rt; sink.write(b"ef"), Ok(2));
    assert_eq!(rt; sink.bytes(), b"abef".as_slice());
    Ok(())
}

// Whether a line of so many bytes is read.
fn reads_line_of(alloc: Global, length: usize) -> Result<bool, AllocError> {
    let mut text = Vec::new(alloc);
    text.resize(length, b'a')?;
    text.push(b'\n')?;
    let mut source = MemorySource::new(text, Vec::new(alloc))?;
    let mut lines = Lines::new(alloc)?;
    Ok(lines.next(&mut source).is_ok())
}

#[test]
fn the_longest_line_is_read(rt: HostRuntime) -> Result<(), Fail> {
    assert!(rt; reads_line_of(rt.alloc(), LONGEST_LINE)?);
    Ok(())
}
