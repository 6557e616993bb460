//! A reader and a writer as tests want them. There is one of each, since a command is proved anew over each type.

use std::alloc::Global;
use std::io;
use std::io::{ErrorKind, Read, Write};

/// The bytes or failures that follow the bytes of a reader.
#[derive(Clone, Copy)]
pub enum Behind {
    Nothing,
    Failures,
    SpacesWithoutEnd,
}

/// A reader that is interrupted before each read, and gives at most 7 of its bytes at a time. It counts the spaces that
/// it gives after them.
#[derive(Drop)]
pub struct TestReader<'a> {
    rest: &'a [u8],
    behind: Behind,
    was_interrupted: bool,
    pub spaces: u64,
}

impl<'a> TestReader<'a> {
    pub fn new(bytes: &'a [u8], behind: Behind) -> TestReader<'a> {
        TestReader {
            rest: bytes,
            behind,
            was_interrupted: false,
            spaces: 0,
        }
    }
}

impl Read for TestReader<'_> {
    fn read(&mut self, buf: &mut [u8]) -> io::Result<usize> {
        self.was_interrupted = !self.was_interrupted;
        if self.was_interrupted {
            return Err(io::Error::from(ErrorKind::Interrupted));
        }
        match self.behind {
            Behind::Failures if self.rest.is_empty() => {
                Err(io::Error::from(ErrorKind::BrokenPipe))
            }
            Behind::SpacesWithoutEnd if self.rest.is_empty() => {
                buf.fill(b' ');
                self.spaces = self.spaces.saturating_add(buf.len() as u64);
                Ok(buf.len())
            }
            _ => {
                let most = buf.len().min(7);
                self.rest.read(&mut buf[..most])
            }
        }
    }
}

/// A writer that holds all, or with a `room` this many bytes, and then fails once: at the next byte, or if none comes
/// at the flush. It takes what is written after that, so that it shows.
#[derive(Drop)]
pub struct TestWriter {
    pub held: Vec<u8>,
    room: Option<usize>,
    has_failed: bool,
}

impl TestWriter {
    pub fn new(alloc: Global, room: Option<usize>) -> TestWriter {
        TestWriter {
            held: Vec::new(alloc),
            room,
            has_failed: false,
        }
    }
}

impl Write for TestWriter {
    fn write(&mut self, buf: &[u8]) -> io::Result<usize> {
        let count = match self.room {
            Some(room) if !self.has_failed => room.saturating_sub(self.held.len()).min(buf.len()),
            _ => buf.len(),
        };
        if count == 0 && !buf.is_empty() {
            self.has_failed = true;
            return Err(io::Error::from(ErrorKind::StorageFull));
        }
        self.held.extend_from_slice(&buf[..count])?;
        Ok(count)
    }

    fn flush(&mut self) -> io::Result<()> {
        if self.room.is_none() || self.has_failed {
            return Ok(());
        }
        self.has_failed = true;
        Err(io::Error::from(ErrorKind::StorageFull))
    }
}
