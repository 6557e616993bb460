use std::io;
use std::io::{ErrorKind, Write};

/// The most lines that are taken.
pub(crate) const MOST_LINES: usize = 1000;

// The line after them, if there are more.
const LEFT_OUT: &[u8] = b"more is left out: these are the first 1000 lines\n";

/// A writer that takes the first thousand lines. At more it tells that they are left out, and fails from then on, as
/// `QuotaExceeded` (profile).
#[derive(Drop)]
pub struct FirstLines<W> {
    writer: W,
    // How many lines more it takes.
    left: usize,
    // Whether the line was written that more lines are left out.
    is_closed: bool,
}

impl<W: Write> FirstLines<W> {
    /// A writer of lines into this one, which has taken none.
    pub fn new(writer: W) -> FirstLines<W> {
        FirstLines {
            writer,
            left: MOST_LINES,
            is_closed: false,
        }
    }
}

impl<W: Write> Write for FirstLines<W> {
    fn write(&mut self, bytes: &[u8]) -> io::Result<usize> {
        if !self.is_closed && self.left == 0 {
            self.is_closed = true;
            self.writer.write_all(LEFT_OUT)?;
            self.writer.flush()?;
        }
        if self.is_closed {
            return Err(io::Error::from(ErrorKind::QuotaExceeded));
        }
        let count = self.writer.write(bytes)?;
        for &byte in &bytes[..count] {
            if byte == b'\n' {
                self.left = self.left.saturating_sub(1);
            }
        }
        Ok(count)
    }

    fn flush(&mut self) -> io::Result<()> {
        self.writer.flush()
    }
}
