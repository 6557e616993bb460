// The outputs for the lines and the frames of a command that a person watches. If nobody does, each is the writer that
// it has.
ghost use Rattle.std.specs.Prelude.{◌≡◌};
ghost use Rattle.dali_report.specs.Watched.{cleared_held, counted_held};

use crate::progress::Progress;
use std::io;
use std::io::Write;

/// A writer of lines, each of which takes the place of the one that is drawn.
#[derive(Drop)]
pub struct Cleared<'a, W> {
    writer: W,
    progress: Option<&'a Progress>,
}

impl<'a, W: Write> Cleared<'a, W> {
    /// Lines to the writer, beside what is watched, if that is.
    pub fn new(writer: W, progress: Option<&'a Progress>) -> Cleared<'a, W>
        ensures { cleared_held W.contents result ≡ W.contents writer }
    {
        Cleared { writer, progress }
    }
}

impl<W: Write> Write for Cleared<'_, W> {
    ghost contents = { cleared_held W.contents };

    fn write(&mut self, bytes: &[u8]) -> io::Result<usize> {
        if let Some(progress) = self.progress {
            progress.tell(bytes);
        }
        self.writer.write(bytes)
    }

    fn write_all(&mut self, bytes: &[u8]) -> io::Result<()> {
        if let Some(progress) = self.progress {
            progress.tell(bytes);
        }
        self.writer.write_all(bytes)
    }

    fn flush(&mut self) -> io::Result<()> {
        self.writer.flush()
    }
}

/// A writer of frames, each of which is counted.
#[derive(Drop)]
pub struct Counted<'a, W> {
    writer: W,
    progress: Option<&'a Progress>,
}

impl<'a, W: Write> Counted<'a, W> {
    /// Frames to the writer, beside what is watched, if that is.
    pub fn new(writer: W, progress: Option<&'a Progress>) -> Counted<'a, W>
        ensures { counted_held W.contents result ≡ W.contents writer }
    {
        Counted { writer, progress }
    }
}

impl<W: Write> Write for Counted<'_, W> {
    ghost contents = { counted_held W.contents };

    fn write(&mut self, bytes: &[u8]) -> io::Result<usize> {
        let written = self.writer.write(bytes);
        if let (Ok(_), Some(progress)) = (&written, self.progress) {
            progress.send(bytes);
        }
        written
    }

    fn flush(&mut self) -> io::Result<()> {
        self.writer.flush()
    }
}
