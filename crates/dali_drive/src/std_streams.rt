// The readers and writers of std, as sources and sinks. A call that a signal interrupts is made again, so often that no
// program lives to see the end of it.
ghost use Rattle.std.specs.Prelude.{◌≡◌, false};

use crate::streams::{Got, Sink, Source};
use std::io::{ErrorKind, Read, Write};

/// A reader. A read that is interrupted is tried again.
#[derive(Drop)]
pub struct StdSource<R> {
    reader: R,
    // Of what kind the read was that has failed, if one has.
    cause: Option<ErrorKind>,
}

impl<R: Read> StdSource<R> {
    ghost use Rattle.dali_drive.specs.StdStreams.{source_left, source_failed};

    /// A source that takes its bytes from the reader, one by one.
    pub fn new(reader: R) -> StdSource<R>
        ensures left { source_left R.remaining result ≡ R.remaining reader }
        ensures failed { source_failed result ≡ false }
    {
        StdSource {
            reader,
            cause: None,
        }
    }
}

impl<R: Read> Source for StdSource<R> {
    ghost use Rattle.dali_drive.specs.StdStreams.{source_left, source_failed};

    ghost left = { source_left R.remaining };

    ghost failed = { source_failed };

    fn take_byte(&mut self) -> Got {
        let mut byte = [0u8; 1];
        let mut cause = ErrorKind::Interrupted;
        for _ in 0..u64::MAX {
            cause = match self.reader.read(&mut byte) {
                Ok(0) => return Got::End,
                Ok(_) => return Got::Byte(byte[0]),
                Err(error) => error.kind(),
            };
            if cause != ErrorKind::Interrupted {
                break;
            }
        }
        self.cause = Some(cause);
        Got::Failed
    }

    fn has_failed(&self) -> bool {
        self.cause.is_some()
    }

    fn cause(&self) -> Option<ErrorKind> {
        self.cause
    }
}

/// A writer. A write or a flush that is interrupted is tried again.
#[derive(Drop)]
pub struct StdSink<W> {
    writer: W,
    // Of what kind the write or the flush was that has failed, if one has.
    cause: Option<ErrorKind>,
}

impl<W: Write> StdSink<W> {
    ghost use Rattle.dali_drive.specs.StdStreams.{sink_held, sink_failed};

    /// A sink that puts its bytes into the writer.
    pub fn new(writer: W) -> StdSink<W>
        ensures held { sink_held W.contents result ≡ W.contents writer }
        ensures failed { sink_failed result ≡ false }
    {
        StdSink {
            writer,
            cause: None,
        }
    }
}

impl<W: Write> Sink for StdSink<W> {
    ghost use Rattle.std.specs.Prelude.{None};
    ghost use Rattle.dali_drive.specs.StdStreams.{sink_held, sink_failed};

    ghost held = { sink_held W.contents };

    // no clause of std tells what a flush does
    ghost flushed = { λ _. None };

    ghost failed = { sink_failed };

    fn put(&mut self, bytes: &[u8]) -> Option<usize> {
        let mut cause = ErrorKind::Interrupted;
        for _ in 0..u64::MAX {
            cause = match self.writer.write(bytes) {
                Ok(0) => {
                    self.cause = Some(ErrorKind::WriteZero);
                    return Some(0);
                }
                Ok(count) => return Some(count),
                Err(error) => error.kind(),
            };
            if cause != ErrorKind::Interrupted {
                break;
            }
        }
        self.cause = Some(cause);
        None
    }

    fn flush(&mut self) -> bool {
        let mut cause = ErrorKind::Interrupted;
        for _ in 0..u64::MAX {
            cause = match self.writer.flush() {
                Ok(()) => return true,
                Err(error) => error.kind(),
            };
            if cause != ErrorKind::Interrupted {
                break;
            }
        }
        self.cause = Some(cause);
        false
    }

    fn has_failed(&self) -> bool {
        self.cause.is_some()
    }

    fn cause(&self) -> Option<ErrorKind> {
        self.cause
    }

    ghost flushed_is_held = { λ _. tt };
}
