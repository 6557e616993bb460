// The output of a drive's lines: its replies, and then its fault.
ghost use Rattle.std.specs.Prelude.{◌≡◌, ◌||◌, None, not, true};
ghost use Rattle.std.specs.Io.KnownBytes.{Keeps};
ghost use Rattle.dali_drive.specs.Streams.{Flushes};
ghost use Rattle.dali_text.specs.Output.{has_failed, held, is_flushed};

use dali_drive::{Sink, StdSink, StdSource, StoreDesk};
use dali_store::FileStore;
use dali_text::Output;
use std::io::{ErrorKind, Write};

/// An output as a sink.
#[derive(Drop)]
pub struct Lines<W> {
    /// The output.
    pub output: Output<W>,
}

/// A desk whose replies are the lines of a command (profile).
pub type Bench<I, L, S, W> = StoreDesk<I, L, S, Lines<W>>;

/// The same over std's streams and a file.
pub type StdBench<'s, R, I, L, W> = Bench<StdSource<I>, StdSink<L>, FileStore<'s, R>, W>;

impl<W: Write> Sink for Lines<W> {
    ghost held = { λ lines. held W.contents lines.output };

    // its output tells whether all is flushed, and not what was
    ghost flushed = { λ _. None };

    ghost failed = { λ lines. has_failed lines.output };

    fn put(&mut self, bytes: &[u8]) -> Option<usize> {
        self.output.write(bytes).ok()
    }

    fn flush(&mut self) -> bool
        ensures bytes { Keeps (held W.contents self.old.output) (held W.contents self.new.output) }
        ensures flushed { Flushes result (held W.contents self.new.output) None None }
        ensures failed { has_failed self.new.output ≡ (has_failed self.old.output || not result) }
        ensures output { result ≡ true → is_flushed self.new.output ≡ true }
    {
        self.output.flush().is_ok()
    }

    fn has_failed(&self) -> bool {
        self.output.has_failed()
    }

    fn cause(&self) -> Option<ErrorKind> {
        self.output.cause()
    }

    ghost flushed_is_held = { λ _. tt };
}
