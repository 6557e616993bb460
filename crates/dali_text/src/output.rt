ghost use Rattle.std.specs.Prelude.{◌≡◌, ◌↔◌, ◌<◌, ◌≤◌, false, true, IfOk, IfSome, IsOk, OnErr, OnOk, length};
ghost use Rattle.std.specs.Io.KnownBytes.{Keeps, WriteAppends};
ghost use Rattle.std.specs.Fmt.{with_newline};

use std::error::Error;
use std::fmt::Display;
use std::io::{ErrorKind, Write};
use std::{fmt, io};

/// That an output has failed: a write or a flush of it, in this call or before.
#[derive(Clone, Copy, Debug, PartialEq, Eq)]
pub struct OutputFailed;

impl fmt::Display for OutputFailed {
    ghost use Rattle.std.specs.Prelude.{Some, codes};

    ghost output = { λ _. Some (codes "the output can't be written") };

    fn fmt<W: fmt::Write>(&self, f: &mut fmt::Formatter<W>) -> fmt::Result {
        f.write_str("the output can't be written")
    }
}

impl Error for OutputFailed {}

/// A writer that knows whether it has failed. Later calls take nothing more then, and leave its writer alone.
#[derive(Drop)]
pub struct Output<W> {
    writer: W,
    // Of what kind the write or the flush was that has failed, if one has.
    cause: Option<ErrorKind>,
    // Whether nothing was written since the last flush that succeeded.
    flushed: bool,
}

impl<W: Write> Output<W> {
    ghost use Rattle.std.specs.Prelude.{is_some};
    ghost use Rattle.dali_text.specs.Output.{TellsFailure, Takes, has_failed, held, is_flushed};

    /// An output into the writer, which hasn't failed, and of which nothing is known to be flushed.
    pub fn new(writer: W) -> Output<W>
        ensures held { held W.contents result ≡ W.contents writer }
        ensures failed { has_failed result ≡ false }
        ensures flushed { is_flushed result ≡ false }
    {
        Output {
            writer,
            cause: None,
            flushed: false,
        }
    }

    /// Writes some of the bytes, at least one, and says how many. A write that a signal interrupts is made again, so
    /// often that no program lives to see the end of it. If the output has failed before, it stays as it is.
    ///
    /// There has to be a byte.
    pub fn write(&mut self, bytes: &[u8]) -> Result<usize, OutputFailed>
        requires { 0 < length bytes.now }
        ensures some { IfOk result (λ count. (0 < count) × (count ≤ length bytes.now)) }
        ensures bytes { WriteAppends (held W.contents self.old) (held W.contents self.new) result bytes.now }
        ensures failed { TellsFailure result self.old self.new }
        ensures unfailed { OnOk result (has_failed self.new ≡ false) }
        ensures failed_before { has_failed self.old ≡ true → self.new ≡ self.old }
    {
        self.unfailed()?;
        self.flushed = false;
        let mut cause = ErrorKind::Interrupted;
        for _ in 0..u64::MAX {
            cause = match self.writer.write(bytes) {
                Ok(0) => ErrorKind::WriteZero,
                Ok(count) => return Ok(count),
                Err(error) => error.kind(),
            };
            if cause != ErrorKind::Interrupted {
                break;
            }
        }
        self.cause = Some(cause);
        Err(OutputFailed)
    }

    /// Writes all the bytes. If the output has failed before, it stays as it is.
    pub fn write_all(&mut self, bytes: &[u8]) -> Result<(), OutputFailed>
        ensures bytes { OnOk result (Takes W.contents self.old self.new bytes.now) }
        ensures failed { TellsFailure result self.old self.new }
        ensures unfailed { OnOk result (has_failed self.new ≡ false) }
        ensures failed_before { has_failed self.old ≡ true → self.new ≡ self.old }
    {
        self.unfailed()?;
        let written = self.writer.write_all(bytes);
        self.note(written)
    }

    /// Writes a text, which is what `write!` calls. If the output has failed before, it stays as it is.
    pub fn write_fmt<D: Display + Drop>(&mut self, text: D) -> Result<(), OutputFailed>
        ensures bytes { OnOk result (IfSome (D.output text) (Takes W.contents self.old self.new)) }
        ensures failed { TellsFailure result self.old self.new }
        ensures unfailed { OnOk result (has_failed self.new ≡ false) }
        ensures failed_before { has_failed self.old ≡ true → self.new ≡ self.old }
    {
        self.unfailed()?;
        let written = self.writer.write_fmt(text);
        self.note(written)
    }

    /// Writes a text and a line feed, which is what `writeln!` calls. If the output has failed before, it stays as it
    /// is.
    pub fn writeln<D: Display + Drop>(&mut self, text: D) -> Result<(), OutputFailed>
        ensures bytes { OnOk result (IfSome (with_newline (D.output text))
            (Takes W.contents self.old self.new)) }
        ensures failed { TellsFailure result self.old self.new }
        ensures unfailed { OnOk result (has_failed self.new ≡ false) }
        ensures failed_before { has_failed self.old ≡ true → self.new ≡ self.old }
    {
        self.unfailed()?;
        let written = self.writer.writeln(text);
        self.note(written)
    }

    /// Flushes what was written. If the output has failed before, it stays as it is.
    pub fn flush(&mut self) -> Result<(), OutputFailed>
        ensures bytes { Keeps (held W.contents self.old) (held W.contents self.new) }
        ensures flushed { OnOk result (is_flushed self.new ≡ true) }
        ensures failed { TellsFailure result self.old self.new }
        ensures unfailed { OnOk result (has_failed self.new ≡ false) }
        ensures failed_before { has_failed self.old ≡ true → self.new ≡ self.old }
    {
        self.unfailed()?;
        let flushed = self.writer.flush();
        self.note(flushed)?;
        self.flushed = true;
        Ok(())
    }

    /// Whether a write or a flush of it has failed.
    pub fn has_failed(&self) -> bool
        ensures { result ≡ has_failed self.now }
    {
        self.cause.is_some()
    }

    /// The kind of its writer's failure, if it has failed.
    pub fn cause(&self) -> Option<ErrorKind>
        ensures { is_some result ≡ has_failed self.now }
    {
        self.cause
    }

    // An error if the output has failed, before its writer is called.
    fn unfailed(&self) -> Result<(), OutputFailed>
        ensures ok { OnOk result (has_failed self.now ≡ false) }
        ensures err { OnErr result (has_failed self.now ≡ true) }
    {
        if self.cause.is_some() {
            return Err(OutputFailed);
        }
        Ok(())
    }

    // Keeps in mind how a call of the writer ended, after which something may be unflushed.
    fn note(&mut self, ended: io::Result<()>) -> Result<(), OutputFailed>
        requires { has_failed self.old ≡ false }
        ensures held { held W.contents self.new ≡ held W.contents self.old }
        ensures ended { IsOk result ↔ IsOk ended }
        ensures flushed { is_flushed self.new ≡ false }
        ensures failed { TellsFailure result self.old self.new }
    {
        self.flushed = false;
        match ended {
            Ok(()) => Ok(()),
            Err(error) => {
                self.cause = Some(error.kind());
                Err(OutputFailed)
            }
        }
    }
}
