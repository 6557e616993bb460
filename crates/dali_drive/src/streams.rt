// The streams that a drive reads and writes, a byte or a few at a time.
ghost use Rattle.std.specs.Prelude.{◌≡◌, ◌<◌, ◌||◌, ℕ, Bool, List, Option, IfSome, not, length, true, false};
ghost use Rattle.std.specs.Io.KnownBytes.{Keeps, Appends};
ghost use Rattle.dali_drive.specs.Streams.{TakesOneByte, Puts, PutsFirst, Flushes, IsPart, is_failure, is_refusal};

use std::io::ErrorKind;

/// The result of asking a source for a byte (profile).
#[derive(Clone, Copy, PartialEq, Eq)]
pub enum Got {
    /// The next byte.
    Byte(u8),
    /// There are no more bytes.
    End,
    /// The source failed.
    Failed,
}

/// A source of bytes, one by one (profile).
pub trait Source {
    /// The bytes that are still to come, if they are known.
    ghost left: { Self → Option (List ℕ) };

    /// Whether a call has failed.
    ghost failed: { Self → Bool };

    /// Takes the next byte. If it fails no byte is lost.
    fn take_byte(&mut self) -> Got
        ensures bytes { TakesOneByte (left self.old) (left self.new) result }
        ensures failed { failed self.new ≡ (failed self.old || is_failure result) };

    /// Whether a call has failed: exactly since `take_byte` gave `Failed`.
    fn has_failed(&self) -> bool
        ensures { result ≡ failed self.now };

    /// The kind of the failure, if there was one and its kind is known: not, unless a stream reports it.
    fn cause(&self) -> Option<ErrorKind>
        ensures { IfSome result (λ kind. failed self.now ≡ true) }
    {
        None
    }
}

/// A sink for bytes (profile).
pub trait Sink {
    /// The bytes that it holds, if they are known.
    ghost held: { Self → Option (List ℕ) };

    /// Those that it held when it was flushed last, if they are known.
    ghost flushed: { Self → Option (List ℕ) };

    /// Whether a call has failed.
    ghost failed: { Self → Bool };

    /// Puts some bytes: `Some(k)` if only the first `k` of them are now held, `None` if none is. `None` and
    /// `Some(0)` are failures.
    ///
    /// There has to be a byte.
    fn put(&mut self, bytes: &[u8]) -> Option<usize>
        requires { 0 < length bytes.now }
        ensures bytes { Puts (held self.old) (held self.new) result bytes.now }
        ensures unflushed { flushed self.new ≡ flushed self.old }
        ensures failed { failed self.new ≡ (failed self.old || is_refusal result) };

    /// Sees to it that what is held is where it belongs. `false` if that failed.
    fn flush(&mut self) -> bool
        ensures bytes { Keeps (held self.old) (held self.new) }
        ensures flushed { Flushes result (held self.new) (flushed self.old) (flushed self.new) }
        ensures failed { failed self.new ≡ (failed self.old || not result) };

    /// Whether a call has failed: exactly since `put` gave `None` or `Some(0)`, or `flush` false.
    fn has_failed(&self) -> bool
        ensures { result ≡ failed self.now };

    /// The kind of the failure, if there was one and its kind is known: not, unless a stream reports it.
    fn cause(&self) -> Option<ErrorKind>
        ensures { IfSome result (λ kind. failed self.now ≡ true) }
    {
        None
    }

    /// The bytes that were flushed are a first part of those that are held.
    ghost flushed_is_held: { (sink : Self) → IsPart (flushed sink) (held sink) };
}

/// Puts all the bytes, and says whether they are held. If they aren't, only a first part is (profile).
pub fn put_all<S: Sink>(sink: &mut S, bytes: &[u8]) -> bool
    ensures whole { result ≡ true → Appends (S.held sink.old) (S.held sink.new) bytes.now }
    ensures cut { result ≡ false → PutsFirst (S.held sink.old) (S.held sink.new) bytes.now }
    ensures unflushed { S.flushed sink.new ≡ S.flushed sink.old }
    ensures failed { S.failed sink.new ≡ (S.failed sink.old || not result) }
{
    let mut done = 0;
    while done < bytes.len() {
        match sink.put(&bytes[done..]) {
            Some(count) if count > 0 => done += count,
            _ => return false,
        }
    }
    true
}

// Puts all the bytes and flushes.
pub(crate) fn send<S: Sink>(sink: &mut S, bytes: &[u8]) -> bool
    ensures whole { result ≡ true → Appends (S.held sink.old) (S.held sink.new) bytes.now }
    ensures cut { result ≡ false → PutsFirst (S.held sink.old) (S.held sink.new) bytes.now }
    ensures flushed { Flushes result (S.held sink.new) (S.flushed sink.old) (S.flushed sink.new) }
    ensures failed { S.failed sink.new ≡ (S.failed sink.old || not result) }
{
    put_all(sink, bytes) && sink.flush()
}
