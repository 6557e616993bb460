// Readers and writers whose calls fail, as sources and sinks: no clause of std says when one does.
use dali_shared_tests::expect_that;
use dali_writer::{Got, Sink, Source, StdSink, StdSource};
use std::io;
use std::io::{ErrorKind, Read, Write};
use std::test::Fail;

// A reader and writer whose first calls fail so. Then it gives and takes at most `most` bytes in a call.
#[derive(Drop)]
struct Fickle<'a> {
    errors: &'a [ErrorKind],
    most: usize,
}

impl<'a> Fickle<'a> {
    fn turn(&mut self) -> io::Result<()> {
        let Some((kind, rest)) = self.errors.split_first() else {
            return Ok(());
        };
        self.errors = rest;
        Err(io::Error::from(*kind))
    }
}

impl<'a> Read for Fickle<'a> {
    fn read(&mut self, buf: &mut [u8]) -> io::Result<usize> {
        self.turn()?;
        let count = buf.len().min(self.most);
        for byte in buf {
            *byte = b'-';
        }
        Ok(count)
    }
}

impl<'a> Write for Fickle<'a> {
    fn write(&mut self, buf: &[u8]) -> io::Result<usize> {
        self.turn()?;
        Ok(buf.len().min(self.most))
    }

    fn flush(&mut self) -> io::Result<()> {
        self.turn()
    }
}

// The errors of a reader's or writer's calls, one after another, and whether all goes well in the end.
static ERRORS: [(&[ErrorKind], bool); 5] = [
    (&[], true),
    (&[ErrorKind::Interrupted], true),
    (&[ErrorKind::Interrupted, ErrorKind::Interrupted], true),
    (&[ErrorKind::BrokenPipe], false),
    (&[ErrorKind::Interrupted, ErrorKind::WouldBlock], false),
];

// Whether a source gives a byte if all goes well, and has failed if not, and no read is left.
fn reads(errors: &[ErrorKind], well: bool) -> bool {
    let mut reader = Fickle { errors, most: 1 };
    let mut source = StdSource::new(&mut reader);
    let got = source.take_byte();
    let wanted = if well { Got::Byte(b'-') } else { Got::Failed };
    got == wanted && source.has_failed() != well && reader.errors.is_empty()
}

// Whether a sink takes two bytes if all goes well, and has failed if not, and no write is left.
fn writes(errors: &[ErrorKind], well: bool) -> bool {
    let mut writer = Fickle { errors, most: 2 };
    let mut sink = StdSink::new(&mut writer);
    let count = sink.put(b"123");
    let wanted = if well { Some(2) } else { None };
    count == wanted && sink.has_failed() != well && writer.errors.is_empty()
}

// Whether it is flushed if all goes well, and has failed if not, and no flush is left.
fn flushes(errors: &[ErrorKind], well: bool) -> bool {
    let mut writer = Fickle { errors, most: 2 };
    let mut sink = StdSink::new(&mut writer);
    sink.flush() == well && sink.has_failed() != well && writer.errors.is_empty()
}

// Whether a sink has failed that takes no byte.
fn is_full() -> bool {
    let mut sink = StdSink::new(Fickle {
        errors: &[],
        most: 0,
    });
    sink.put(b"1") == Some(0) && sink.has_failed()
}

#[test]
fn calls_of_std_that_fail(_rt: HostRuntime) -> Result<(), Fail> {
    for &(errors, well) in &ERRORS {
        let is_so = reads(errors, well) && writes(errors, well) && flushes(errors, well);
        expect_that(is_so, "a failure where a call fails that isn't interrupted")?;
    }
    expect_that(is_full(), "a full sink that has failed")
}
