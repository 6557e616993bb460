// The source of a journal, so that all that is reported of it is on the disk: it is synced once it is read to its end.
use dali_store::settle_read;
use std::fs::File;
use std::io::{Read, StdinLock};
use std::{fs, io};

// A file or standard input, which is synced once it is read to its end.
#[derive(Drop)]
pub(crate) struct Settled<'a> {
    rt: &'a HostRuntime,
    source: Source,
}

#[derive(Drop)]
enum Source {
    Named(File),
    Standard(StdinLock<'static>),
}

impl<'a> Settled<'a> {
    pub(crate) fn named(rt: &'a HostRuntime, file: File) -> Settled<'a> {
        let source = Source::Named(file);
        Settled { rt, source }
    }

    pub(crate) fn standard(rt: &'a HostRuntime) -> Settled<'a> {
        let source = Source::Standard(rt.reader());
        Settled { rt, source }
    }

    // Standard input has no sync of its own: if it is a file, that is opened once more. A pipe has nothing to lose.
    fn settle(&self) -> io::Result<()> {
        match &self.source {
            Source::Named(file) => settle_read(file),
            Source::Standard(_) => {
                if fs::metadata(self.rt, "/dev/fd/0")?.is_file() {
                    settle_read(&fs::open(self.rt, "/dev/fd/0")?)
                } else {
                    Ok(())
                }
            }
        }
    }
}

impl Read for Settled<'_> {
    fn read(&mut self, buf: &mut [u8]) -> io::Result<usize> {
        let count = match &mut self.source {
            Source::Named(file) => file.read(buf)?,
            Source::Standard(reader) => reader.read(buf)?,
        };
        if count == 0 && !buf.is_empty() {
            self.settle()?;
        }
        Ok(count)
    }
}
