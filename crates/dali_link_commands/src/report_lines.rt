// The contents of a file that is to be a report. No contract describes them.
use dali_report::{LINE_LIMIT, Seen, look_at, run_behind};
use std::alloc::Global;
use std::fs::File;
use std::io;
use std::io::Read;

/// The place where a report goes on.
#[derive(Clone, Copy)]
pub(crate) struct Onward {
    /// The run of the command that writes there.
    pub(crate) run: u64,
    /// All after this many bytes is cut away: a kill, a full disk or a loss of power left it.
    pub(crate) cut: Option<u64>,
    /// Whether the last line that stays lacks its line feed.
    pub(crate) is_unended: bool,
}

impl Onward {
    /// The first run, when there is nothing yet.
    pub(crate) fn first() -> Onward {
        Onward {
            run: run_behind(0),
            cut: None,
            is_unended: false,
        }
    }
}

/// How a report sees a file: it goes on there, or this line, counted from 1, is none of a report.
#[derive(Clone, Copy)]
pub(crate) enum Held {
    Report(Onward),
    Other(u64),
}

/// The contents of the file, read from its position.
pub(crate) fn look_through(alloc: Global, file: &mut File) -> io::Result<Held> {
    let mut lines = ReportLines {
        alloc,
        line: Vec::new(alloc),
        zeros: 0,
        begins: 0,
        number: 1,
        last: 0,
    };
    let mut chunk = [0u8; 4096];
    let mut left = file.metadata()?.len();
    while left > 0 {
        let count = file.read(&mut chunk)?;
        if count == 0 {
            break;
        }
        if !lines.add(&chunk[..count])? {
            return Ok(Held::Other(lines.number));
        }
        left = left.saturating_sub(count as u64);
    }
    lines.end()
}

// The lines so far.
#[derive(Drop)]
struct ReportLines {
    alloc: Global,
    // The line that isn't ended yet, of one that is too long the first bytes; where it begins, and its number.
    line: Vec<u8>,
    begins: u64,
    number: u64,
    // How many zeros follow it: a loss of power may leave them where bytes were not yet on the disk.
    zeros: u64,
    // The run of the last whole line.
    last: u64,
}

impl ReportLines {
    // Takes some bytes more. Whether all lines that they end are those of a report.
    fn add(&mut self, bytes: &[u8]) -> io::Result<bool> {
        for &byte in bytes {
            let is_taken = match byte {
                0 => {
                    self.zeros = self.zeros.saturating_add(1);
                    true
                }
                _ if self.zeros > 0 => false,
                b'\n' => self.end_line()?,
                _ => self.put(byte)?,
            };
            if !is_taken {
                return Ok(false);
            }
        }
        Ok(true)
    }

    // One byte more of the line. No whole one is longer than the limit, so that of a longer one the rest is of no use.
    fn put(&mut self, byte: u8) -> io::Result<bool> {
        if self.line.len() <= LINE_LIMIT {
            self.line.push(byte)?;
        }
        Ok(true)
    }

    // The line has its line feed. Whether it is one of a report, whole or torn.
    fn end_line(&mut self) -> io::Result<bool> {
        let seen = self.look()?;
        if self.line.len() > LINE_LIMIT || seen == Seen::Other {
            return Ok(false);
        }
        if let Seen::Line(run) = seen {
            self.last = run;
        }
        self.begins = self
            .begins
            .saturating_add(self.line.len() as u64)
            .saturating_add(1);
        self.number = self.number.saturating_add(1);
        self.line.clear();
        Ok(true)
    }

    // The file ends here.
    fn end(&self) -> io::Result<Held> {
        if self.line.is_empty() && self.zeros == 0 {
            return Ok(self.onward(self.last, None, false));
        }
        // No report leaves so long a line, so that it may be a file of another kind, and nothing of it is cut away.
        if self.line.len() > LINE_LIMIT {
            return Ok(Held::Other(self.number));
        }
        let ends = self.begins.saturating_add(self.line.len() as u64);
        Ok(match self.look()? {
            Seen::Line(run) => self.onward(run, (self.zeros > 0).then_some(ends), true),
            Seen::Torn => self.onward(self.last, Some(self.begins), false),
            Seen::Other => Held::Other(self.number),
        })
    }

    fn onward(&self, last: u64, cut: Option<u64>, is_unended: bool) -> Held {
        Held::Report(Onward {
            run: run_behind(last),
            cut,
            is_unended,
        })
    }

    fn look(&self) -> io::Result<Seen> {
        Ok(look_at(self.alloc, self.line.as_slice())?)
    }
}
