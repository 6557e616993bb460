// The output of a report. No contract says what a file holds.
use crate::report_lines::Onward;
use std::fs::File;
use std::io;
use std::io::Write;

/// The file of a report, which is added to. Before the first write, what is torn at its end is cut away, and a last
/// line that only lacks its line feed gets that.
#[derive(Drop)]
pub struct ReportOutput {
    file: File,
    cut: Option<u64>,
    is_unended: bool,
}

impl ReportOutput {
    /// An output into this file, which goes on there.
    pub(crate) fn new(file: File, onward: Onward) -> ReportOutput {
        ReportOutput {
            file,
            cut: onward.cut,
            is_unended: onward.is_unended,
        }
    }

    // Sees to it that the next byte begins a line.
    fn begin(&mut self) -> io::Result<()> {
        if let Some(length) = self.cut {
            self.file.set_len(length)?;
            self.cut = None;
        }
        if self.is_unended {
            self.file.write_all(b"\n")?;
            self.is_unended = false;
        }
        Ok(())
    }
}

impl Write for ReportOutput {
    fn write(&mut self, buf: &[u8]) -> io::Result<usize> {
        self.begin()?;
        self.file.write(buf)
    }

    fn flush(&mut self) -> io::Result<()> {
        self.file.flush()
    }
}
