// The file of a report. No contract tells what a file holds: that it holds then what it is given is trusted.
ghost use Rattle.std.specs.Prelude.{◌≡◌, ◌≢◌, ◌↔◌, ◌&&◌, ℕ, List, OnOk, false, true, is_none, is_some};
ghost use Rattle.dali_text.specs.Output.{Takes, TellsFailure, has_failed, held};
ghost use Rattle.dali_report.specs.Told.{has_failed as report_failed, has_output, is_watched};
ghost use Rattle.dali_link_commands.specs.LinkCommands.{EndsReported, is_lost};
ghost use Rattle.dali_link_commands.specs.Told.{IsPlain, error_line};

use crate::lines::Lines;
use crate::report_lines::{Held, Onward, look_through};
use crate::report_output::ReportOutput;
use crate::words::{plain_words, system_words};
use dali_input::Status;
use dali_report::{Progress, Report};
use dali_text::{Output, OutputFailed};
use std::alloc::Global;
use std::fs::{File, Files, Metadata, OpenOptions, TryLockError};
use std::io::{ErrorKind, Write};
use std::os::unix::fs::{FileTypeExt, MetadataExt};
use std::{fs, io};

// Why a file can't be opened for a report.
#[derive(Drop)]
enum Unopened {
    // The name is that of standard output.
    Dash,
    // The name leads to another.
    Link,
    // It is a file of the command's own.
    Taken,
    // It has something else, as a journal or orders, in this line, and is left alone.
    NoReport(u64),
    // Another command writes it.
    InUse,
    // The system refuses it.
    Refused(io::Error),
}

/// The files that a command has beside its report, by name.
#[derive(Clone, Copy)]
pub(crate) struct Others<'a> {
    pub(crate) orders: &'a str,
    /// The journal, or none if the name is empty.
    pub(crate) journal: &'a str,
    pub(crate) older: &'a [&'a str],
}

/// A report into a file, or into none.
#[derive(Drop)]
pub(crate) struct ReportFile<'a> {
    pub(crate) report: Report<'a, ReportOutput>,
    unopened: Option<Unopened>,
}

impl<'a> ReportFile<'a> {
    /// Opens the file, or makes it, for this command alone; with no name there is none. Its contents stay, and the new
    /// lines of the report go after them. It is none of the command's other files, no link, and has to be a report or
    /// empty. All of it is also passed on to what is watched, if anything is.
    pub(crate) fn open<R: Files<File = File> + AllocGlobal>(
        rt: &R,
        name: Option<&str>,
        others: Others<'_>,
        progress: Option<&'a Progress>,
    ) -> ReportFile<'a>
        ensures output { has_output result.report ≡ (is_some name.entry && is_none result.unopened) }
        ensures unopened { is_some result.unopened ≡ true → is_some name.entry ≡ true }
        ensures unfailed { report_failed result.report ≡ false }
        ensures watched { is_watched result.report ≡ is_some progress.entry }
    {
        let (run, output, unopened) = match name {
            Some(name) => match opened(rt, name, others) {
                Ok((run, file)) => (run, Some(Output::new(file)), None),
                Err(unopened) => (1, None, Some(unopened)),
            },
            None => (1, None, None),
        };
        ReportFile {
            report: Report::new(rt.alloc(), run, output, progress),
            unopened,
        }
    }

    /// How a command ends that had this report in a file of that name and ended so: if the report couldn't be opened or
    /// written, that is reported.
    pub(crate) fn end<W: Write>(
        &self,
        alloc: Global,
        lines: &mut Lines<W>,
        name: Option<&str>,
        ended: Status,
    ) -> Status
        requires { ended ≡ Status.Unwritten ↔ has_failed lines.old.output ≡ true }
        ensures told { EndsReported (is_lost (is_some name.entry) (is_none self.now.unopened) self.now.report)
            ended result (held W.contents lines.old.output) (held W.contents lines.new.output) }
        ensures unwritten { result ≡ Status.Unwritten ↔ has_failed lines.new.output ≡ true }
    {
        let Some(name) = name else {
            return ended;
        };
        if self.unopened.is_some() || self.report.has_failed() {
            let made = unreported_words(alloc, name, self.cause(alloc));
            return tell_unreported(alloc, lines, made);
        }
        ended
    }

    // Why it couldn't be opened or written, in words.
    fn cause(&self, alloc: Global) -> Option<String> {
        let words = match (&self.unopened, self.report.cause()) {
            (Some(Unopened::Refused(error)), _) => return system_words(alloc, error),
            (None, Some(kind)) => return format!(in alloc; "{kind}").ok(),
            (Some(Unopened::Dash), _) => "it is standard output, where the frames go",
            (Some(Unopened::Link), _) => "it is a link: name the file itself",
            (Some(Unopened::Taken), _) => "the command has this file for something else",
            (Some(Unopened::NoReport(line)), _) => return no_report_words(alloc, *line),
            (Some(Unopened::InUse), _) => "another command writes it",
            (None, None) => "memory ran out",
        };
        String::from_str(alloc, words).ok()
    }
}

// Opens a report, locked, and tells which run this is.
fn opened<R: Files<File = File> + AllocGlobal>(
    rt: &R,
    name: &str,
    others: Others<'_>,
) -> Result<(u64, ReportOutput), Unopened> {
    if name == "-" {
        return Err(Unopened::Dash);
    }
    if is_named(name, others) {
        return Err(Unopened::Taken);
    }
    match fs::symlink_metadata(rt, name) {
        Ok(found) if found.is_symlink() => return Err(Unopened::Link),
        Ok(found) if !found.is_file() => return opened_other(rt, name, found.file_type().is_fifo()),
        Ok(_) => {}
        Err(error) if error.kind() == ErrorKind::NotFound => {}
        Err(error) => return Err(Unopened::Refused(error)),
    }
    let mut how = OpenOptions::new();
    let _ = how.read(true).append(true).create(true);
    let mut file = match how.open(rt, name) {
        Ok(file) => file,
        Err(error) => return Err(Unopened::Refused(error)),
    };
    let onward = judged(rt, &mut file, others)?;
    Ok((onward.run, ReportOutput::new(file, onward)))
}

// Whether the name is one of these: a file that isn't there yet isn't made then. (One that was made by another name of
// it stays, empty, as it may be a drive's by now.)
fn is_named(name: &str, others: Others<'_>) -> bool {
    let journal = others.journal;
    name == others.orders
        || name == journal
        || !journal.is_empty() && name.strip_suffix(".new") == Some(journal)
        || others.older.iter().any(|&older| name == older)
}

// A file that isn't regular, such as a pipe or a terminal, is written to as it is. Opening a pipe that nobody reads
// would block, so it is held open for reading too until it is open.
fn opened_other<R: Files<File = File>>(
    rt: &R,
    name: &str,
    is_pipe: bool,
) -> Result<(u64, ReportOutput), Unopened> {
    let mut how = OpenOptions::new();
    let _ = how.write(true);
    let held = if is_pipe {
        Some(opened_both(rt, name)?)
    } else {
        None
    };
    let opened = how.open(rt, name);
    drop(held);
    match opened {
        Ok(file) => {
            let onward = Onward::first();
            Ok((onward.run, ReportOutput::new(file, onward)))
        }
        Err(error) => Err(Unopened::Refused(error)),
    }
}

// Opens a pipe for both, which never waits.
fn opened_both<R: Files<File = File>>(rt: &R, name: &str) -> Result<File, Unopened> {
    let mut how = OpenOptions::new();
    let _ = how.read(true).write(true);
    match how.open(rt, name) {
        Ok(file) => Ok(file),
        Err(error) => Err(Unopened::Refused(error)),
    }
}

// Locks the file, and looks whether it may be the report of a command with these files.
fn judged<R: Files<File = File> + AllocGlobal>(
    rt: &R,
    file: &mut File,
    others: Others<'_>,
) -> Result<Onward, Unopened> {
    match is_taken(rt, file, others) {
        Ok(true) => return Err(Unopened::Taken),
        Ok(false) => {}
        Err(error) => return Err(Unopened::Refused(error)),
    }
    match file.try_lock() {
        Ok(()) => {}
        Err(TryLockError::WouldBlock) => return Err(Unopened::InUse),
        Err(TryLockError::Error(error)) => return Err(Unopened::Refused(error)),
    }
    match look_through(rt.alloc(), file) {
        Ok(Held::Report(onward)) => Ok(onward),
        Ok(Held::Other(line)) => Err(Unopened::NoReport(line)),
        Err(error) => Err(Unopened::Refused(error)),
    }
}

// Whether the file is one of these, by whatever name, or the new one that the journal may get.
fn is_taken<R: Files<File = File> + AllocGlobal>(
    rt: &R,
    file: &File,
    others: Others<'_>,
) -> io::Result<bool> {
    let own = file.metadata()?;
    let journal = others.journal;
    let new_journal = format!(in rt.alloc(); "{journal}.new")?;
    for name in [others.orders, journal, new_journal.as_str()] {
        if is_same(rt, &own, name) {
            return Ok(true);
        }
    }
    for &name in others.older {
        if is_same(rt, &own, name) {
            return Ok(true);
        }
    }
    Ok(false)
}

fn is_same<R: Files<File = File>>(rt: &R, own: &Metadata, name: &str) -> bool {
    match fs::metadata(rt, name) {
        Ok(found) => found.dev() == own.dev() && found.ino() == own.ino(),
        Err(_) => false,
    }
}

// Tells that a report can't be written, however the command ended.
fn tell_unreported<W: Write>(alloc: Global, lines: &mut Lines<W>, made: Option<String>) -> Status
    ensures told { EndsReported true result result
        (held W.contents lines.old.output) (held W.contents lines.new.output) }
    ensures unwritten { result ≡ Status.Unwritten ↔ has_failed lines.new.output ≡ true }
{
    match write_unreported(alloc, &mut lines.output, made) {
        Ok(()) => Status::Failed,
        Err(_) => Status::Unwritten,
    }
}

// Writes it in the words that were made for it, or in others.
fn write_unreported<W: Write>(
    alloc: Global,
    output: &mut Output<W>,
    made: Option<String>,
) -> Result<(), OutputFailed>
    ensures line { OnOk result ((words : List ℕ) × IsPlain words
        × Takes W.contents output.old output.new (error_line words)) }
    ensures failed { TellsFailure result output.old output.new }
    ensures unfailed { OnOk result (has_failed output.new ≡ false) }
{
    match plain_words(alloc, made) {
        Some(words) => write_error(output, words.as_str()),
        None => write_error(output, "the report can't be written"),
    }
}

fn no_report_words(alloc: Global, line: u64) -> Option<String> {
    format!(in alloc;
        "line {line} there is none of a report: name another file, or take that line out"
    ).ok()
}

fn unreported_words(alloc: Global, name: &str, cause: Option<String>) -> Option<String> {
    let cause = cause?;
    let cause = cause.as_str();
    format!(in alloc; "the report can't be written: {name}: {cause}").ok()
}

// Writes a line in words for a person.
#[tactic(auto, using(dali_text::proofs::StreamLemmas::appends_kept))]
fn write_error<W: Write>(output: &mut Output<W>, words: &str) -> Result<(), OutputFailed>
    ensures line { OnOk result (Takes W.contents output.old output.new (error_line words.now)) }
    ensures failed { TellsFailure result output.old output.new }
    ensures unfailed { OnOk result (has_failed output.new ≡ false) }
{
    writeln!(output, "error: {words}")?;
    output.flush()
}
