// Why a command over a link can't go on, and how that is reported.
ghost use Rattle.std.specs.Prelude.{◌≡◌, ◌≢◌, ◌↔◌, ◌||◌, IfSome, MatchOption, false, is_some, not, string_bytes, true};
ghost use Rattle.std.specs.Io.KnownBytes.{Appends};
ghost use Rattle.std.proofs.Props.{props};
ghost use Rattle.dali_trace.specs.declared.fault.DriveFault.TheVariants.{Out};
ghost use Rattle.dali_drive.specs.Streams.{PutsFirst};
ghost use Rattle.dali_text.specs.Output.{has_failed, held, is_flushed};
ghost use Rattle.dali_input.specs.declared.command_fault.Fault.TheVariants.{Drive};
ghost use Rattle.dali_input.specs.CommandFaults.{told_line};
ghost use Rattle.dali_link_commands.specs.DriveAnswers.{fault_unopened};
ghost use Rattle.dali_link_commands.specs.Older.{fault_older};
ghost use Rattle.dali_link_commands.specs.OrdersAnswers.{IsUnopened, IsUnread};
ghost use Rattle.dali_link_commands.specs.Told.{IsFaultTold, IsPlain, TellsText, error_line, is_worded};

use crate::drive_lines::written_status;
use crate::lines::Lines;
use crate::older::OlderFault;
use crate::words::{older_words, plain_words, unread_words};
use dali_drive::{DriveFault, Sink, put_all};
use dali_input::{Fault, InputFault, Status, drive_line, write_failure};
use dali_journal::JournalFault;
use dali_store::{OpenFault, StoreFault};
use std::alloc::Global;
use std::io;
use std::io::{ErrorKind, Write};

/// Why a command can't go on, and words for a person: plain characters on one line.
///
/// It is never that the lines can't be written, since nothing can be reported then.
#[derive(Drop)]
pub struct Problem {
    /// The fault that is reported.
    pub fault: Fault,
    /// Words that name the file or the stream, and the reason, if there are any, and memory for them.
    pub words: Option<String>,
    // Whether it is of an older journal: the words say at least that.
    is_older: bool,
    ghost reported: { fault ≢ Drive Out },
    ghost plain: { IfSome words (λ text. IsPlain (string_bytes text)) } by { Prim.hlevel props },
}

impl Problem {
    // With the words that were made for it.
    fn new(alloc: Global, fault: Fault, made: Option<String>) -> Problem
        requires { fault ≢ Drive Out }
        ensures { result.fault ≡ fault }
    {
        Problem {
            fault,
            words: plain_words(alloc, made),
            is_older: false,
        }
    }

    /// The file of this name gives no orders: the words of 20 Memory and 21 File name it, with the cause if there is
    /// one.
    pub(crate) fn unread(
        alloc: Global,
        name: &str,
        fault: InputFault,
        cause: Option<io::Error>,
    ) -> Problem
        ensures { result.fault ≡ Fault.Input fault }
    {
        let made = match fault {
            InputFault::Memory => format!(in alloc; "memory ran out: {name}").ok(),
            InputFault::File => unread_words(alloc, name, cause),
            _ => None,
        };
        Problem::new(alloc, Fault::Input(fault), made)
    }

    /// The system refuses the file of this name: 20 Memory or 21 File.
    pub(crate) fn refused(alloc: Global, name: &str, error: io::Error) -> Problem
        ensures { IsUnopened result.fault }
    {
        Problem::unread(alloc, name, refusal_of(&error), Some(error))
    }

    /// The store of the file of this name has failed, in these words if it has any: 21 File.
    pub(crate) fn failed(alloc: Global, name: &str, words: Option<&str>) -> Problem
        ensures { result.fault ≡ Fault.Input InputFault.File }
    {
        match words {
            Some(words) => {
                let made = String::from_str(alloc, words).ok();
                Problem::new(alloc, Fault::Input(InputFault::File), made)
            }
            None => Problem::unread(alloc, name, InputFault::File, None),
        }
    }

    /// No journal is opened in the store of the file of this name, which has these words if it has failed; or it can't
    /// follow the older ones.
    pub(crate) fn unopened(
        alloc: Global,
        name: &str,
        fault: OpenFault,
        words: Option<&str>,
    ) -> Problem
        ensures { result.fault ≡ fault_unopened fault }
    {
        match fault {
            OpenFault::Journal(JournalFault::NoMemory) | OpenFault::Store(StoreFault::NoMemory) => {
                Problem::unread(alloc, name, InputFault::Memory, None)
            }
            OpenFault::Journal(fault) => Problem::new(alloc, Fault::Journal(fault), None),
            OpenFault::Store(StoreFault::TooBig) => {
                Problem::unread(alloc, name, InputFault::TooBig, None)
            }
            OpenFault::Store(StoreFault::Failed) => Problem::failed(alloc, name, words),
            OpenFault::Join(fault) => Problem::older(alloc, name, OlderFault::Join(fault), None),
        }
    }

    /// The file of this name can't be used as an older journal, with the words that its store or the system has.
    pub(crate) fn older(
        alloc: Global,
        name: &str,
        fault: OlderFault,
        words: Option<&str>,
    ) -> Problem
        ensures { result.fault ≡ fault_older fault }
    {
        let words = older_words(alloc, name, fault, words);
        Problem {
            fault: fault.fault(),
            words: plain_words(alloc, words),
            is_older: true,
        }
    }

    /// The journal of the file of this name can't be asked, with the words that its store or the system has.
    pub(crate) fn unasked(alloc: Global, name: &str, fault: Fault, words: Option<&str>) -> Problem
        requires { fault ≢ Drive Out }
        ensures { result.fault ≡ fault }
    {
        let made = match words {
            Some(words) => format!(in alloc; "the journal can't be used: {name}: {words}").ok(),
            None => format!(in alloc; "the journal can't be used: {name}").ok(),
        };
        Problem::new(alloc, fault, made)
    }

    /// A drive or a reading broke off, for the cause in these words, if there are any.
    pub(crate) fn broken(alloc: Global, fault: DriveFault, words: Option<String>) -> Problem
        requires { fault ≢ Out }
        ensures { result.fault ≡ Fault.Drive fault }
    {
        Problem::new(alloc, Fault::Drive(fault), words)
    }

    // The words before the fault's line; none if it has none.
    fn said(&self) -> Option<&str>
        ensures { MatchOption result (is_worded self.now.fault ≡ false)
            (λ words. (is_worded self.now.fault ≡ true) × IsPlain words.now) }
    {
        match (short_words(self.fault, self.is_older), &self.words) {
            (Some(_), Some(words)) => Some(words.as_str()),
            (short, _) => short,
        }
    }

    /// Writes it to lines that haven't failed: a line in words, if its fault is of a file, an older journal or the
    /// memory, or 1 Journal or 2 Link of a drive, and then the fault's line.
    pub(crate) fn tell<W: Write>(&self, lines: &mut Lines<W>) -> Status
        requires { has_failed lines.old.output ≡ false }
        ensures told { IsFaultTold self.now.fault result
            (held W.contents lines.old.output) (held W.contents lines.new.output) }
        ensures unwritten { result ≡ Status.Unwritten ↔ has_failed lines.new.output ≡ true }
        ensures flushed { result ≢ Status.Unwritten → is_flushed lines.new.output ≡ true }
        ensures not_good { result ≢ Status.Good }
    {
        match self.said() {
            None => tell_line(lines, self.fault),
            Some(words) if put_words(lines, words) => tell_line(lines, self.fault),
            Some(_) => Status::Unwritten,
        }
    }
}

/// The failure of this kind.
pub(crate) fn failure_of(cause: Option<ErrorKind>) -> Option<io::Error>
    ensures { is_some result ≡ is_some cause }
{
    match cause {
        Some(kind) => Some(io::Error::from(kind)),
        None => None,
    }
}

/// The fault if the system refuses a file: 20 Memory or 21 File.
pub(crate) fn refusal_of(error: &io::Error) -> InputFault
    ensures { IsUnread result }
{
    match error.kind() {
        ErrorKind::OutOfMemory => InputFault::Memory,
        _ => InputFault::File,
    }
}

// The words of an older journal for which there is no memory.
const OLDER_UNUSED: &str = "an older journal can't be used";

// The words before a fault's line, if there was no memory for others; none if it has none.
fn short_words(fault: Fault, is_older: bool) -> Option<&'static str>
    ensures { MatchOption result (is_worded fault ≡ false)
        (λ words. (is_worded fault ≡ true) × IsPlain words.now) }
{
    match fault {
        Fault::Input(InputFault::Memory | InputFault::File) if is_older => Some(OLDER_UNUSED),
        Fault::Input(InputFault::Memory) => Some("memory ran out"),
        Fault::Input(InputFault::File) => Some("the file can't be used"),
        Fault::Older => Some(OLDER_UNUSED),
        Fault::Drive(DriveFault::Journal) => Some("the journal can't be written"),
        Fault::Drive(DriveFault::Link) => Some("the link can't be used"),
        _ => None,
    }
}

// Puts a line in these words, and says whether it is held. If it isn't, only a first part is.
fn put_words<W: Write>(lines: &mut Lines<W>, words: &str) -> bool
    ensures whole { result ≡ true
        → Appends (held W.contents lines.old.output) (held W.contents lines.new.output) (error_line words.now) }
    ensures cut { result ≡ false
        → PutsFirst (held W.contents lines.old.output) (held W.contents lines.new.output) (error_line words.now) }
    ensures failed { has_failed lines.new.output ≡ (has_failed lines.old.output || not result) }
{
    if !put_all(lines, b"error: ") {
        return false;
    }
    if !put_all(lines, words.as_bytes()) {
        return false;
    }
    put_all(lines, b"\n")
}

// Writes the line of a fault, and flushes.
fn tell_line<W: Write>(lines: &mut Lines<W>, fault: Fault) -> Status
    requires unfailed { has_failed lines.old.output ≡ false }
    requires reported { fault ≢ Drive Out }
    ensures told { TellsText fault (told_line fault) result
        (held W.contents lines.old.output) (held W.contents lines.new.output) }
    ensures unwritten { result ≡ Status.Unwritten ↔ has_failed lines.new.output ≡ true }
    ensures flushed { result ≢ Status.Unwritten → is_flushed lines.new.output ≡ true }
    ensures not_good { result ≢ Status.Good }
{
    match fault {
        Fault::Drive(fault) => tell_drive_line(lines, fault),
        fault => written_status(write_failure(&mut lines.output, fault)),
    }
}

// The same of a drive's fault: if it isn't written whole, a first part of it is.
fn tell_drive_line<W: Write>(lines: &mut Lines<W>, fault: DriveFault) -> Status
    requires unfailed { has_failed lines.old.output ≡ false }
    requires reported { fault ≢ Out }
    ensures told { TellsText (Fault.Drive fault) (told_line (Fault.Drive fault)) result
        (held W.contents lines.old.output) (held W.contents lines.new.output) }
    ensures unwritten { result ≡ Status.Unwritten ↔ has_failed lines.new.output ≡ true }
    ensures flushed { result ≢ Status.Unwritten → is_flushed lines.new.output ≡ true }
    ensures not_good { result ≢ Status.Good }
{
    if !put_all(lines, drive_line(fault).as_bytes()) {
        return Status::Unwritten;
    }
    if !lines.flush() {
        return Status::Unwritten;
    }
    Fault::Drive(fault).status()
}
