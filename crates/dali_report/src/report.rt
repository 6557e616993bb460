ghost use Rattle.std.specs.Prelude.{◌≡◌, ◌∷◌, ◌⊎◌, List, IsOkAnd, OnOk, None, false, true, is_some, option_map};
ghost use Rattle.std.specs.Io.KnownBytes.{Appends};
ghost use Rattle.dali_text.specs.Output.{Takes, TellsFailure, is_flushed};
ghost use Rattle.dali_trace.specs.declared.happening.Happening.{Happening};
ghost use Rattle.dali_trace.specs.declared.happening.Happening.TheVariants.{Answered};
ghost use Rattle.dali_trace.specs.Trace.{Start, records_of};
ghost use Rattle.dali_report.specs.Lines.{last_data, line_of};
ghost use Rattle.dali_journal.specs.Sentence.{standing_of};
ghost use Rattle.dali_report.specs.Reports.{is_last_reply, unfinished_in};
ghost use Rattle.dali_report.specs.Outcomes.{is_well as well};
ghost use Rattle.dali_report.specs.Told.{IsTold, IsToldEnd, output_held, output_failed, report_held};
ghost use Rattle.dali_report.specs.Told.{has_failed as report_failed, has_failed_output, has_output};
ghost use Rattle.dali_report.specs.Told.{is_watched, spoken, is_number, IsToldFound, none_found, outcome_so_far, run_of};

use crate::line::{LastReply, end_line, found_line};
use crate::outcome::Outcome;
use crate::progress::Progress;
use crate::tally::Tally;
use dali_bank::Order;
use dali_drive::{DriveFault, FindingObserver, Observer};
use dali_frame::Frame;
use dali_journal::{Code, Journal, Record, Standing};
use dali_read::Finding;
use dali_text::{Output, OutputFailed};
use dali_trace::{Happening, Reply};
use dali_write::Cause;
use std::alloc::{AllocError, Global};
use std::io::{ErrorKind, Write};

// An order of which is spoken.
#[derive(Clone, Copy)]
struct Spoken {
    id: u64,
    unit: u8,
}

impl Spoken {
    fn of(order: &Order) -> Spoken
        ensures { result ≡ spoken order.now }
    {
        Spoken {
            id: order.id(),
            unit: order.unit(),
        }
    }
}

/// The report of a drive (profile): a line of JSON for each order at its last reply, and one for an answer that broke
/// the drive off, each with the number of the run. With no output it only keeps the result of all of them.
///
/// A line is flushed before more happens. If one can't be written, no more is.
///
/// All of it is passed on to the progress that a person watches, which changes nothing in it.
#[derive(Drop)]
pub struct Report<'a, W> {
    alloc: Global,
    output: Option<Output<W>>,
    progress: Option<&'a Progress>,
    // Whether there was no memory for a line.
    starved: bool,
    // The order that was begun and hasn't ended.
    unfinished: Option<Spoken>,
    // The order that was asked last, or the one that is resumed.
    spoken: Option<Spoken>,
    // The order whose end was kept since the last reply before.
    ended: Option<Spoken>,
    // Why the order that is spoken of ended badly, if it did.
    cause: Option<Cause>,
    tally: Tally,
    outcome: Outcome,
    run: u64,
}

impl<'a, W: Write> Report<'a, W> {
    /// This run of a report, into an output if one is wanted, and beside what is watched, if that is.
    pub fn new(
        alloc: Global,
        run: u64,
        output: Option<Output<W>>,
        progress: Option<&'a Progress>,
    ) -> Report<'a, W>
        ensures held { report_held W.contents result ≡ output_held W.contents output }
        ensures failed { report_failed result ≡ output_failed output }
        ensures output { has_output result ≡ is_some output }
        ensures outcome { outcome_so_far result ≡ Outcome.Nothing }
        ensures run { run_of result ≡ run }
        ensures watched { is_watched result ≡ is_some progress.entry }
    {
        Report {
            alloc,
            output,
            progress,
            starved: false,
            unfinished: None,
            spoken: None,
            ended: None,
            cause: None,
            tally: Tally::new(),
            outcome: Outcome::Nothing,
            run,
        }
    }

    /// These are all orders that are to come, for the progress that is shown.
    pub fn expect(&self, orders: &[Order]) {
        if let Some(progress) = self.progress {
            progress.expect(orders);
        }
    }

    // A drive begins with this journal, for the progress that is shown.
    fn show_begun(&self, journal: &Journal) {
        if let Some(progress) = self.progress {
            progress.resume(journal);
        }
    }

    // This happened, for the progress that is shown.
    fn show(&self, happening: &Happening, journal: &Journal) {
        if let Some(progress) = self.progress {
            progress.see(happening, journal);
        }
    }

    // This was found, for the progress that is shown.
    fn show_found(&self, order: &Order, found: Option<Finding>) {
        if let Some(progress) = self.progress {
            progress.find(order, found);
        }
    }

    /// The result of all last replies.
    pub fn outcome(&self) -> Outcome
        ensures { result ≡ outcome_so_far self.now }
    {
        self.outcome
    }

    /// Whether a line couldn't be written.
    pub fn has_failed(&self) -> bool
        ensures { result ≡ report_failed self.now }
    {
        self.starved || self.cause().is_some()
    }

    /// The kind of its output's failure, if that has failed; none if it was want of memory.
    pub fn cause(&self) -> Option<ErrorKind>
        ensures { is_some result ≡ has_failed_output self.now }
    {
        match &self.output {
            Some(output) => output.cause(),
            None => None,
        }
    }

    // Tells a last reply.
    fn tell(&mut self, id: u64, reply: Reply, journal: &Journal)
        ensures told { (start : Start) (first : Report W) (past : List Happening)
            → IsTold W.contents start first self.old past → records_of start past ≡ journal.now.records
            → is_last_reply (Answered id reply) ≡ true
            → IsTold W.contents start first self.new (Answered id reply ∷ past) }
    {
        let ended_now = self.ends_now(id);
        self.write_last(&LastReply {
            order: id,
            unit: self.unit(),
            moment: journal.moment(id),
            reply,
            ended_now,
            cause: self.cause,
            frames: self.tally.frames,
            misses: self.tally.misses,
            run: self.run,
        });
        self.ended = None;
        self.tally = Tally::new();
        self.outcome = self.outcome.with(is_well(reply), ended_now);
    }

    // The short address of the order of which is spoken.
    fn unit(&self) -> Option<u8>
        ensures { result ≡ option_map (λ spoken. spoken.unit) self.now.spoken }
    {
        match self.spoken {
            Some(spoken) => Some(spoken.unit),
            None => None,
        }
    }

    // Whether the end of the order of this number was kept since the last reply before.
    fn ends_now(&self, id: u64) -> bool
        ensures { result ≡ is_number id self.now.ended }
    {
        match self.ended {
            Some(spoken) => spoken.id == id,
            None => false,
        }
    }

    // Writes the line of an order.
    fn write_last(&mut self, last: &LastReply)
        ensures same { self.new ≡ record self.old { output = self.new.output; starved = self.new.starved } }
        ensures written { report_failed self.new ≡ false → (report_failed self.old ≡ false)
            × Appends (report_held W.contents self.old) (report_held W.contents self.new)
            (line_of (last_data last.now)) }
        ensures silent { report_failed self.old ≡ true → self.new ≡ self.old }
    {
        if self.is_wanted() {
            self.put(last.line(self.alloc));
        }
    }

    // Whether lines are written: there is an output, and none has failed.
    fn is_wanted(&self) -> bool
        ensures wanted { (result ≡ true) → report_failed self.now ≡ false }
        ensures output { (result ≡ true) → has_output self.now ≡ true }
        ensures unwanted { (result ≡ false) → (report_failed self.now ≡ true) ⊎ (self.now.output ≡ None) }
    {
        self.output.is_some() && !self.has_failed()
    }

    // Writes a line, and flushes it.
    fn put(&mut self, line: Result<Vec<u8>, AllocError>)
        ensures same { self.new ≡ record self.old { output = self.new.output; starved = self.new.starved } }
        ensures put { report_failed self.new ≡ false → (report_failed self.old ≡ false) × IsOkAnd line
            (λ line. Appends (report_held W.contents self.old) (report_held W.contents self.new) line.items) }
    {
        let Ok(line) = line else {
            self.starved = true;
            return;
        };
        if let Some(output) = &mut self.output {
            let _ = write_line(output, line.as_slice());
        }
    }
}

impl<W: Write + Drop> Observer for Report<'_, W> {
    ghost told = { IsTold W.contents };

    ghost told_end = { IsToldEnd W.contents };

    fn begin(&mut self, journal: &Journal) {
        self.show_begun(journal);
        self.unfinished = unfinished(journal);
        self.spoken = self.unfinished;
        self.ended = None;
        self.cause = None;
        self.tally = Tally::new();
        self.outcome = Outcome::Nothing;
    }

    fn see(&mut self, happening: &Happening, journal: &Journal, cause: Option<Cause>) {
        self.show(happening, journal);
        match happening {
            Happening::Asked(order, _) => {
                self.spoken = Some(Spoken::of(order));
                self.cause = None;
            }
            Happening::Sent(frame, answer) => self.tally.add(frame, *answer),
            Happening::Kept(Record::Ended(_)) => {
                self.ended = self.unfinished;
                self.unfinished = unfinished(journal);
                self.cause = cause;
            }
            Happening::Kept(_) => self.unfinished = unfinished(journal),
            Happening::Answered(_, Reply::Taken) => {}
            Happening::Answered(id, reply) => self.tell(*id, *reply, journal),
            Happening::Stopped(_) | Happening::Powered(_) => {}
        }
    }

    fn see_end(&mut self, fault: DriveFault, frame: &Frame, read: &[u8]) {
        if self.is_wanted() {
            self.put(end_line(self.alloc, self.run, fault, frame, read));
        }
    }
}

impl<W: Write + Drop> FindingObserver for Report<'_, W> {
    ghost told_found = { IsToldFound W.contents };

    fn find(&mut self, order: &Order, found: Option<Finding>, read: &[u8]) {
        self.show_found(order, found);
        if self.is_wanted() {
            self.put(found_line(self.alloc, self.run, order, found, read));
        }
    }

    ghost told_none = { λ observer. none_found W.contents observer };
}

// The order that a journal leaves unfinished.
fn unfinished(journal: &Journal) -> Option<Spoken>
    ensures { result ≡ option_map spoken (unfinished_in (standing_of journal.now.records)) }
{
    match journal.standing() {
        Standing::Began(order) | Standing::Opened(order) => Some(Spoken::of(&order)),
        Standing::Idle | Standing::Left(_) => None,
    }
}

// Whether a last reply is `kept 0 Done`.
fn is_well(reply: Reply) -> bool
    ensures { result ≡ well reply }
{
    matches!(reply, Reply::Taken | Reply::Kept(Code::Done))
}

// Writes a line, and flushes it.
fn write_line<W: Write>(output: &mut Output<W>, line: &[u8]) -> Result<(), OutputFailed>
    ensures line { OnOk result (Takes W.contents output.old output.new line.now) }
    ensures flushed { OnOk result (is_flushed output.new ≡ true) }
    ensures failed { TellsFailure result output.old output.new }
{
    output.write_all(line)?;
    output.flush()
}
