// A journal's answers about orders before they are driven.
ghost use Rattle.std.specs.Prelude.{◌≡◌, ◌≤◌, ◌∷◌, ◌⊎◌, ℕ, List, IfOk, IfSome, OnOk, Some, drop, length, reverse};
ghost use Rattle.std.specs.List.{AllByRecursion, flat_map};
ghost use Rattle.dali_journal.specs.declared.kept.Kept.TheVariants as kepts;
ghost use Rattle.dali_journal.specs.declared.record.Record.{Record as Entry};
ghost use Rattle.dali_journal.specs.declared.version.Version.TheVariants.{Two};
ghost use Rattle.dali_journal.specs.Orders.{kept_of};
ghost use Rattle.dali_journal.specs.Spelling.{IsRecord, spelling};
ghost use Rattle.dali_trace.specs.Replies.{IsNotEnded};
ghost use Rattle.dali_text.specs.Output.{TellsFailure, Takes};
ghost use Rattle.dali_file_commands.specs.Known.{IsFree, IsFreeText, IsKnown, IsKnownTo, asked, free_line, is_closed};
ghost use Rattle.dali_file_commands.specs.Known.{known_line, known_lines};
ghost use Rattle.dali_file_commands.specs.Survey.{IsSurvey, IsSurveyed, is_left_by};

use dali_bank::Order;
use dali_engine::{Reply, known_reply};
use dali_journal::{Code, Journal, Kept as KeptOrder, Piece, Record, Standing};
use dali_text::{Output, OutputFailed};
use std::io::Write;

/// A journal's answer about an order before it is driven (profile).
#[derive(Clone, Copy, PartialEq, Eq)]
pub enum Known {
    /// It has ended this same order with this code. Closed: its unit was left open, and was closed since.
    Kept(Code, bool),
    /// It has the number for another unit or with other updates.
    Reused,
    /// It has begun this same order and not ended it.
    Begun,
    /// It hasn't the number, and has room for one more order.
    New,
    /// It hasn't the number, and has as many orders as it may.
    Full,
}

/// The numbers that are looked up once in a journal: the greatest number of its orders, and that of the newest one.
#[derive(Clone, Copy)]
pub(crate) struct Survey {
    greatest: Option<u64>,
    newest: Option<u64>,
}

impl Survey {
    // The same with one more record after them.
    fn with(self, entry: &Record) -> Survey
        ensures { (records : List Entry) → IsSurvey records self → IsSurvey (entry.now ∷ records) result }
    {
        match entry {
            Record::Began(order, _) => Survey {
                greatest: Some(greater(self.greatest, order.id())),
                newest: Some(order.id()),
            },
            Record::Opened(_) => self,
            Record::Ended(_) => self,
            Record::Closed(_) => self,
        }
    }

    // The first number above all.
    fn free(self) -> Option<u64>
        ensures { (records : List Entry) → IsSurvey records self → IsFree records result }
    {
        match self.greatest {
            None => Some(0),
            Some(greatest) => greatest.checked_add(1),
        }
    }
}

// The greater one of two numbers.
fn greater(greatest: Option<u64>, id: u64) -> u64
    ensures least { id ≤ result }
    ensures others { IfSome greatest (λ other. other ≤ result) }
    ensures one { (result ≡ id) ⊎ (greatest ≡ Some result) }
{
    match greatest {
        Some(other) if other > id => other,
        _ => id,
    }
}

/// The journal that is asked, if one is.
#[derive(Clone, Copy)]
pub(crate) struct Ledger<'a> {
    journal: Option<&'a Journal>,
    survey: Survey,
}

impl<'a> Ledger<'a> {
    /// Of this journal, if one is to be asked.
    pub(crate) fn of(journal: Option<&'a Journal>) -> Ledger<'a>
        ensures journal { result.journal ≡ journal.entry }
        ensures surveyed { IsSurveyed result }
    {
        let survey = match journal {
            Some(journal) => survey_of(journal),
            None => Survey {
                greatest: None,
                newest: None,
            },
        };
        Ledger { journal, survey }
    }

    /// The journal's answer about an order.
    pub(crate) fn known(&self, order: &Order) -> Option<Known>
        requires surveyed { IsSurveyed self.now }
        ensures known { IsKnownTo (asked self.now.journal) order.now result }
    {
        match self.journal {
            Some(journal) => Some(known_of(journal, self.survey, order)),
            None => None,
        }
    }
}

// The numbers that are looked up once in a journal.
fn survey_of(journal: &Journal) -> Survey
    ensures { IsSurvey journal.now.records result }
{
    // it tells that the records' numbers are in range
    let _limit = journal.limit();
    survey_each(journal.record_bytes())
}

// The same of the records that the bytes are, the oldest first.
fn survey_each(bytes: &[u8]) -> Survey
    ensures { (records : List Entry) → AllByRecursion (IsRecord Two) records
        → bytes.now ≡ flat_map (spelling Two) records → IsSurvey (reverse records) result }
{
    let mut survey = Survey {
        greatest: None,
        newest: None,
    };
    let mut rest = bytes;
    while let Piece::Whole(entry, len) = Record::read(rest) {
        survey = survey.with(&entry);
        rest = behind(rest, len);
    }
    survey
}

// The bytes after the first `count`.
fn behind(bytes: &[u8], count: usize) -> &[u8]
    requires { count ≤ length bytes.now }
    ensures { result.now ≡ drop count bytes.now }
{
    &bytes[count..]
}

// A journal's answer about an order.
fn known_of(journal: &Journal, survey: Survey, order: &Order) -> Known
    requires { IsSurvey journal.now.records survey }
    ensures { IsKnown journal.now order.now result }
{
    match known_reply(journal, order) {
        Some(Reply::Kept(code)) => Known::Kept(code, has_closed(journal, survey, order, code)),
        Some(_) => Known::Reused,
        None => not_ended(journal, order),
    }
}

// A journal's answer about an order that it hasn't ended, and whose number is no other's.
fn not_ended(journal: &Journal, order: &Order) -> Known
    requires { IsNotEnded order.now (kept_of order.now.id journal.now.records) }
    ensures { IsKnown journal.now order.now result }
{
    match journal.kept(order.id()) {
        KeptOrder::Absent if journal.is_full() => Known::Full,
        KeptOrder::Absent => Known::New,
        KeptOrder::Unfinished(_) | KeptOrder::Ended(_, _) => Known::Begun,
    }
}

// Whether an order with this code left its unit open, and that was closed since: it is still open only if the newest
// order left it open.
fn has_closed(journal: &Journal, survey: Survey, order: &Order, code: Code) -> bool
    requires survey { IsSurvey journal.now.records survey }
    requires kept { kept_of order.now.id journal.now.records ≡ kepts.Ended order.now code }
    ensures { result ≡ is_closed code order.now.id journal.now.records }
{
    let is_left = is_left_by(&journal.standing(), survey.newest, order.id());
    match code {
        Code::DoubtOpen => !is_left,
        Code::Done | Code::Short | Code::Format | Code::Silent | Code::Doubt => false,
    }
}

// Whether a unit is left, and the newest order has this number.
fn is_left_by(standing: &Standing, newest: Option<u64>, id: u64) -> bool
    ensures { result ≡ is_left_by standing.now newest id }
{
    match (standing, newest) {
        (Standing::Left(_), Some(newest)) => newest == id,
        _ => false,
    }
}

/// Writes a journal's answer about an order, if one is asked.
pub(crate) fn write_known<W: Write>(
    output: &mut Output<W>,
    known: Option<Known>,
) -> Result<(), OutputFailed>
    ensures text { OnOk result (Takes W.contents output.old output.new (known_lines known)) }
    ensures failed { TellsFailure result output.old output.new }
{
    match known {
        Some(Known::Kept(code, is_closed)) => write_kept(output, code, is_closed),
        Some(Known::Reused) => output.write_all(b"known reused\n"),
        Some(Known::Begun) => output.write_all(b"known begun\n"),
        Some(Known::New) => output.write_all(b"new\n"),
        Some(Known::Full) => output.write_all(b"full\n"),
        None => Ok(()),
    }
}

// Writes that a journal has ended an order with this code.
fn write_kept<W: Write>(
    output: &mut Output<W>,
    code: Code,
    is_closed: bool,
) -> Result<(), OutputFailed>
    ensures text { OnOk result (Takes W.contents output.old output.new (known_line (Known.Kept code is_closed))) }
    ensures failed { TellsFailure result output.old output.new }
{
    let reply = Reply::Kept(code);
    if is_closed {
        writeln!(output, "known {reply} closed")
    } else {
        writeln!(output, "known {reply}")
    }
}

/// Writes which number is free for the next order, if a journal is asked.
pub(crate) fn write_free<W: Write>(
    output: &mut Output<W>,
    ledger: &Ledger<'_>,
) -> Result<(), OutputFailed>
    requires surveyed { IsSurveyed ledger.now }
    ensures text { IfOk result (λ _. (text : List ℕ) × IsFreeText (asked ledger.now.journal) text
        × Takes W.contents output.old output.new text) }
    ensures failed { TellsFailure result output.old output.new }
{
    match ledger.journal {
        Some(_) => write_number(output, ledger.survey.free()),
        None => Ok(()),
    }
}

// Writes a number that is free, if one is.
fn write_number<W: Write>(output: &mut Output<W>, free: Option<u64>) -> Result<(), OutputFailed>
    ensures text { OnOk result (Takes W.contents output.old output.new (free_line free)) }
    ensures failed { TellsFailure result output.old output.new }
{
    match free {
        Some(number) => writeln!(output, "free {number}"),
        None => output.write_all(b"free none\n"),
    }
}
