ghost use Rattle.std.specs.Prelude.{◌≡◌, ◌≤◌, List, OnOk, drop, length, reverse};
ghost use Rattle.std.specs.List.{AllByRecursion, flat_map};
ghost use Rattle.dali_journal.specs.declared.record.Record.{Record as Entry};
ghost use Rattle.dali_journal.specs.declared.version.Version.TheVariants.{Two};
ghost use Rattle.dali_journal.specs.Spelling.{IsRecord, spelling};
ghost use Rattle.dali_text.specs.JournalLines.{counts_line, journal_text, record_line, record_lines, records_text};
ghost use Rattle.dali_text.specs.JournalLines.{standing_text, version_line};
ghost use Rattle.dali_text.specs.Output.{TellsFailure, Takes};

use crate::order_lines::write_updates;
use crate::output::{Output, OutputFailed};
use crate::record_text::RecordText;
use dali_journal::{Journal, Piece, Record, Standing, Version};
use std::fmt;
use std::io::Write;

// A standing as a program prints it.
#[derive(Clone, Copy)]
struct StandingText<'a>(&'a Standing);

impl fmt::Display for StandingText<'_> {
    ghost use Rattle.std.specs.Prelude.{Some};
    ghost use Rattle.dali_text.specs.JournalLines.{standing_text};

    ghost output = { λ text. Some (standing_text text.0.now) };

    fn fmt<W: fmt::Write>(&self, f: &mut fmt::Formatter<W>) -> fmt::Result {
        match self.0 {
            Standing::Idle => f.write_str("idle"),
            Standing::Began(_) => f.write_str("began"),
            Standing::Opened(_) => f.write_str("opened"),
            Standing::Left(unit) => write!(f, "left {unit}"),
        }
    }
}

/// Writes a journal (profile): the version of its file, a line for each record, the oldest first, and then how many
/// bytes count of all that the file has, how many orders were begun, and the standing. With
/// `with_updates`, the line of a record that begins an order is followed by that order's updates, as
/// `write_order` writes them.
#[tactic(auto, using(crate::proofs::StreamLemmas::appends_both))]
pub fn write_journal<W: Write>(
    output: &mut Output<W>,
    journal: &Journal,
    version: Version,
    counted: usize,
    total: usize,
    with_updates: bool,
) -> Result<(), OutputFailed>
    ensures text { OnOk result (Takes W.contents output.old output.new
        (journal_text with_updates version journal.now.records counted total)) }
    ensures failed { TellsFailure result output.old output.new }
{
    write_version(output, version)?;
    write_told(output, journal, counted, total, with_updates)
}

// Writes the records of a journal, and what counts.
#[tactic(auto, using(crate::proofs::StreamLemmas::appends_both))]
fn write_told<W: Write>(
    output: &mut Output<W>,
    journal: &Journal,
    counted: usize,
    total: usize,
    with_updates: bool,
) -> Result<(), OutputFailed>
    ensures text { OnOk result (Takes W.contents output.old output.new
        (records_text with_updates journal.now.records counted total)) }
    ensures failed { TellsFailure result output.old output.new }
{
    write_records(output, journal, with_updates)?;
    let orders = journal.orders();
    write_counts(output, counted, total, orders, &journal.standing())
}

// Writes the version of a journal's file.
fn write_version<W: Write>(output: &mut Output<W>, version: Version) -> Result<(), OutputFailed>
    ensures text { OnOk result (Takes W.contents output.old output.new (version_line version)) }
    ensures failed { TellsFailure result output.old output.new }
{
    let number = version.number();
    writeln!(output, "version {number}")
}

// Writes each record of a journal, the oldest first.
fn write_records<W: Write>(
    output: &mut Output<W>,
    journal: &Journal,
    with_updates: bool,
) -> Result<(), OutputFailed>
    ensures text { OnOk result (Takes W.contents output.old output.new
        (flat_map (record_lines with_updates) (reverse journal.now.records))) }
    ensures failed { TellsFailure result output.old output.new }
{
    // it tells that the records' numbers are in range
    let _limit = journal.limit();
    write_each(output, journal.record_bytes(), with_updates)
}

// Writes each record that the bytes are.
fn write_each<W: Write>(
    output: &mut Output<W>,
    bytes: &[u8],
    with_updates: bool,
) -> Result<(), OutputFailed>
    ensures text { (records : List Entry) → AllByRecursion (IsRecord Two) records
        → bytes.now ≡ flat_map (spelling Two) records
        → OnOk result (Takes W.contents output.old output.new (flat_map (record_lines with_updates) records)) }
    ensures failed { TellsFailure result output.old output.new }
{
    let mut rest = bytes;
    while let Piece::Whole(entry, len) = Record::read(rest) {
        write_record(output, &entry, with_updates)?;
        rest = behind(rest, len);
    }
    Ok(())
}

// The bytes after the first `count`.
fn behind(bytes: &[u8], count: usize) -> &[u8]
    requires { count ≤ length bytes.now }
    ensures { result.now ≡ drop count bytes.now }
{
    &bytes[count..]
}

// Writes a record, and if updates are wanted and it begins an order, that order's updates after it.
#[tactic(auto, using(crate::proofs::StreamLemmas::appends_both))]
fn write_record<W: Write>(
    output: &mut Output<W>,
    entry: &Record,
    with_updates: bool,
) -> Result<(), OutputFailed>
    ensures text { OnOk result (Takes W.contents output.old output.new (record_lines with_updates entry.now)) }
    ensures failed { TellsFailure result output.old output.new }
{
    write_entry(output, entry)?;
    match entry {
        Record::Began(order, _) if with_updates => write_updates(output, order.updates()),
        _ => Ok(()),
    }
}

// Writes a record by itself.
fn write_entry<W: Write>(output: &mut Output<W>, entry: &Record) -> Result<(), OutputFailed>
    ensures text { OnOk result (Takes W.contents output.old output.new (record_line entry.now)) }
    ensures failed { TellsFailure result output.old output.new }
{
    let entry = RecordText(entry);
    writeln!(output, "{entry}")
}

// Writes how many bytes count, how many orders they begin, and the standing that they leave.
fn write_counts<W: Write>(
    output: &mut Output<W>,
    counted: usize,
    total: usize,
    orders: u32,
    standing: &Standing,
) -> Result<(), OutputFailed>
    ensures text { OnOk result (Takes W.contents output.old output.new
        (counts_line counted total orders standing.now)) }
    ensures failed { TellsFailure result output.old output.new }
{
    let standing = StandingText(standing);
    writeln!(
        output,
        "counts {counted} of {total} orders {orders} standing {standing}"
    )
}
