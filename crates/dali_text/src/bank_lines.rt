ghost use Rattle.std.specs.Prelude.{◌≡◌, ◌≤◌, ◌+◌, ℕ, List, ◌++◌, OnOk, codes, length};
ghost use Rattle.dali_bank.specs.Layout.{first_of, length_of};
ghost use Rattle.dali_bank.specs.Shown.{IsShown, part_of};
ghost use Rattle.dali_text.specs.BankLines.{AreLines, IsPlainText, IsRowText, number_text, rows, shown_text};
ghost use Rattle.dali_text.specs.BankLines.{word_of as row_word};
ghost use Rattle.dali_text.specs.Output.{TellsFailure, Takes};

use crate::digits::write_bytes;
use crate::output::{Output, OutputFailed};
use dali_bank::{Field, Shown, read_field};
use std::io::Write;

/// A row of a printed memory bank.
#[derive(Clone, Copy, PartialEq, Eq)]
pub enum Row {
    /// The last location of the bank, as the bank tells it.
    Last,
    /// The indicator byte.
    Indicator,
    /// The lock byte.
    Lock,
    /// The content format.
    Format,
    /// A field.
    Of(Field),
}

// The rows, in the order in which they are written.
const ROWS: [Row; 18] = [
    Row::Last,
    Row::Indicator,
    Row::Lock,
    Row::Of(Field::Gtin),
    Row::Of(Field::Identification),
    Row::Format,
    Row::Of(Field::Year),
    Row::Of(Field::Week),
    Row::Of(Field::InputPower),
    Row::Of(Field::MinDimPower),
    Row::Of(Field::MinVoltage),
    Row::Of(Field::MaxVoltage),
    Row::Of(Field::LightOutput),
    Row::Of(Field::Cri),
    Row::Of(Field::Cct),
    Row::Of(Field::Distribution),
    Row::Of(Field::Colour),
    Row::Of(Field::Luminaire),
];

/// Writes what the bytes of a memory bank 1 say (profile): a line for each of its rows, by rising
/// location, with the row's word and what the bank has there.
///
/// A bank of any length will do. A row that it ends before is absent.
pub fn write_bank<W: Write>(output: &mut Output<W>, bank: &[u8]) -> Result<(), OutputFailed>
    ensures text { OnOk result ((text : List ℕ) × AreLines bank.now rows text
        × Takes W.contents output.old output.new text) }
    ensures failed { TellsFailure result output.old output.new }
{
    for &row in &ROWS {
        write_row(output, bank, row)?;
    }
    Ok(())
}

// Writes a row.
fn write_row<W: Write>(output: &mut Output<W>, bank: &[u8], row: Row) -> Result<(), OutputFailed>
    ensures text { OnOk result ((text : List ℕ) × IsRowText bank.now row text
        × Takes W.contents output.old output.new (row_word row ++ codes " " ++ text ++ codes "\n")) }
    ensures failed { TellsFailure result output.old output.new }
{
    let word = word_of(row);
    write!(output, "{word} ")?;
    write_text(output, bank, row)?;
    output.write_all(b"\n")
}

// A row's word.
fn word_of(row: Row) -> &'static str
    ensures { result.now ≡ row_word row }
{
    match row {
        Row::Last => "last",
        Row::Indicator => "indicator",
        Row::Lock => "lock",
        Row::Format => "format",
        Row::Of(field) => field.key(),
    }
}

// Writes what a row says of the bank.
fn write_text<W: Write>(output: &mut Output<W>, bank: &[u8], row: Row) -> Result<(), OutputFailed>
    ensures text { OnOk result ((text : List ℕ) × IsRowText bank.now row text
        × Takes W.contents output.old output.new text) }
    ensures failed { TellsFailure result output.old output.new }
{
    match row {
        Row::Last => write_plain(output, bank, 0x00, 1),
        Row::Indicator => write_plain(output, bank, 0x01, 1),
        Row::Lock => write_plain(output, bank, 0x02, 1),
        Row::Format => write_plain(output, bank, 0x11, 2),
        Row::Of(field) => write_field(output, bank, field, read_field(bank, field)),
    }
}

// Writes `count` bytes of the bank as they are.
fn write_plain<W: Write>(
    output: &mut Output<W>,
    bank: &[u8],
    first: u8,
    count: u8,
) -> Result<(), OutputFailed>
    ensures text { OnOk result ((text : List ℕ) × IsPlainText bank.now first count text
        × Takes W.contents output.old output.new text) }
    ensures failed { TellsFailure result output.old output.new }
{
    let (first, count) = (first as usize, count as usize);
    if bank.len() < first + count {
        return write!(output, "absent");
    }
    write_bytes(output, &bank[first..][..count])
}

// Writes a field that is shown in this way.
fn write_field<W: Write>(
    output: &mut Output<W>,
    bank: &[u8],
    field: Field,
    shown: Shown,
) -> Result<(), OutputFailed>
    requires { IsShown bank.now field shown }
    ensures text { OnOk result (Takes W.contents output.old output.new
        (shown_text field (part_of field bank.now) shown)) }
    ensures failed { TellsFailure result output.old output.new }
{
    match shown {
        Shown::Absent => output.write_all(b"absent"),
        Shown::Unknown => output.write_all(b"unknown"),
        Shown::Number(number) => write_number(output, field, number),
        Shown::Hex => write_bytes(output, part(bank, field)),
        Shown::Text(count) => {
            output.write_all(b"text ")?;
            output.write_all(&part(bank, field)[..count as usize])
        }
        Shown::Raw => {
            output.write_all(b"raw ")?;
            write_bytes(output, part(bank, field))
        }
    }
}

// The bytes of a field.
fn part(bank: &[u8], field: Field) -> &[u8]
    requires { first_of field + length_of field ≤ length bank.now }
    ensures { result.now ≡ part_of field bank.now }
{
    &bank[field.first() as usize..][..field.length() as usize]
}

// Writes a field's number.
#[tactic(auto, using(crate::proofs::BankLinesLemmas::fourteen_padded))]
fn write_number<W: Write>(
    output: &mut Output<W>,
    field: Field,
    number: u64,
) -> Result<(), OutputFailed>
    ensures text { OnOk result (Takes W.contents output.old output.new (number_text field number)) }
    ensures failed { TellsFailure result output.old output.new }
{
    match field {
        Field::Gtin => write!(output, "{number:014}"),
        _ => write!(output, "{number}"),
    }
}
