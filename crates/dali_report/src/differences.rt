// The fields in which a unit that was read for an order differs from it: a value of JSON.
ghost use Rattle.std.specs.Prelude.{◌≡◌, ◌++◌, ◌+◌, ◌≤◌, IfOk, List, codes, length, map, string_bytes};
ghost use Rattle.std.specs.List.{AllByRecursion};
ghost use Rattle.serde_json.specs.View.{view, items_of, items_view};
ghost use Rattle.dali_bank.specs.Blank.{blank_bank};
ghost use Rattle.dali_bank.specs.Layout.{first_of, length_of, row_of};
ghost use Rattle.dali_bank.specs.Order.{AreUpdates};
ghost use Rattle.dali_bank.specs.Shown.{IsFormShown, part_of};
ghost use Rattle.dali_bank.specs.Spelling.{IsTextByte};
ghost use Rattle.dali_text.specs.BankLines.{IsRowText, number_text as number_told, shown_text as shown_told};
ghost use Rattle.dali_text.specs.Digits.{bytes_digits};
ghost use Rattle.dali_text.specs.declared.bank_lines.Row.TheVariants.{Of};
ghost use Rattle.dali_report.specs.Differences.{AreDifferences, Difference, IsDifference, as_told, differs};
ghost use Rattle.dali_report.specs.Differences.{difference_data, differences_data, held_bank, updated, wanted_bank};

use crate::line::with;
use dali_bank::{BLANK, Field, Order, Shown, read_field};
use dali_read::told_bytes;
use dali_text::ByteDigits;
use serde_json::{Map, Value};
use std::alloc::{AllocError, Global};

// How many locations of a bank may belong to fields.
const BANK_LENGTH: usize = 120;

/// The fields of which a unit has other bytes than the order wants, by rising location, each with how both are shown.
/// These bytes were read for the order, in the blocks of `Places::Order`.
pub(crate) fn differing_fields(
    alloc: Global,
    order: &Order,
    read: &[u8],
) -> Result<Value, AllocError>
    ensures { IfOk result (λ value. (found : List Difference)
        × AreDifferences (held_bank order.now read.now) (wanted_bank order.now) found
        × (view value ≡ differences_data found)) }
{
    let held = bank_told(order.updates(), told_bytes(order, read));
    let wanted = bank_told(order.updates(), &[]);
    let values = differing(alloc, &held, &wanted)?;
    Ok(Value::Array(values))
}

// The bank of a blank unit that has the updates, with the bytes that were read in the place of their own.
fn bank_told(updates: &[(u8, u8)], told: &[u8]) -> [u8; BANK_LENGTH]
    requires { AreUpdates updates.now }
    ensures { result ≡ updated (as_told updates.now told.now) blank_bank }
{
    let mut bank = BLANK;
    for (at, &(location, own)) in updates.iter().enumerate() {
        bank[usize::from(location)] = match told.get(at) {
            Some(&byte) => byte,
            None => own,
        };
    }
    bank
}

// The values of the fields that differ.
fn differing(alloc: Global, held: &[u8], wanted: &[u8]) -> Result<Vec<Value>, AllocError>
    requires held { length held.now ≡ 120 }
    requires wanted { length wanted.now ≡ 120 }
    ensures { IfOk result (λ values. (found : List Difference) × AreDifferences held.now wanted.now found
        × (items_view values.items ≡ items_of (map difference_data found))) }
{
    let mut values = Vec::new(alloc);
    for field in Field::ALL {
        if is_other(held, wanted, field) {
            values.push(difference(alloc, field, held, wanted)?)?;
        }
    }
    Ok(values)
}

// Whether a field has other bytes in one bank than in the other.
fn is_other(held: &[u8], wanted: &[u8], field: Field) -> bool
    requires held { length held.now ≡ 120 }
    requires wanted { length wanted.now ≡ 120 }
    ensures { result ≡ differs held.now wanted.now field }
{
    part(held, field) != part(wanted, field)
}

// The value of a field.
fn difference(alloc: Global, field: Field, held: &[u8], wanted: &[u8]) -> Result<Value, AllocError>
    requires held { length held.now ≡ 120 }
    requires wanted { length wanted.now ≡ 120 }
    ensures { IfOk result (λ value. (one : Difference) × (one.field ≡ field) × IsDifference held.now wanted.now one
        × (view value ≡ difference_data one)) }
{
    let wants = field_text(alloc, wanted, field)?;
    let members = with(Map::new(alloc), alloc, "wants", Value::from(wants))?;
    let has = field_text(alloc, held, field)?;
    let members = with(members, alloc, "has", Value::from(has))?;
    let members = with(
        members,
        alloc,
        "field",
        Value::try_from_str(alloc, field.key())?,
    )?;
    Ok(Value::Object(members))
}

// How a bank shows a field.
fn field_text(alloc: Global, bank: &[u8], field: Field) -> Result<String, AllocError>
    requires { length bank.now ≡ 120 }
    ensures { IfOk result (λ text. IsRowText bank.now (Of field) (string_bytes text)) }
{
    shown_text(alloc, field, part(bank, field), read_field(bank, field))
}

// The bytes of a field.
fn part(bank: &[u8], field: Field) -> &[u8]
    requires { length bank.now ≡ 120 }
    ensures bytes { result.now ≡ part_of field bank.now }
    ensures all { first_of field + length_of field ≤ length bank.now }
{
    &bank[usize::from(field.first())..][..usize::from(field.length())]
}

// The text of a field's bytes that are shown in this way.
#[tactic(auto, using(crate::proofs::DifferenceLemmas::plain_shown))]
fn shown_text(alloc: Global, field: Field, bytes: &[u8], shown: Shown) -> Result<String, AllocError>
    requires { IsFormShown (row_of field).form (length_of field) bytes.now shown }
    ensures { IfOk result (λ text. string_bytes text ≡ shown_told field bytes.now shown) }
{
    match shown {
        Shown::Absent => String::from_str(alloc, "absent"),
        Shown::Unknown => String::from_str(alloc, "unknown"),
        Shown::Number(number) => number_text(alloc, field, number),
        Shown::Hex => digits_text(alloc, "", bytes),
        Shown::Text(count) => plain_text(alloc, &bytes[..usize::from(count)]),
        Shown::Raw => digits_text(alloc, "raw ", bytes),
    }
}

// The text of a field's number.
#[tactic(auto, using(dali_text::proofs::BankLinesLemmas::fourteen_padded))]
fn number_text(alloc: Global, field: Field, number: u64) -> Result<String, AllocError>
    ensures { IfOk result (λ text. string_bytes text ≡ number_told field number) }
{
    match field {
        Field::Gtin => format!(in alloc; "{number:014}"),
        _ => format!(in alloc; "{number}"),
    }
}

// A word, and the digits of each byte.
fn digits_text(alloc: Global, word: &str, bytes: &[u8]) -> Result<String, AllocError>
    ensures { IfOk result (λ text. string_bytes text ≡ word.now ++ bytes_digits bytes.now) }
{
    let mut text = String::from_str(alloc, word)?;
    for &byte in bytes {
        let digits = ByteDigits(byte);
        let digits = format!(in alloc; "{digits}")?;
        text.push_str(digits.as_str())?;
    }
    Ok(text)
}

// A text of plain characters.
fn plain_text(alloc: Global, bytes: &[u8]) -> Result<String, AllocError>
    requires { AllByRecursion IsTextByte bytes.now }
    ensures { IfOk result (λ text. string_bytes text ≡ codes "text " ++ bytes.now) }
{
    let mut text = String::from_str(alloc, "text ")?;
    for &byte in bytes {
        text.push(char::from(byte))?;
    }
    Ok(text)
}
