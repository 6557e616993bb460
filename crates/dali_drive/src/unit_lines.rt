// The line of a unit that answers.
ghost use Rattle.std.specs.Prelude.{◌≡◌, ◌∷◌, ◌+◌, ◌*◌, ◌≤◌, ◌++◌, ℕ, List, length};
ghost use Rattle.arrayvec.specs.ArrayVec.{array_vec_len};
ghost use Rattle.dali_bank.specs.declared.field.Field.TheVariants.{Gtin, Identification};
ghost use Rattle.dali_text.specs.BankLines.{IsRowText, fourteen_digits};
ghost use Rattle.dali_text.specs.declared.bank_lines.Row.TheVariants.{Of};
ghost use Rattle.dali_text.specs.Digits.{bytes_digits};
ghost use Rattle.dali_drive.specs.SurveyLines.{HasUnitLine, IsUnitLine, bank_with, last_head, last_line};

use crate::lines::{Line, push_text};
use crate::survey_lines::{begin_unit, push_digits};
use arrayvec::ArrayVec;
use dali_bank::{Field, Shown, read_field};
use dali_trace::decimal_of;

// How many locations there are up to the end of the identification number.
const KNOWN: usize = 17;

/// The line of a unit of which these bytes were read: its last location, and if more was read the texts of its GTIN and
/// of its identification number.
pub(crate) fn unit_line(unit: u8, bytes: &[u8]) -> Line
    requires { HasUnitLine bytes.now }
    ensures { IsUnitLine unit bytes.now result.items }
{
    match bytes {
        [last] => last_line(unit, *last),
        [last, more @ ..] => identity_line(unit, *last, more),
        [] => Line::new(),
    }
}

// The beginning of the line of a unit whose bank 1 has this last location.
fn begin_last(unit: u8, last: u8) -> Line
    ensures items { result.items ≡ last_head unit last }
    ensures short { array_vec_len result ≤ 16 }
{
    let mut line = begin_unit(unit);
    push_text(&mut line, " last ");
    push_digits(&mut line, last);
    line
}

// The line of a unit whose bank 1 has this last location, and no more is known of it.
fn last_line(unit: u8, last: u8) -> Line
    ensures { result.items ≡ last_line unit last }
{
    let mut line = begin_last(unit, last);
    push_text(&mut line, "\n");
    line
}

// The line of a unit whose bank 1 has this last location, and these bytes from 03h to 10h.
fn identity_line(unit: u8, last: u8, more: &[u8]) -> Line
    requires { length more.now ≡ 14 }
    ensures { IsUnitLine unit (last ∷ more.now) result.items }
{
    let bank = known_bank(last, more);
    let mut line = begin_last(unit, last);
    push_text(&mut line, " gtin ");
    push_gtin(&mut line, &bank);
    push_text(&mut line, " identification ");
    push_identification(&mut line, &bank);
    push_text(&mut line, "\n");
    line
}

// A bank with this last location, and these bytes from 03h on.
fn known_bank(last: u8, more: &[u8]) -> ArrayVec<u8, KNOWN>
    requires { length more.now ≡ 14 }
    ensures { result.items ≡ bank_with last more.now }
{
    let mut bank = ArrayVec::new();
    bank.push(last);
    bank.push(0xFF);
    bank.push(0xFF);
    let _fits = bank.try_extend_from_slice(more);
    bank
}

// Puts what a bank tells of the GTIN at the end of a line, which has room for it.
fn push_gtin(line: &mut Line, bank: &[u8])
    requires room { array_vec_len line.old + 20 ≤ 80 }
    requires long { length bank.now ≡ 17 }
    ensures text { (text : List ℕ) × IsRowText bank.now (Of Gtin) text × (line.new.items ≡ line.old.items ++ text) }
    ensures short { array_vec_len line.new ≤ array_vec_len line.old + 20 }
{
    match read_field(bank, Field::Gtin) {
        Shown::Unknown => push_text(line, "unknown"),
        Shown::Number(number) => push_fourteen(line, number),
        _ => {
            push_text(line, "raw ");
            push_bytes(line, &bank[0x03..][..6]);
        }
    }
}

// Puts what a bank tells of the identification number at the end of a line, which has room for it.
fn push_identification(line: &mut Line, bank: &[u8])
    requires room { array_vec_len line.old + 20 ≤ 80 }
    requires long { length bank.now ≡ 17 }
    ensures text { (text : List ℕ) × IsRowText bank.now (Of Identification) text
        × (line.new.items ≡ line.old.items ++ text) }
    ensures short { array_vec_len line.new ≤ array_vec_len line.old + 20 }
{
    match read_field(bank, Field::Identification) {
        Shown::Unknown => push_text(line, "unknown"),
        _ => push_bytes(line, &bank[0x09..][..8]),
    }
}

// Puts a number with zeros before it, up to fourteen digits, at the end of a line, which has room for them.
fn push_fourteen(line: &mut Line, number: u64)
    requires { array_vec_len line.old + 20 ≤ 80 }
    ensures items { line.new.items ≡ line.old.items ++ fourteen_digits number }
    ensures short { array_vec_len line.new ≤ array_vec_len line.old + 20 }
{
    let digits = decimal_of(number);
    let zeros = [b'0'; 14];
    push_slice(line, &zeros[digits.len().min(14)..]);
    push_text(line, digits.as_str());
}

// Puts bytes at the end of a line, which has room for them.
fn push_slice(line: &mut Line, bytes: &[u8])
    requires { array_vec_len line.old + length bytes.now ≤ 80 }
    ensures items { line.new.items ≡ line.old.items ++ bytes.now }
    ensures len { array_vec_len line.new ≡ array_vec_len line.old + length bytes.now }
{
    let _fits = line.try_extend_from_slice(bytes);
}

// Puts the two hexadecimal digits of each byte at the end of a line, which has room for them.
fn push_bytes(line: &mut Line, bytes: &[u8])
    requires { array_vec_len line.old + 2 * length bytes.now ≤ 80 }
    ensures items { line.new.items ≡ line.old.items ++ bytes_digits bytes.now }
    ensures len { array_vec_len line.new ≡ array_vec_len line.old + 2 * length bytes.now }
{
    for &byte in bytes {
        push_digits(line, byte);
    }
}
