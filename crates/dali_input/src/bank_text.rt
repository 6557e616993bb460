ghost use Rattle.std.specs.Prelude.{◌≡◌, ◌+◌, ◌*◌, ◌<◌, ◌≤◌, ◌++◌, IfOk, IfErr, drop, length, take};
ghost use Rattle.arrayvec.specs.ArrayVec.{array_vec_len};
ghost use Rattle.dali_input.specs.BankText.{IsBankIn, IsTextFault, byte_digits, digits_in, is_blank as is_blank_byte};
ghost use Rattle.dali_input.specs.BankText.{row_text, rows_text};

use crate::fault::InputFault;
use arrayvec::ArrayVec;
use hex::FromHexError;
use std::alloc::Global;

/// The most bytes of a bank's text (profile).
pub const TEXT_LIMIT: u32 = 4096;

// The most bytes of a bank.
const BANK_LIMIT: usize = 255;

/// The most bytes of the text that is written of a bank: two digits for each byte, and one after them.
pub const MOST_BANK_TEXT: usize = 765;

// The most bytes of a row.
const ROW_SIZE: usize = 16;

// The digits, by their values.
const DIGITS: &[u8; 16] = b"0123456789ABCDEF";

/// The bytes of the memory bank that a text spells: two hexadecimal digits in either case for each,
/// apart from spaces, tabs, line feeds and carriage returns anywhere (profile).
///
/// InputFault 13 TooBig if the text has over 4096 bytes, 14 Hex if it spells no bytes, 13 TooBig if they are over 255,
/// 20 Memory if there is no memory.
pub fn bank_of(alloc: Global, input: Vec<u8>) -> Result<Vec<u8>, InputFault>
    ensures ok { IfOk result (λ bank. IsBankIn input.items bank.items) }
    ensures err { IfErr result (IsTextFault input.items) }
{
    if input.len() > TEXT_LIMIT as usize {
        return Err(InputFault::TooBig);
    }
    let bank = match hex::decode(alloc, without_blanks(input)) {
        Ok(bank) => bank,
        Err(FromHexError::OutOfMemory) => return Err(InputFault::Memory),
        Err(_) => return Err(InputFault::Hex),
    };
    if bank.len() > BANK_LIMIT {
        return Err(InputFault::TooBig);
    }
    Ok(bank)
}

// The bytes that are no blanks.
fn without_blanks(mut text: Vec<u8>) -> Vec<u8>
    ensures { result.items ≡ digits_in text.items }
{
    text.retain(|&byte| !is_blank(byte));
    text
}

// Whether the byte only sets digits apart.
fn is_blank(byte: u8) -> bool
    ensures { result ≡ is_blank_byte byte }
{
    matches!(byte, b' ' | b'\t' | b'\n' | b'\r')
}

/// The text of a bank (profile): rows of sixteen bytes, the last one of those that are left. Each byte is two
/// upper-case hexadecimal digits, with a space between bytes of a row and a line feed at its end.
///
/// `bank_of` reads these bytes back from it.
pub fn text_of(bank: &[u8]) -> ArrayVec<u8, MOST_BANK_TEXT>
    requires { length bank.now ≤ 255 }
    ensures rows { result.items ≡ rows_text bank.now }
    ensures read_back { IsBankIn result.items bank.now }
{
    let mut text = ArrayVec::new();
    for number in 0..bank.len().div_ceil(ROW_SIZE) {
        push_row(&mut text, row_from(bank, ROW_SIZE * number));
    }
    text
}

// The row of a bank that begins at this location.
fn row_from(bank: &[u8], first: usize) -> &[u8]
    requires { first ≤ length bank.now }
    ensures { result.now ≡ take 16 (drop first bank.now) }
{
    let rest = &bank[first..];
    &rest[..rest.len().min(ROW_SIZE)]
}

// Puts a row at the end of a text, which has room for it.
fn push_row(text: &mut ArrayVec<u8, MOST_BANK_TEXT>, row: &[u8])
    requires some { 0 < length row.now }
    requires room { array_vec_len text.old + 3 * length row.now ≤ 765 }
    ensures items { text.new.items ≡ text.old.items ++ row_text row.now }
    ensures len { array_vec_len text.new ≡ array_vec_len text.old + 3 * length row.now }
{
    push_byte(text, row[0]);
    for &byte in &row[1..] {
        text.push(b' ');
        push_byte(text, byte);
    }
    text.push(b'\n');
}

// Puts the digits of a byte at the end of a text, which has room for them.
fn push_byte(text: &mut ArrayVec<u8, MOST_BANK_TEXT>, byte: u8)
    requires { array_vec_len text.old + 2 ≤ 765 }
    ensures items { text.new.items ≡ text.old.items ++ byte_digits byte }
    ensures len { array_vec_len text.new ≡ array_vec_len text.old + 2 }
{
    text.push(DIGITS[usize::from(byte / 16)]);
    text.push(DIGITS[usize::from(byte % 16)]);
}
