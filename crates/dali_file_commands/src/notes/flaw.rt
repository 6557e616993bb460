use crate::fields::Form;
use dali_bank::Field;
use dali_text::Letter;
use std::fmt;

/// The part of a text that a field doesn't take, if the text shows it: `; it has ...`, or nothing.
#[derive(Clone, Copy)]
pub(crate) struct Flaw<'a> {
    pub field: Field,
    pub text: &'a str,
}

impl fmt::Display for Flaw<'_> {
    fn fmt<W: fmt::Write>(&self, f: &mut fmt::Formatter<W>) -> fmt::Result {
        match Form::of(self.field) {
            Form::Gtin => tell_gtin(f, self.text),
            Form::Identification => tell_digits(f, self.text),
            Form::Number { .. } => Ok(()),
            Form::Text { most } => tell_text(f, self.text, most as usize),
        }
    }
}

// Which characters a text may have.
#[derive(Clone, Copy)]
enum Letters {
    Digits,
    HexDigits,
    Plain,
}

impl Letters {
    fn has(self, letter: char) -> bool {
        match self {
            Letters::Digits => letter.is_ascii_digit(),
            Letters::HexDigits => letter.is_ascii_hexdigit(),
            Letters::Plain => (' '..='~').contains(&letter),
        }
    }
}

// Tells the first character that isn't of these, and whether there is one.
fn tell_letter<W: fmt::Write>(
    f: &mut fmt::Formatter<W>,
    text: &str,
    letters: Letters,
) -> Result<bool, fmt::Error> {
    for (count, letter) in text.chars().enumerate() {
        if !letters.has(letter) {
            let (number, letter) = (count.saturating_add(1), Letter(letter));
            write!(f, "; its character {number} is \"{letter}\"")?;
            return Ok(true);
        }
    }
    Ok(false)
}

// Tells what keeps a text from being a GTIN: a character, its length or its check digit.
fn tell_gtin<W: fmt::Write>(f: &mut fmt::Formatter<W>, text: &str) -> fmt::Result {
    if tell_letter(f, text, Letters::Digits)? {
        return Ok(());
    }
    let count = text.len();
    match text.as_bytes() {
        [front @ .., last] if matches!(count, 8 | 12 | 13 | 14) => {
            let (last, right) = (last.wrapping_sub(b'0'), check_digit(front));
            write!(f, "; its check digit is {last}, and would be {right}")
        }
        _ if matches!(count, 1..=13) => write!(
            f,
            "; it has {count} digits, and a spreadsheet may have dropped leading zeros"
        ),
        _ => write!(f, "; it has {count} digits"),
    }
}

// The check digit after these digits (GS1): from the right each digit counts three times and once in turn, and the
// check digit makes of the sum a multiple of ten.
fn check_digit(front: &[u8]) -> u32 {
    let mut sum = 0u32;
    let mut is_thrice = true;
    for byte in front.iter().rev() {
        let digit = u32::from(byte.wrapping_sub(b'0'));
        sum = sum.wrapping_add(if is_thrice {
            digit.wrapping_mul(3)
        } else {
            digit
        });
        is_thrice = !is_thrice;
    }
    (10 - sum % 10) % 10
}

// Tells what keeps a text from being sixteen hexadecimal digits: a character or its length.
fn tell_digits<W: fmt::Write>(f: &mut fmt::Formatter<W>, text: &str) -> fmt::Result {
    if tell_letter(f, text, Letters::HexDigits)? {
        return Ok(());
    }
    let count = text.len();
    write!(f, "; it has {count} digits")
}

// Tells what keeps a text from being one of this many characters: a character, its length, or both.
fn tell_text<W: fmt::Write>(f: &mut fmt::Formatter<W>, text: &str, most: usize) -> fmt::Result {
    tell_letter(f, text, Letters::Plain)?;
    let count = text.chars().count();
    if count <= most {
        return Ok(());
    }
    let excess = count - most;
    write!(f, "; it has {count} characters, {excess} too many")
}
