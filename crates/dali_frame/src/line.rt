ghost use Rattle.std.specs.Prelude.{◌≡◌, ℕ, ◌<◌, ◌≤◌, ◌↔◌, length, take, true, Option, IfOk, MatchResult};
ghost use Rattle.std.specs.Char.{digit_value};
ghost use Rattle.std.specs.Fmt.{digit_glyph};
ghost use Rattle.dali_frame.specs.Frame.{frame_word, IsProper};
ghost use Rattle.dali_frame.specs.Hex.{SpellsHexNumber, byte_digits as digits_of};
ghost use Rattle.dali_frame.specs.Line.{word_line, SpellsAnswer, IsLineFault};

use crate::{Frame, LineFault, word_of};

/// The line of a proper frame: the four upper-case hexadecimal digits of its word, and a line feed
/// (profile).
pub fn line_of(frame: &Frame) -> [u8; 5]
    requires { IsProper frame.now }
    ensures line { result ≡ word_line (frame_word frame.now) }
    ensures spells { SpellsHexNumber (take 4 result) (frame_word frame.now) }
{
    let [first, second] = word_of(frame).to_be_bytes();
    let ([a, b], [c, d]) = (byte_digits(first), byte_digits(second));
    [a, b, c, d, b'\n']
}

/// The two upper-case hexadecimal digits of a byte (profile).
pub fn byte_digits(byte: u8) -> [u8; 2]
    ensures { result ≡ digits_of byte }
{
    [hex_digit(byte / 16), hex_digit(byte % 16)]
}

/// The answer that a line without its line feed spells (profile): `--` is `None`, no answer, and
/// two hexadecimal digits in either case are the byte of a backward frame.
///
/// `Length` (1) if the line hasn't two bytes, and `Digit` (2) if its two bytes are neither.
pub fn answer_of(line: &[u8]) -> Result<Option<u8>, LineFault>
    ensures ok { IfOk result (λ answer. SpellsAnswer line.now answer) }
    ensures only { (answer : Option ℕ) → SpellsAnswer line.now answer → result ≡ Ok answer }
    ensures length { (result ≡ Err LineFault.Length) ↔ IsLineFault LineFault.Length line.now }
    ensures digit { (result ≡ Err LineFault.Digit) ↔ IsLineFault LineFault.Digit line.now }
{
    match *line {
        [b'-', b'-'] => Ok(None),
        [high, low] => Ok(Some(16 * hex_value(high)? + hex_value(low)?)),
        _ => Err(LineFault::Length),
    }
}

/// The upper-case hexadecimal digit of a number below 16.
fn hex_digit(value: u8) -> u8
    requires { value < 16 }
    ensures { result ≡ digit_glyph true value }
{
    if value < 10 {
        b'0' + value
    } else {
        b'A' + (value - 10)
    }
}

/// The value of a hexadecimal digit in either case, or `Digit`.
fn hex_value(digit: u8) -> Result<u8, LineFault>
    ensures { MatchResult result (λ value. (value ≡ digit_value digit) × (value < 16))
        (λ fault. (fault ≡ LineFault.Digit) × (16 ≤ digit_value digit)) }
{
    match char::from(digit).to_digit(16) {
        Some(value) => Ok(value as u8),
        None => Err(LineFault::Digit),
    }
}
