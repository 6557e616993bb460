ghost use Rattle.std.specs.Prelude.{length};
ghost use Rattle.dali_bank.specs.Layout.{SuitsForm};
ghost use Rattle.dali_bank.specs.Shown.{IsFormShown, IsShown};

use crate::field::{Field, Form, Row};
use crate::gtin::is_gtin_number;
use crate::spelling::{are_all, big_endian_number};
use crate::text::text_length;

/// How the bytes of a field in a memory bank are shown (profile).
#[derive(Clone, Copy, PartialEq, Eq)]
pub enum Shown {
    /// The bank ends before the field's last byte.
    Absent,
    /// FFh in every byte.
    Unknown,
    /// A number in the field's range, or the number of a GTIN.
    Number(u64),
    /// An identification number: its eight bytes.
    Hex,
    /// A text of this many characters, 1 to 60, filled up with zeros.
    Text(u8),
    /// Other bytes.
    Raw,
}

/// How a field of the bank is shown; the bank's first byte is that of location 00h.
///
/// Absent if the bank ends before the field's last byte, else Unknown if all bytes of the field are FFh, else the value
/// for which the bytes stand (the eight bytes of an identification number always stand for it), else Raw. A GTIN is
/// Number if the stored number has at most 14 decimal digits and they are a GTIN with leading zeros to 14.
pub fn read_field(bank: &[u8], field: Field) -> Shown
    ensures { IsShown bank.now field result }
{
    let Row {
        first,
        length,
        form,
    } = field.row();
    let (first, length) = (first as usize, length as usize);
    if bank.len() < first + length {
        return Shown::Absent;
    }
    bytes_shown(form, &bank[first..][..length])
}

// How the bytes of a field of this form are shown.
fn bytes_shown(form: Form, bytes: &[u8]) -> Shown
    requires { SuitsForm form (length bytes.now) }
    ensures { IsFormShown form (length bytes.now) bytes.now result }
{
    if are_all(bytes, 0xff) {
        return Shown::Unknown;
    }
    match form {
        Form::Gtin => {
            let number = big_endian_number(bytes);
            if is_gtin_number(number) {
                Shown::Number(number)
            } else {
                Shown::Raw
            }
        }
        Form::Identification => Shown::Hex,
        Form::Number { least, most } => {
            let number = big_endian_number(bytes);
            if least <= number && number <= most {
                Shown::Number(number)
            } else {
                Shown::Raw
            }
        }
        Form::Text => match text_length(bytes) {
            Some(length) => Shown::Text(length),
            None => Shown::Raw,
        },
    }
}
