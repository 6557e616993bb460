ghost use Rattle.std.specs.Prelude.{◌≡◌, ◌≤◌, ◌<◌, ◌-◌, ◌^◌, ◌++◌, length, IsTrue, IsNone, IfSome, IfOk, IfErr};
ghost use Rattle.std.specs.Prelude.{replicate, ◌↔◌};
ghost use Rattle.dali_bank.specs.Faults.{IsFormFault, IsValueFault};
ghost use Rattle.dali_bank.specs.Layout.{SuitsForm};
ghost use Rattle.dali_bank.specs.Numbers.{SpellsNumber, big_endian};
ghost use Rattle.dali_bank.specs.Spelling.{AreFieldBytes, AreFormBytes, HasFormBytes, hex, plain};
ghost use Rattle.dali_bank.specs.declared.field.Form.TheVariants as form;

use crate::fault::BankFault;
use crate::field::{Field, Form, Row};
use crate::gtin::gtin_number;
use crate::text::is_text;
use crate::value::Value;
use arrayvec::ArrayVec;
use hex::FromHex;

/// The most bytes that a field has.
pub(crate) const LONGEST: usize = 60;

/// The bytes of one field.
pub(crate) type FieldBytes = ArrayVec<u8, LONGEST>;

/// The bytes that the field has for a value.
pub(crate) fn field_bytes(field: Field, value: Value<'_>) -> Result<FieldBytes, BankFault>
    ensures ok { IfOk result (λ bytes. AreFieldBytes field (plain value.entry) bytes.items) }
    ensures err { IfErr result (IsValueFault field (plain value.entry)) }
{
    let Row { length, form, .. } = field.row();
    form_bytes(form, length, value)
}

// The bytes for a value in a field of this form and length.
fn form_bytes(form: Form, length: u8, value: Value<'_>) -> Result<FieldBytes, BankFault>
    requires { SuitsForm form length }
    ensures ok { IfOk result (λ bytes. AreFormBytes form length (plain value.entry) bytes.items) }
    ensures err { IfErr result (IsFormFault form length (plain value.entry)) }
{
    match (form, value) {
        (_, Value::Unknown) => Ok(unknown_bytes(length)),
        (Form::Gtin, Value::Digits(text)) => {
            let number = gtin_number(text).ok_or(BankFault::Gtin)?;
            Ok(number_bytes(number, length))
        }
        (Form::Identification, Value::Hex(text)) => {
            identification_bytes(text).ok_or(BankFault::Text)
        }
        (Form::Number { least, most }, Value::Number(number)) => {
            if number < least || number > most {
                return Err(BankFault::Range);
            }
            Ok(number_bytes(number, length))
        }
        (Form::Text, Value::Text(text)) => {
            if !is_text(text.as_bytes(), length) {
                return Err(BankFault::Text);
            }
            Ok(text_bytes(text.as_bytes(), length))
        }
        _ => Err(BankFault::Kind),
    }
}

// The eight bytes that sixteen hexadecimal digits spell, if the text is such.
#[tactic(auto, using(crate::proofs::IdentificationLemmas::decoded))]
fn identification_bytes(text: &str) -> Option<FieldBytes>
    ensures some { IfSome result (λ bytes. AreFormBytes form.Identification 8 (hex text.now) bytes.items) }
    ensures none { IsNone result → ¬ HasFormBytes form.Identification 8 (hex text.now) }
{
    match <[u8; 8]>::from_hex(text) {
        Ok(bytes) => Some(copied(&bytes)),
        Err(_) => None,
    }
}

fn unknown_bytes(length: u8) -> FieldBytes
    requires { length ≤ 60 }
    ensures { result.items ≡ replicate length 0xFF }
{
    let mut bytes = FieldBytes::from([0xff; LONGEST]);
    bytes.truncate(length as usize);
    bytes
}

// The last bytes of the number, the most significant one first.
fn number_bytes(number: u64, length: u8) -> FieldBytes
    requires room { length ≤ 8 }
    requires fits { number < 256 ^ length }
    ensures { SpellsNumber length number result.items }
{
    copied(&number.to_be_bytes()[8 - length as usize..])
}

// The text, filled up with zeros.
fn text_bytes(text: &[u8], size: u8) -> FieldBytes
    requires room { size ≤ 60 }
    requires fits { length text.now ≤ size }
    ensures { result.items ≡ text.now ++ replicate (size - length text.now) 0 }
{
    let mut filled = [0; LONGEST];
    filled[..text.len()].copy_from_slice(text);
    let mut bytes = FieldBytes::from(filled);
    bytes.truncate(size as usize);
    bytes
}

// The bytes, as those of a field.
fn copied(bytes: &[u8]) -> FieldBytes
    requires { length bytes.now ≤ 60 }
    ensures { result.items ≡ bytes.now }
{
    FieldBytes::try_from(bytes).unwrap()
}

/// The number that the bytes spell, the most significant one first.
pub(crate) fn big_endian_number(bytes: &[u8]) -> u64
    requires { length bytes.now ≤ 8 }
    ensures { result ≡ big_endian bytes.now }
{
    let mut number = 0;
    for &byte in bytes {
        number = number * 256 + u64::from(byte);
    }
    number
}

/// Whether the bytes are one byte again and again.
pub(crate) fn are_all(bytes: &[u8], byte: u8) -> bool
    ensures { IsTrue result ↔ (bytes.now ≡ replicate (length bytes.now) byte) }
{
    bytes.iter().all(|&other| other == byte)
}
