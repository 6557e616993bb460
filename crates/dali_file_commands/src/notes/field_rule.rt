use crate::fields::{Form, unit_of};
use dali_bank::Field;
use std::fmt;

/// The values that a field takes.
#[derive(Clone, Copy)]
pub(crate) struct FieldRule(pub Field);

impl fmt::Display for FieldRule {
    fn fmt<W: fmt::Write>(&self, f: &mut fmt::Formatter<W>) -> fmt::Result {
        match Form::of(self.0) {
            Form::Gtin => {
                f.write_str("a string of 8, 12, 13 or 14 digits, the last its check digit, or null")
            }
            Form::Identification => f.write_str("a string of 16 hexadecimal digits, or null"),
            Form::Number { least, most } => {
                let units = units(self.0);
                write!(f, "a whole number{units} from {least} to {most}, or null")
            }
            Form::Text { most } => write!(
                f,
                "a string of 1 to {most} characters, each from space to ~ in ASCII, or null"
            ),
        }
    }
}

// The unit of a field's number, in words.
fn units(field: Field) -> &'static str {
    match unit_of(field) {
        "\"W\"" => " of watts",
        "\"V\"" => " of volts",
        "\"lm\"" => " of lumens",
        "\"K\"" => " of kelvins",
        _ => "",
    }
}
