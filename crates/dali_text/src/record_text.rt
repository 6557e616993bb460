use dali_journal::Record;
use std::fmt;

/// A record of the journal as a program tells it, without a line feed (profile): its letter, and
/// then for `Began` (B) the order's number, its unit, its moment and the number of its updates, for
/// `Opened` (O) and `Closed` (C) the unit, for `Ended` (E) the code's number and name.
#[derive(Clone, Copy)]
pub struct RecordText<'a>(pub &'a Record);

impl fmt::Display for RecordText<'_> {
    ghost use Rattle.std.specs.Prelude.{Some};
    ghost use Rattle.dali_text.specs.RecordText.{record_text};

    ghost output = { λ text. Some (record_text text.0.now) };

    fn fmt<W: fmt::Write>(&self, f: &mut fmt::Formatter<W>) -> fmt::Result {
        match self.0 {
            Record::Began(order, moment) => {
                let id = order.id();
                let unit = order.unit();
                let count = order.updates().len();
                write!(f, "B order {id} unit {unit} at {moment} bytes {count}")
            }
            Record::Opened(unit) => write!(f, "O unit {unit}"),
            Record::Ended(code) => {
                let number = code.number();
                write!(f, "E {number} {code}")
            }
            Record::Closed(unit) => write!(f, "C unit {unit}"),
        }
    }
}
