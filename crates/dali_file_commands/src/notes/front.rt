use std::fmt;

/// The beginning of each line of a note.
#[derive(Clone, Copy)]
pub enum Front<'a> {
    /// Nothing: its words tell the place.
    Nothing,
    /// The kind of a thing, as `unit`, and its number.
    Numbered(&'a str, u64),
    /// The kind of an order, as `item` or `event`, its place, counted from 1, and its number.
    Order(&'a str, u64, u64),
}

impl fmt::Display for Front<'_> {
    ghost use Rattle.std.specs.Prelude.{Some};
    ghost use Rattle.dali_file_commands.specs.NoteLines.{front_text};

    ghost output = { λ front. Some (front_text front) };

    fn fmt<W: fmt::Write>(&self, f: &mut fmt::Formatter<W>) -> fmt::Result {
        match *self {
            Front::Nothing => Ok(()),
            Front::Numbered(what, number) => write!(f, "{what} {number}: "),
            Front::Order(what, number, order) => write!(f, "{what} {number} order {order}: "),
        }
    }
}
