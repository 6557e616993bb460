use dali_input::Shallow;
use dali_text::Escaped;
use std::fmt;

/// The value at a place of JSON, in a few words.
#[derive(Clone, Copy)]
pub struct Described<'a>(pub Option<Shallow<'a>>);

impl fmt::Display for Described<'_> {
    fn fmt<W: fmt::Write>(&self, f: &mut fmt::Formatter<W>) -> fmt::Result {
        match self.0 {
            None => f.write_str("missing"),
            Some(Shallow::Null) => f.write_str("null"),
            Some(Shallow::Bool(true)) => f.write_str("true"),
            Some(Shallow::Bool(false)) => f.write_str("false"),
            Some(Shallow::Number(number)) => write!(f, "the number {number}"),
            Some(Shallow::Text(text)) => {
                let text = Escaped::Cut(text);
                write!(f, "the text \"{text}\"")
            }
            Some(Shallow::Array) => f.write_str("an array"),
            Some(Shallow::Object) => f.write_str("an object"),
        }
    }
}
