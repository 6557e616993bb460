use dali_text::Escaped;
use std::fmt;

/// A key as it is printed: its first 40 characters, between quotes if it is empty or has a space, so that it is seen.
#[derive(Clone, Copy)]
pub(crate) struct ToldKey<'a>(pub &'a str);

impl fmt::Display for ToldKey<'_> {
    fn fmt<W: fmt::Write>(&self, f: &mut fmt::Formatter<W>) -> fmt::Result {
        let key = Escaped::Cut(self.0);
        if self.0.is_empty() || self.0.as_bytes().contains(&b' ') {
            write!(f, "\"{key}\"")
        } else {
            write!(f, "{key}")
        }
    }
}
