ghost use Rattle.std.specs.Prelude.{chars};
ghost use Rattle.std.specs.Fmt.{WritesOnOk};
ghost use Rattle.dali_text.specs.Escaped.{shown_front, shown_text};

use std::fmt;

// The most characters that are printed of a value.
const MOST: usize = 40;

/// A character as a terminal may show it: one that isn't from 20h to 7Eh by its number.
#[derive(Clone, Copy)]
pub struct Letter(pub char);

impl fmt::Display for Letter {
    ghost use Rattle.std.specs.Prelude.{Some};
    ghost use Rattle.dali_text.specs.Escaped.{shown_letter};

    ghost output = { λ letter. Some (shown_letter letter.0) };

    fn fmt<W: fmt::Write>(&self, f: &mut fmt::Formatter<W>) -> fmt::Result {
        let letter = self.0;
        if (' '..='~').contains(&letter) {
            f.write_char(letter)
        } else {
            let number = letter as u32;
            write!(f, "\\u{{{number:x}}}")
        }
    }
}

/// A text as a terminal may show it: each character that isn't from 20h to 7Eh by its number.
#[derive(Clone, Copy)]
pub enum Escaped<'a> {
    /// All of it.
    Whole(&'a str),
    /// Its first 40 characters; if there are more, three dots stand for them.
    Cut(&'a str),
}

impl fmt::Display for Escaped<'_> {
    ghost use Rattle.std.specs.Prelude.{Some};
    ghost use Rattle.dali_text.specs.Escaped.{escaped_text};

    ghost output = { λ escaped. Some (escaped_text escaped) };

    fn fmt<W: fmt::Write>(&self, f: &mut fmt::Formatter<W>) -> fmt::Result {
        match *self {
            Escaped::Whole(text) => write_whole(f, text),
            Escaped::Cut(text) => write_front(f, text),
        }
    }
}

fn write_whole<W: fmt::Write>(f: &mut fmt::Formatter<W>, text: &str) -> fmt::Result
    ensures { WritesOnOk W.write_str_gives f.old result (shown_text text.now) f.new }
{
    for letter in text.chars() {
        let letter = Letter(letter);
        write!(f, "{letter}")?;
    }
    Ok(())
}

fn write_front<W: fmt::Write>(f: &mut fmt::Formatter<W>, text: &str) -> fmt::Result
    ensures { WritesOnOk W.write_str_gives f.old result (shown_front 40 (chars text.now)) f.new }
{
    for letter in text.chars().take(MOST) {
        let letter = Letter(letter);
        write!(f, "{letter}")?;
    }
    if text.chars().count() > MOST {
        f.write_str("...")
    } else {
        Ok(())
    }
}
