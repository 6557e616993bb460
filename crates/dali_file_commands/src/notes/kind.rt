use dali_input::TEXT_LIMIT;
use dali_journal::{Journal, JournalFault};
use std::alloc::Global;
use std::fmt;

// At least as many bytes as the header of a journal and its first record have.
const FRONT: usize = 256;

/// The kind of file that an input looks like that was meant for another command, by its first 4096 bytes (profile).
#[derive(Clone, Copy, PartialEq, Eq)]
pub enum Kind {
    /// It begins as an array of JSON.
    Array,
    /// It begins as an object of JSON.
    Object,
    /// It begins with a header or a record of a journal.
    Journal,
    /// It has no more bytes than those, and nothing but hexadecimal digits and blanks.
    Bank,
    /// Its first line has cells with commas, semicolons or tabs between them.
    Table,
}

impl Kind {
    /// The kind that an input looks like, if it looks like any of these.
    pub fn of(alloc: Global, input: &[u8]) -> Option<Kind> {
        if is_journal(alloc, input) {
            return Some(Kind::Journal);
        }
        let front = &input[..input.len().min(TEXT_LIMIT as usize)];
        if front.len() == input.len() && is_bank(front) {
            return Some(Kind::Bank);
        }
        let (_, text) = front.split_at(blanks_of(front).min(front.len()));
        match text {
            [b'[', ..] => Some(Kind::Array),
            [b'{', ..] => Some(Kind::Object),
            _ if is_table(text) => Some(Kind::Table),
            _ => None,
        }
    }
}

impl fmt::Display for Kind {
    fn fmt<W: fmt::Write>(&self, f: &mut fmt::Formatter<W>) -> fmt::Result {
        f.write_str(match self {
            Kind::Array => "an array of JSON, as orders are, which `check` takes",
            Kind::Object => "an object of JSON, as a scenario is, which `run` takes",
            Kind::Journal => "a journal, which `journal` takes",
            Kind::Bank => "hexadecimal digits, as the text of a bank, which `show` takes",
            Kind::Table => "a table, as CSV",
        })
    }
}

/// How many blanks an input begins with.
pub(crate) fn blanks_of(input: &[u8]) -> usize {
    input
        .iter()
        .position(|byte| !is_blank(*byte))
        .unwrap_or(input.len())
}

// Whether the byte is a space, a tab or the end of a line.
pub(crate) fn is_blank(byte: u8) -> bool {
    matches!(byte, b' ' | b'\t' | b'\n' | b'\r')
}

// Whether an input begins with a header or a whole record of a journal.
fn is_journal(alloc: Global, input: &[u8]) -> bool {
    let front = &input[..input.len().min(FRONT)];
    match Journal::load(alloc, 1, front) {
        Ok((_, counted, _)) => counted > 0,
        Err(
            JournalFault::Record(place)
            | JournalFault::Sequence(place)
            | JournalFault::Repeated(place)
            | JournalFault::Full(place),
        ) => place > 0,
        Err(JournalFault::Limit | JournalFault::NoMemory | JournalFault::Header) => false,
    }
}

// Whether an input has hexadecimal digits, at least one, and else nothing but blanks.
fn is_bank(input: &[u8]) -> bool {
    let is_text = input
        .iter()
        .all(|byte| byte.is_ascii_hexdigit() || is_blank(*byte));
    is_text && blanks_of(input) < input.len()
}

// Whether the first line has cells as a table has them, and nothing that JSON or a comment begins with.
fn is_table(text: &[u8]) -> bool {
    let len = text
        .iter()
        .position(|byte| *byte == b'\n')
        .unwrap_or(text.len());
    let line = &text[..len];
    let is_other = line.iter().any(|byte| matches!(
        byte,
        b'[' | b']' | b'{' | b'}' | b':' | b'/' | b'#'
    ));
    !is_other && line.iter().any(|byte| matches!(byte, b',' | b';' | b'\t'))
}
