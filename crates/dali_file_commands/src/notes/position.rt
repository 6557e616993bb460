use std::fmt;

/// A position in an input, by its line and, in that, its column, both counted from 1. A column counts characters: each
/// byte that doesn't go on with one of UTF-8.
#[derive(Clone, Copy)]
pub(crate) struct Position<'a> {
    /// The words in front of it.
    pub front: &'a [u8],
}

impl<'a> Position<'a> {
    /// The position after this many bytes of an input, or its end.
    pub(crate) fn behind(input: &'a [u8], count: usize) -> Position<'a> {
        Position {
            front: &input[..count.min(input.len())],
        }
    }
}

impl fmt::Display for Position<'_> {
    fn fmt<W: fmt::Write>(&self, f: &mut fmt::Formatter<W>) -> fmt::Result {
        let (mut line, mut column) = (1u64, 1u64);
        for &byte in self.front {
            if byte == b'\n' {
                line = line.saturating_add(1);
                column = 1;
            } else if byte & 0xC0 != 0x80 {
                column = column.saturating_add(1);
            }
        }
        write!(f, "line {line} column {column}")
    }
}
