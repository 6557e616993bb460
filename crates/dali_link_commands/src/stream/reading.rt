// One line, read from its source.
ghost use Rattle.std.specs.Prelude.{List, ℕ};
ghost use Rattle.dali_drive.specs.Lines.{IsInLine};
ghost use Rattle.dali_link_commands.specs.LineBuffers.{Holds};
ghost use Rattle.dali_link_commands.specs.LineReads.{ReadsLine};

use crate::stream::line_buffer::LineBuffer;
use dali_drive::{Got, Source};

// How the reading of a line ended.
#[derive(Clone, Copy)]
pub(crate) enum LineEnd {
    // At its line feed.
    LineFeed,
    // At the end of the stream.
    Stream,
    // Amid the line, since the source failed.
    Broken,
}

// Reads up to the next line feed, or to the end of the stream. A line without end is broken off after more bytes than
// any program lives to see.
pub(crate) fn read_line<R: Source>(source: &mut R, buffer: &mut LineBuffer) -> LineEnd
    ensures { (line : List ℕ) × IsInLine line × Holds buffer.new line
        × ReadsLine (R.left source.old) (R.left source.new) (R.failed source.new) line result }
{
    buffer.begin();
    for _ in 0..u64::MAX {
        match source.take_byte() {
            Got::Byte(b'\n') => return LineEnd::LineFeed,
            Got::Byte(byte) => buffer.push(byte),
            Got::End => return LineEnd::Stream,
            Got::Failed => return LineEnd::Broken,
        }
    }
    LineEnd::Broken
}
