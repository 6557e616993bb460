// The lines that are written and read while a writer is driven, and the pieces of those that tell of units.
ghost use Rattle.std.specs.Prelude.{◌≡◌, ◌||◌, ◌+◌, ◌≤◌, ◌++◌, [], IfOk, IfErr, length, decimal};
ghost use Rattle.std.specs.Io.BufRead.{strip_last};
ghost use Rattle.arrayvec.specs.ArrayVec.{array_vec_len};
ghost use Rattle.dali_frame.specs.Line.{SpellsAnswer, IsLineFault};
ghost use Rattle.dali_drive.specs.Lines.{TakesLine, TakesText};
ghost use Rattle.dali_trace.specs.Replies.{reply_line};
ghost use Rattle.dali_drive.specs.Driven.{is_link_failure};

use crate::streams::{Got, Source};
use arrayvec::ArrayVec;
use dali_frame::{LineFault, answer_of};
use dali_trace::{DriveFault, Reply, decimal_of};

// The most bytes that are read of an answer's line before its line feed: it has at most one less.
const MOST_ANSWER: usize = 9;

// The bytes that were read of an answer's line, without its line feed.
pub type AnswerText = ArrayVec<u8, MOST_ANSWER>;

// No line that is written has more bytes: a number has at most twenty digits.
const MOST_LINE: usize = 80;

/// A line that is written, of at most 80 bytes.
pub type Line = ArrayVec<u8, MOST_LINE>;

// The answer on a line, which may end in a carriage return.
fn answer_on(line: &[u8]) -> Result<Option<u8>, LineFault>
    ensures ok { IfOk result (λ answer. SpellsAnswer (strip_last 13 line.now) answer) }
    ensures err { IfErr result (λ fault. IsLineFault fault (strip_last 13 line.now)) }
{
    match line {
        [text @ .., b'\r'] => answer_of(text),
        _ => answer_of(line),
    }
}

// Reads one line, and the answer on it. Of a line that doesn't end nine bytes are read. The text, which has to be
// empty, becomes what was read of the line.
pub(crate) fn read_answer<I: Source>(
    link_in: &mut I,
    text: &mut AnswerText,
) -> Result<Option<u8>, DriveFault>
    requires { text.old.items ≡ [] }
    ensures line { TakesLine (I.left link_in.old) (I.left link_in.new) result }
    ensures text { IfErr result (λ fault. TakesText fault text.new.items (I.left link_in.old) (I.left link_in.new)) }
    ensures failed { I.failed link_in.new ≡ (I.failed link_in.old || is_link_failure result) }
{
    loop {
        match link_in.take_byte() {
            Got::Byte(b'\n') => {
                return match answer_on(text) {
                    Ok(answer) => Ok(answer),
                    Err(fault) => Err(DriveFault::Line(fault)),
                };
            }
            Got::Byte(byte) => {
                text.push(byte);
                if text.is_full() {
                    return Err(DriveFault::TooLong);
                }
            }
            Got::End => return Err(DriveFault::End),
            Got::Failed => return Err(DriveFault::Link),
        }
    }
}

// The line of a reply to the order of this number, or of a saying.
pub(crate) fn reply_line(id: u64, reply: Reply) -> Line
    ensures { result.items ≡ reply_line id reply }
{
    let mut line = Line::new();
    push_text(&mut line, "reply ");
    push_decimal(&mut line, id);
    push_text(&mut line, " ");
    push_text(&mut line, reply.text().as_str());
    push_text(&mut line, "\n");
    line
}

/// Puts a text at the end of a line, which has room for it.
pub fn push_text(line: &mut Line, text: &str)
    requires { array_vec_len line.old + length text.now ≤ 80 }
    ensures items { line.new.items ≡ line.old.items ++ text.now }
    ensures len { array_vec_len line.new ≡ array_vec_len line.old + length text.now }
{
    let _fits = line.try_extend_from_slice(text.as_bytes());
}

/// Puts a number's decimal digits at the end of a line, which has room for them.
pub fn push_decimal(line: &mut Line, number: u64)
    requires { array_vec_len line.old + 20 ≤ 80 }
    ensures items { line.new.items ≡ line.old.items ++ decimal number }
    ensures len { array_vec_len line.new ≡ array_vec_len line.old + length (decimal number) }
    ensures short { length (decimal number) ≤ 20 }
{
    push_text(line, decimal_of(number).as_str());
}
