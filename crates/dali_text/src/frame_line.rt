ghost use Rattle.std.specs.Prelude.{OnOk};
ghost use Rattle.dali_frame.specs.Frame.{Spells};
ghost use Rattle.dali_frame.specs.declared.forward.Frame.{Frame};
ghost use Rattle.dali_text.specs.FrameLine.{command_line, frame_line, special_line};
ghost use Rattle.dali_text.specs.Output.{TellsFailure, Takes};

use crate::digits::{ByteDigits, WordDigits};
use crate::output::{Output, OutputFailed};
use dali_frame::{Frame, frame_of};
use std::io::Write;

/// Writes a word and the forward frame that it spells (profile): the word, the standard's name of
/// the frame, and its operand or its short address.
pub fn write_frame<W: Write>(output: &mut Output<W>, word: u16) -> Result<(), OutputFailed>
    ensures text { OnOk result ((frame : Frame) × Spells frame word
        × Takes W.contents output.old output.new (frame_line word frame)) }
    ensures failed { TellsFailure result output.old output.new }
{
    match frame_of(word) {
        Frame::Dtr0(operand) => write_special(output, word, "DTR0", operand),
        Frame::Dtr1(operand) => write_special(output, word, "DTR1", operand),
        Frame::Dtr2(operand) => write_special(output, word, "DTR2", operand),
        Frame::Write(operand) => write_special(output, word, "WRITE MEMORY LOCATION", operand),
        Frame::WriteSilent(operand) => {
            write_special(output, word, "WRITE MEMORY LOCATION - NO REPLY", operand)
        }
        Frame::Enable(address) => write_command(output, word, "ENABLE WRITE MEMORY", address),
        Frame::AskDtr0(address) => write_command(output, word, "QUERY CONTENT DTR0", address),
        Frame::AskDtr1(address) => write_command(output, word, "QUERY CONTENT DTR1", address),
        Frame::AskDtr2(address) => write_command(output, word, "QUERY CONTENT DTR2", address),
        Frame::Read(address) => write_command(output, word, "READ MEMORY LOCATION", address),
        Frame::Other(_) => write_other(output, word),
    }
}

// Writes a special command.
fn write_special<W: Write>(
    output: &mut Output<W>,
    word: u16,
    name: &str,
    operand: u8,
) -> Result<(), OutputFailed>
    ensures text { OnOk result (Takes W.contents output.old output.new
        (special_line word name.now operand)) }
    ensures failed { TellsFailure result output.old output.new }
{
    let (word, operand) = (WordDigits(word), ByteDigits(operand));
    writeln!(output, "{word} {name} {operand}")
}

// Writes a command to a short address.
fn write_command<W: Write>(
    output: &mut Output<W>,
    word: u16,
    name: &str,
    address: u8,
) -> Result<(), OutputFailed>
    ensures text { OnOk result (Takes W.contents output.old output.new
        (command_line word name.now address)) }
    ensures failed { TellsFailure result output.old output.new }
{
    let word = WordDigits(word);
    writeln!(output, "{word} {name} unit {address}")
}

// Writes a word that spells no other frame.
fn write_other<W: Write>(output: &mut Output<W>, word: u16) -> Result<(), OutputFailed>
    ensures text { OnOk result (Takes W.contents output.old output.new
        (frame_line word (Frame.Other word))) }
    ensures failed { TellsFailure result output.old output.new }
{
    let word = WordDigits(word);
    writeln!(output, "{word} OTHER")
}
