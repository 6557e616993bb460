ghost use Rattle.std.specs.Prelude.{◌≡◌, ◌≢◌, ◌↔◌, ℕ, List, IsSome, IfSome, IfOk, true};
ghost use Rattle.dali_frame.specs.Frame.{Spells};
ghost use Rattle.dali_frame.specs.Hex.{SpellsHexNumber};
ghost use Rattle.dali_frame.specs.declared.forward.Frame.{Frame};
ghost use Rattle.dali_text.specs.FrameLine.{frame_line};
ghost use Rattle.dali_text.specs.Output.{Takes, has_failed, is_flushed};
ghost use Rattle.dali_file_commands.specs.NoteLines.{Tells};
ghost use Rattle.dali_input.specs.Ends.{TellsEnd};
ghost use Rattle.dali_file_commands.specs.FrameAnswers.{AreFourDigits, IsFrameAnswer};
ghost use Rattle.dali_file_commands.specs.Notes.{IsNotedAnswer};

use crate::notes::{note_of_word, write_noted_failure};
use dali_input::{Fault, InputFault, Status};
use dali_text::{Output, OutputFailed, write_frame};
use std::alloc::Global;
use std::io::Write;

/// Prints what the word of a forward frame means: the word, the standard's name of the frame, and its
/// operand or its short address.
///
/// If the argument isn't four hexadecimal digits it writes fault 14 Hex.
///
/// If a call of the output fails, later ones write nothing more to it, and it ends as `Unwritten`.
///
/// The `notes` tell a person why the argument is no word. Whatever becomes of the notes, the answer is the same.
pub fn frame<W: Write, N: Write>(
    alloc: Global,
    argument: &str,
    output: &mut Output<W>,
    notes: &mut Output<N>,
) -> Status
    ensures told { result ≢ Status.Unwritten → (text : List ℕ) × IsFrameAnswer argument.now result text
        × Takes W.contents output.old output.new text }
    ensures unwritten { result ≡ Status.Unwritten ↔ has_failed output.new ≡ true }
    ensures flushed { result ≢ Status.Unwritten → is_flushed output.new ≡ true }
    ensures noted { result ≢ Status.Unwritten → (text : List ℕ) × Takes W.contents output.old output.new text
        × Tells N.contents notes.old notes.new (IsNotedAnswer result text) }
{
    match try_frame(alloc, argument, output, notes) {
        Ok(status) => status,
        Err(_) => Status::Unwritten,
    }
}

// The same, or that the output has failed.
fn try_frame<W: Write, N: Write>(
    alloc: Global,
    argument: &str,
    output: &mut Output<W>,
    notes: &mut Output<N>,
) -> Result<Status, OutputFailed>
    ensures told { IfOk result (λ status. (text : List ℕ) × IsFrameAnswer argument.now status text
        × Takes W.contents output.old output.new text) }
    ensures noted { IfOk result (λ status. (text : List ℕ) × Takes W.contents output.old output.new text
        × Tells N.contents notes.old notes.new (IsNotedAnswer status text)) }
    ensures end { TellsEnd result output.new }
{
    match word_in(argument) {
        Some(word) => write_word(output, word),
        None => {
            let note = note_of_word(alloc, argument);
            write_noted_failure(output, Fault::Input(InputFault::Hex), notes, &note)
        }
    }
}

// The word of four hexadecimal digits.
fn word_in(argument: &str) -> Option<u16>
    ensures found { IsSome result ↔ AreFourDigits argument.now }
    ensures value { IfSome result (SpellsHexNumber argument.now) }
{
    let [first, _, _, _] = argument.as_bytes() else {
        return None;
    };
    // A number may begin with a plus, and a word may not.
    if *first == b'+' {
        return None;
    }
    u16::from_str_radix(argument, 16).ok()
}

// Writes a word and the frame that it spells, and nothing after it.
#[tactic(auto, using(dali_text::proofs::StreamLemmas::appends_kept))]
fn write_word<W: Write>(output: &mut Output<W>, word: u16) -> Result<Status, OutputFailed>
    ensures line { IfOk result (λ status. (status ≡ Status.Good) × (frame : Frame) × Spells frame word
        × Takes W.contents output.old output.new (frame_line word frame)) }
    ensures end { TellsEnd result output.new }
{
    write_frame(output, word)?;
    output.flush()?;
    Ok(Status::Good)
}
