ghost use Rattle.std.specs.Prelude.{◌≡◌, ◌≢◌, ◌↔◌, ℕ, List, IfOk, true};
ghost use Rattle.dali_text.specs.BankLines.{AreLines, rows};
ghost use Rattle.dali_text.specs.Output.{Takes, has_failed, is_flushed};
ghost use Rattle.dali_input.specs.BankText.{text_limit};
ghost use Rattle.dali_input.specs.Input.{ReadsAtMost, state_of};
ghost use Rattle.dali_file_commands.specs.NoteLines.{Tells};
ghost use Rattle.dali_file_commands.specs.BankAnswers.{IsShowAnswer, ShowsInput};
ghost use Rattle.dali_input.specs.Ends.{TellsEnd};
ghost use Rattle.dali_file_commands.specs.Notes.{IsNotedAnswer};

use crate::notes::{Note, note_of_bank, write_noted_failure};
use dali_input::{Fault, Input, Status, TEXT_LIMIT, bank_of, read_input};
use dali_text::{Output, OutputFailed, write_bank};
use std::alloc::Global;
use std::io::{Read, Write};

/// Reads the bytes of a memory bank as hexadecimal digits, and writes a line for each of its rows.
///
/// If the input spells no bank it writes the fault alone: 13 TooBig over 4096 bytes of text, 14 Hex, 13 TooBig over 255
/// bytes of the bank, 20 Memory or 21 File.
///
/// If a call of the output fails, later ones write nothing more to it, and it ends as `Unwritten`.
///
/// The `notes` tell a person why the input spells no bank. Whatever becomes of the notes, the answer is the same.
pub fn show<R: Read, W: Write, N: Write>(
    alloc: Global,
    input: &mut Input<R>,
    output: &mut Output<W>,
    notes: &mut Output<N>,
) -> Status
    ensures shown { result ≢ Status.Unwritten → (text : List ℕ)
        × ShowsInput (state_of R.remaining input.old) (state_of R.remaining input.new) result text
        × Takes W.contents output.old output.new text }
    ensures read { ReadsAtMost text_limit (state_of R.remaining input.old) (state_of R.remaining input.new) }
    ensures unwritten { result ≡ Status.Unwritten ↔ has_failed output.new ≡ true }
    ensures flushed { result ≢ Status.Unwritten → is_flushed output.new ≡ true }
    ensures noted { result ≢ Status.Unwritten → (text : List ℕ) × Takes W.contents output.old output.new text
        × Tells N.contents notes.old notes.new (IsNotedAnswer result text) }
{
    match try_show(alloc, input, output, notes) {
        Ok(status) => status,
        Err(_) => Status::Unwritten,
    }
}

// The same, or that the output has failed.
fn try_show<R: Read, W: Write, N: Write>(
    alloc: Global,
    input: &mut Input<R>,
    output: &mut Output<W>,
    notes: &mut Output<N>,
) -> Result<Status, OutputFailed>
    ensures shown { IfOk result (λ status. (text : List ℕ)
        × ShowsInput (state_of R.remaining input.old) (state_of R.remaining input.new) status text
        × Takes W.contents output.old output.new text) }
    ensures read { ReadsAtMost text_limit (state_of R.remaining input.old) (state_of R.remaining input.new) }
    ensures noted { IfOk result (λ status. (text : List ℕ) × Takes W.contents output.old output.new text
        × Tells N.contents notes.old notes.new (IsNotedAnswer status text)) }
    ensures end { TellsEnd result output.new }
{
    match read_input(alloc, input, TEXT_LIMIT) {
        Ok(bytes) => write_shown(alloc, bytes, output, notes),
        Err(fault) => write_noted_failure(output, Fault::Input(fault), notes, &Note::new(alloc)),
    }
}

// Writes what a text says.
fn write_shown<W: Write, N: Write>(
    alloc: Global,
    input: Vec<u8>,
    output: &mut Output<W>,
    notes: &mut Output<N>,
) -> Result<Status, OutputFailed>
    ensures answered { IfOk result (λ status. (text : List ℕ) × IsShowAnswer input.items status text
        × Takes W.contents output.old output.new text) }
    ensures noted { IfOk result (λ status. (text : List ℕ) × Takes W.contents output.old output.new text
        × Tells N.contents notes.old notes.new (IsNotedAnswer status text)) }
    ensures end { TellsEnd result output.new }
{
    // The bytes of the text are gone once it is read as a bank.
    let note = note_of_bank(alloc, input.as_slice());
    match bank_of(alloc, input) {
        Ok(bank) => write_rows(output, bank.as_slice()),
        Err(fault) => write_noted_failure(output, Fault::Input(fault), notes, &note),
    }
}

// Writes each row of a bank, and nothing after them.
#[tactic(auto, using(dali_text::proofs::StreamLemmas::appends_kept))]
fn write_rows<W: Write>(output: &mut Output<W>, bank: &[u8]) -> Result<Status, OutputFailed>
    ensures rows { IfOk result (λ status. (status ≡ Status.Good) × (text : List ℕ) × AreLines bank.now rows text
        × Takes W.contents output.old output.new text) }
    ensures end { TellsEnd result output.new }
{
    write_bank(output, bank)?;
    output.flush()?;
    Ok(Status::Good)
}
