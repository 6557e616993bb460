ghost use Rattle.std.specs.Prelude.{◌≡◌, ◌≢◌, ◌↔◌, List, ℕ, IfOk, true};
ghost use Rattle.dali_text.specs.Output.{Takes, has_failed, is_flushed};
ghost use Rattle.dali_input.specs.Input.{ReadsAtMost, state_of};
ghost use Rattle.dali_file_commands.specs.NoteLines.{Tells};
ghost use Rattle.dali_input.specs.Ends.{TellsEnd};
ghost use Rattle.dali_file_commands.specs.JournalAnswers.{IsJournalAnswer, TellsInput};
ghost use Rattle.dali_input.specs.JournalInput.{journal_limit};
ghost use Rattle.dali_file_commands.specs.Notes.{IsNotedAnswer};

use crate::notes::{Kind, Note, note_of_journal, note_of_size, write_noted_failure};
pub use dali_input::JOURNAL_LIMIT;
use dali_input::{Fault, Input, Status, journal_in, read_input};
use dali_text::{Output, OutputFailed, write_journal};
use std::alloc::Global;
use std::io::{Read, Write};

/// Reads a writer's journal, and writes its version, a line for each whole record, the oldest first, then how many
/// bytes count of all, how many orders were begun, and the standing. The journal may end in a cut record, which doesn't
/// count. With `with_updates`, the line of a record that begins an order is followed by a line for each of that order's
/// updates, as `check` writes them.
///
/// If the input is no journal it writes the fault alone: 13 TooBig over 33554432 bytes; 7 Header; with the place of the
/// record 3 Record, 4 Sequence, 5 Repeated, 6 Full (over 100000 orders); 20 Memory or 21 File.
///
/// If a call of the output fails, later ones write nothing more to it, and it ends as `Unwritten`.
///
/// The `notes` tell a person why the input is no journal. Whatever becomes of the notes, the answer is the same.
pub fn journal<R: Read, W: Write, N: Write>(
    alloc: Global,
    input: &mut Input<R>,
    output: &mut Output<W>,
    with_updates: bool,
    notes: &mut Output<N>,
) -> Status
    ensures told { result ≢ Status.Unwritten → (text : List ℕ)
        × IsJournalAnswer with_updates (state_of R.remaining input.old) (state_of R.remaining input.new) result text
        × Takes W.contents output.old output.new text }
    ensures read { ReadsAtMost journal_limit (state_of R.remaining input.old) (state_of R.remaining input.new) }
    ensures unwritten { result ≡ Status.Unwritten ↔ has_failed output.new ≡ true }
    ensures flushed { result ≢ Status.Unwritten → is_flushed output.new ≡ true }
    ensures noted { result ≢ Status.Unwritten → (text : List ℕ) × Takes W.contents output.old output.new text
        × Tells N.contents notes.old notes.new (IsNotedAnswer result text) }
{
    match try_journal(alloc, input, output, with_updates, notes) {
        Ok(status) => status,
        Err(_) => Status::Unwritten,
    }
}

// The same, or that the output has failed.
fn try_journal<R: Read, W: Write, N: Write>(
    alloc: Global,
    input: &mut Input<R>,
    output: &mut Output<W>,
    with_updates: bool,
    notes: &mut Output<N>,
) -> Result<Status, OutputFailed>
    ensures told { IfOk result (λ status. (text : List ℕ)
        × IsJournalAnswer with_updates (state_of R.remaining input.old) (state_of R.remaining input.new) status text
        × Takes W.contents output.old output.new text) }
    ensures read { ReadsAtMost journal_limit (state_of R.remaining input.old) (state_of R.remaining input.new) }
    ensures noted { IfOk result (λ status. (text : List ℕ) × Takes W.contents output.old output.new text
        × Tells N.contents notes.old notes.new (IsNotedAnswer status text)) }
    ensures end { TellsEnd result output.new }
{
    match read_input(alloc, input, JOURNAL_LIMIT) {
        Ok(bytes) => write_input(alloc, bytes, output, with_updates, notes),
        Err(fault) => write_noted_failure(output, Fault::Input(fault), notes, &Note::new(alloc)),
    }
}

// Writes what an input says as a journal.
fn write_input<W: Write, N: Write>(
    alloc: Global,
    input: Vec<u8>,
    output: &mut Output<W>,
    with_updates: bool,
    notes: &mut Output<N>,
) -> Result<Status, OutputFailed>
    ensures told { IfOk result (λ status. (text : List ℕ) × TellsInput with_updates input.items status text
        × Takes W.contents output.old output.new text) }
    ensures noted { IfOk result (λ status. (text : List ℕ) × Takes W.contents output.old output.new text
        × Tells N.contents notes.old notes.new (IsNotedAnswer status text)) }
    ensures end { TellsEnd result output.new }
{
    let total = input.len();
    let kind = Kind::of(alloc, input.as_slice());
    match journal_in(alloc, input) {
        Ok((journal, counted, version)) => {
            write_journal(output, &journal, version, counted, total, with_updates)?;
            output.flush()?;
            Ok(Status::Good)
        }
        Err(fault) => write_noted_failure(output, fault, notes, &note_of(alloc, kind, fault)),
    }
}

// Why an input that looks like this is no journal.
fn note_of(alloc: Global, kind: Option<Kind>, fault: Fault) -> Note {
    match fault {
        Fault::Journal(fault) => note_of_journal(alloc, kind, fault),
        _ => note_of_size(alloc, JOURNAL_LIMIT as usize),
    }
}
