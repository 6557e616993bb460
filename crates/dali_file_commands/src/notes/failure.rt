ghost use Rattle.std.specs.Prelude.{◌≡◌, ◌≢◌, IfOk, OnOk};
ghost use Rattle.dali_text.specs.Output.{Takes};
ghost use Rattle.dali_file_commands.specs.NoteLines.{Tells};
ghost use Rattle.dali_input.specs.Ends.{TellsEnd};
ghost use Rattle.dali_input.specs.CommandFaults.{status_of, told_line};
ghost use Rattle.dali_file_commands.specs.Notes.{IsFaultNote, IsInputNote};

use crate::notes::note::Note;
use dali_input::{Fault, InputFault, Status, write_failure};
use dali_journal::JournalFault;
use dali_text::{Output, OutputFailed};
use dali_trace::{DriveFault, RunFault};
use std::io::Write;

/// Writes why a command gave up, and nothing after it, and tells a person in `notes` what is wrong there.
pub fn write_noted_failure<W: Write, N: Write>(
    output: &mut Output<W>,
    fault: Fault,
    notes: &mut Output<N>,
    note: &Note,
) -> Result<Status, OutputFailed>
    ensures told { OnOk result (Takes W.contents output.old output.new (told_line fault)) }
    ensures status { IfOk result (λ status. status ≡ status_of fault) }
    ensures end { fault ≢ Fault.Drive DriveFault.Out → TellsEnd result output.new }
    ensures noted { Tells N.contents notes.old notes.new (IsFaultNote fault) }
{
    note_fault(notes, fault, note);
    write_failure(output, fault)
}

// Tells what is wrong if a fault has such a note.
fn note_fault<N: Write>(notes: &mut Output<N>, fault: Fault, note: &Note)
    ensures { Tells N.contents notes.old notes.new (IsFaultNote fault) }
{
    match fault {
        Fault::Input(fault) => note_input_fault(notes, fault, note),
        Fault::Unit(number, _) => note.tell_about(notes, "unit", number),
        Fault::Order(number, _) => note.tell_about(notes, "event", number),
        Fault::SameAddress
        | Fault::Run(RunFault::Limit)
        | Fault::Journal(
            JournalFault::Limit
            | JournalFault::Record(_)
            | JournalFault::Sequence(_)
            | JournalFault::Repeated(_)
            | JournalFault::Full(_)
            | JournalFault::Header,
        ) => note.tell(notes),
        Fault::Run(RunFault::NoMemory)
        | Fault::Journal(JournalFault::NoMemory)
        | Fault::Drive(_)
        | Fault::Older => {}
    }
}

// Notes what is wrong with an input as a whole, if the fault is about what it says or how long it is.
fn note_input_fault<N: Write>(notes: &mut Output<N>, fault: InputFault, note: &Note)
    ensures { Tells N.contents notes.old notes.new (IsInputNote fault) }
{
    match fault {
        InputFault::Json | InputFault::Document | InputFault::TooBig | InputFault::Hex => {
            note.tell(notes)
        }
        InputFault::Memory | InputFault::File => {}
    }
}
