ghost use Rattle.std.specs.Prelude.{◌≡◌, ◌≢◌, IfOk, OnOk};
ghost use Rattle.dali_text.specs.Output.{TellsFailure, Takes};
ghost use Rattle.dali_input.specs.Ends.{TellsEnd};
ghost use Rattle.dali_input.specs.CommandFaults.{drive_line, input_line, item_line, journal_line, told_line, place_line};
ghost use Rattle.dali_input.specs.CommandFaults.{status_of, whole_line};

use crate::command_fault::{Fault, Status};
use crate::fault::InputFault;
use crate::item::ItemFault;
use dali_gear::GearFault;
use dali_journal::JournalFault;
use dali_text::{
    Output, OutputFailed, write_counted_fault, write_placed_fault, write_single_fault,
};
use dali_trace::{DriveFault, RunFault};
use std::io::Write;

/// Writes why a command gave up, and nothing after it; the status is that of the fault.
#[tactic(auto, using(dali_text::proofs::StreamLemmas::appends_kept))]
pub fn write_failure<W: Write>(output: &mut Output<W>, fault: Fault) -> Result<Status, OutputFailed>
    ensures told { OnOk result (Takes W.contents output.old output.new (told_line fault)) }
    ensures status { IfOk result (λ status. status ≡ status_of fault) }
    ensures end { fault ≢ Fault.Drive DriveFault.Out → TellsEnd result output.new }
{
    write_fault(output, fault)?;
    output.flush()?;
    Ok(fault.status())
}

/// Writes the line of a fault.
pub fn write_fault<W: Write>(output: &mut Output<W>, fault: Fault) -> Result<(), OutputFailed>
    ensures line { OnOk result (Takes W.contents output.old output.new (told_line fault)) }
    ensures failed { TellsFailure result output.old output.new }
{
    match fault {
        Fault::Input(fault) => write_input_fault(output, fault),
        Fault::Unit(number, fault) => {
            write_counted_fault(output, "unit", number, fault.number(), &fault)
        }
        Fault::SameAddress => {
            let fault = GearFault::SameAddress;
            write_single_fault(output, "gear", fault.number(), &fault)
        }
        Fault::Order(number, fault) => {
            write_counted_fault(output, "event", number, fault.number(), &fault)
        }
        Fault::Run(RunFault::Limit) => {
            let fault = RunFault::Limit;
            write_single_fault(output, "run", fault.number(), &fault)
        }
        Fault::Run(RunFault::NoMemory) => write_input_fault(output, InputFault::Memory),
        Fault::Journal(fault) => write_journal_fault(output, fault),
        Fault::Drive(fault) => output.write_all(drive_line(fault).as_bytes()),
        Fault::Older => output.write_all(b"fault 15 Older\n"),
    }
}

// Writes the fault of a whole input.
fn write_input_fault<W: Write>(
    output: &mut Output<W>,
    fault: InputFault,
) -> Result<(), OutputFailed>
    ensures line { OnOk result (Takes W.contents output.old output.new (input_line fault)) }
    ensures failed { TellsFailure result output.old output.new }
{
    dali_text::write_fault(output, fault.number(), &fault)
}

// Writes why an input is no journal.
fn write_journal_fault<W: Write>(
    output: &mut Output<W>,
    fault: JournalFault,
) -> Result<(), OutputFailed>
    ensures line { OnOk result (Takes W.contents output.old output.new (journal_line fault)) }
    ensures failed { TellsFailure result output.old output.new }
{
    match fault {
        JournalFault::Limit => write_whole_fault(output, JournalFault::Limit),
        JournalFault::NoMemory => write_input_fault(output, InputFault::Memory),
        JournalFault::Record(place) => write_record_fault(
            output,
            JournalFault::Record(place),
            place,
        ),
        JournalFault::Sequence(place) => {
            write_record_fault(output, JournalFault::Sequence(place), place)
        }
        JournalFault::Repeated(place) => {
            write_record_fault(output, JournalFault::Repeated(place), place)
        }
        JournalFault::Full(place) => write_record_fault(output, JournalFault::Full(place), place),
        JournalFault::Header => write_whole_fault(output, JournalFault::Header),
    }
}

/// The line of a drive's fault.
pub fn drive_line(fault: DriveFault) -> &'static str
    ensures { result.now ≡ drive_line fault }
{
    match fault {
        DriveFault::Journal => "drive fault 1 Journal\n",
        DriveFault::Link => "drive fault 2 Link\n",
        DriveFault::Line(_) => "drive fault 3 Line\n",
        DriveFault::End => "drive fault 4 End\n",
        DriveFault::NoMemory => "fault 20 Memory\n",
        DriveFault::TooLong => "drive fault 6 TooLong\n",
        DriveFault::Out => "drive fault 7 Out\n",
    }
}

// Writes the fault of a journal as a whole.
fn write_whole_fault<W: Write>(
    output: &mut Output<W>,
    fault: JournalFault,
) -> Result<(), OutputFailed>
    ensures line { OnOk result (Takes W.contents output.old output.new (whole_line fault)) }
    ensures failed { TellsFailure result output.old output.new }
{
    write_single_fault(output, "journal", fault.number(), &fault)
}

// Writes the fault of a journal that has the place of a record.
fn write_record_fault<W: Write>(
    output: &mut Output<W>,
    fault: JournalFault,
    place: usize,
) -> Result<(), OutputFailed>
    ensures line { OnOk result (Takes W.contents output.old output.new (place_line fault place)) }
    ensures failed { TellsFailure result output.old output.new }
{
    write_placed_fault(output, "journal", fault.number(), &fault, place)
}

/// Writes a refused item of a list of orders, counted from 1.
pub fn write_refused_item<W: Write>(
    output: &mut Output<W>,
    item: u64,
    fault: ItemFault,
) -> Result<(), OutputFailed>
    ensures line { OnOk result (Takes W.contents output.old output.new (item_line item fault)) }
    ensures failed { TellsFailure result output.old output.new }
{
    write_counted_fault(output, "item", item, fault.number(), &fault)
}
