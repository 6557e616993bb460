ghost use Rattle.std.specs.Prelude.{IfSome, OnOk};
ghost use Rattle.dali_text.specs.FaultLines.{counted_line, fault_line, placed_line, single_line};
ghost use Rattle.dali_text.specs.Output.{TellsFailure, Takes};

use crate::output::{Output, OutputFailed};
use std::fmt::Display;
use std::io::Write;

/// Writes a fault of a whole input (profile): its number and its name, which is what the fault
/// displays.
pub fn write_fault<W: Write, F: Display>(
    output: &mut Output<W>,
    number: u8,
    name: &F,
) -> Result<(), OutputFailed>
    ensures text { OnOk result (IfSome (F.output name.now) (λ name_text.
        Takes W.contents output.old output.new (fault_line number name_text))) }
    ensures failed { TellsFailure result output.old output.new }
{
    writeln!(output, "fault {number} {name}")
}

/// Writes a fault of something that is there once (profile): what it is, and then the fault's number
/// and its name, which is what the fault displays.
pub fn write_single_fault<W: Write, F: Display>(
    output: &mut Output<W>,
    what: &str,
    number: u8,
    name: &F,
) -> Result<(), OutputFailed>
    ensures text { OnOk result (IfSome (F.output name.now) (λ name_text.
        Takes W.contents output.old output.new (single_line what.now number name_text))) }
    ensures failed { TellsFailure result output.old output.new }
{
    writeln!(output, "{what} fault {number} {name}")
}

/// Writes a fault of something that is counted (profile): what it is, its count, and then the
/// fault's number and its name, which is what the fault displays.
pub fn write_counted_fault<W: Write, F: Display>(
    output: &mut Output<W>,
    what: &str,
    count: u64,
    number: u8,
    name: &F,
) -> Result<(), OutputFailed>
    ensures text { OnOk result (IfSome (F.output name.now) (λ name_text.
        Takes W.contents output.old output.new (counted_line what.now count number name_text))) }
    ensures failed { TellsFailure result output.old output.new }
{
    writeln!(output, "{what} {count} fault {number} {name}")
}

/// Writes a fault at a place in what was read (profile): what it is of, the fault's number and its
/// name, which is what the fault displays, and the place, counted from 0.
pub fn write_placed_fault<W: Write, F: Display>(
    output: &mut Output<W>,
    what: &str,
    number: u8,
    name: &F,
    place: usize,
) -> Result<(), OutputFailed>
    ensures text { OnOk result (IfSome (F.output name.now) (λ name_text.
        Takes W.contents output.old output.new (placed_line what.now number name_text place))) }
    ensures failed { TellsFailure result output.old output.new }
{
    writeln!(output, "{what} fault {number} {name} at {place}")
}
