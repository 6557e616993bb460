ghost use Rattle.std.specs.Prelude.{◌≡◌, ◌==◌, ◌<◌, OnOk, drop, take};
ghost use Rattle.std.specs.List.{list_all};
ghost use Rattle.dali_text.specs.UnitLines.{bank_lines, dtrs_text, group_line, registers_line, unit_text};
ghost use Rattle.dali_text.specs.UnitLines.{yes_or_no as word_of};
ghost use Rattle.dali_text.specs.Output.{TellsFailure, Takes};

use crate::digits::{ByteDigits, write_bytes};
use crate::output::{Output, OutputFailed};
use dali_gear::Unit;
use std::io::Write;

// How many locations a line tells.
const GROUP_SIZE: u8 = 16;

// How many groups a bank may have.
const MOST_GROUPS: u8 = 16;

/// Writes a unit (profile): its short address, DTR0, DTR1 and DTR2, whether it is write-enabled, and
/// bank 1 in groups of 16 locations, without those whose bytes are all FFh.
#[tactic(auto, using(crate::proofs::StreamLemmas::appends_both))]
pub fn write_unit<W: Write>(output: &mut Output<W>, unit: &Unit) -> Result<(), OutputFailed>
    ensures text { OnOk result (Takes W.contents output.old output.new (unit_text unit.now)) }
    ensures failed { TellsFailure result output.old output.new }
{
    write_registers(output, unit)?;
    write_groups(output, unit.address(), unit.bank1())
}

// Writes a unit without its bank.
#[tactic(auto, using(crate::proofs::StreamLemmas::appends_both))]
fn write_registers<W: Write>(output: &mut Output<W>, unit: &Unit) -> Result<(), OutputFailed>
    ensures text { OnOk result (Takes W.contents output.old output.new (registers_line unit.now)) }
    ensures failed { TellsFailure result output.old output.new }
{
    let address = unit.address();
    let enabled = yes_or_no(unit.is_enabled());
    write!(output, "unit {address} dtr ")?;
    write_dtrs(output, unit)?;
    writeln!(output, " enabled {enabled}")
}

// Writes DTR0, DTR1 and DTR2 of a unit.
fn write_dtrs<W: Write>(output: &mut Output<W>, unit: &Unit) -> Result<(), OutputFailed>
    ensures text { OnOk result (Takes W.contents output.old output.new (dtrs_text unit.now)) }
    ensures failed { TellsFailure result output.old output.new }
{
    let (dtr0, dtr1, dtr2) = unit.dtrs();
    let (dtr0, dtr1, dtr2) = (ByteDigits(dtr0), ByteDigits(dtr1), ByteDigits(dtr2));
    write!(output, "{dtr0} {dtr1} {dtr2}")
}

// A word that says whether.
fn yes_or_no(answer: bool) -> &'static str
    ensures { result.now ≡ word_of answer }
{
    if answer { "yes" } else { "no" }
}

// Writes the groups of a bank.
#[tactic(auto, using(crate::proofs::StreamLemmas::appends_both))]
fn write_groups<W: Write>(
    output: &mut Output<W>,
    address: u8,
    bytes: &[u8],
) -> Result<(), OutputFailed>
    ensures text { OnOk result (Takes W.contents output.old output.new (bank_lines address bytes.now)) }
    ensures failed { TellsFailure result output.old output.new }
{
    for number in 0..MOST_GROUPS {
        write_group(output, address, number, bytes)?;
    }
    Ok(())
}

// Writes a group, unless its bytes are all FFh.
#[tactic(auto, using(crate::proofs::StreamLemmas::appends_both))]
fn write_group<W: Write>(
    output: &mut Output<W>,
    address: u8,
    number: u8,
    bytes: &[u8],
) -> Result<(), OutputFailed>
    requires { number < 16 }
    ensures text { OnOk result (Takes W.contents output.old output.new
        (group_line address number bytes.now)) }
    ensures failed { TellsFailure result output.old output.new }
{
    let first = GROUP_SIZE * number;
    let group = group_from(bytes, first);
    if is_all_ff(group) {
        return Ok(());
    }
    let first = ByteDigits(first);
    write!(output, "bank {address} {first} ")?;
    write_bytes(output, group)?;
    writeln!(output)
}

// The bytes of a group, from its first location on.
fn group_from(bytes: &[u8], first: u8) -> &[u8]
    ensures { result.now ≡ take 16 (drop first bytes.now) }
{
    let rest = &bytes[bytes.len().min(usize::from(first))..];
    &rest[..rest.len().min(usize::from(GROUP_SIZE))]
}

// Whether each byte is FFh.
fn is_all_ff(bytes: &[u8]) -> bool
    ensures { result ≡ list_all (λ byte. byte == 0xFF) bytes.now }
{
    bytes.iter().all(|&byte| byte == 0xFF)
}
