ghost use Rattle.std.specs.Prelude.{◌≡◌, ◌≤◌, OnOk, length};
ghost use Rattle.std.specs.List.{flat_map};
ghost use Rattle.dali_text.specs.OrderLines.{order_line, order_lines, tally_line, update_line};
ghost use Rattle.dali_text.specs.Output.{TellsFailure, Takes};

use crate::output::{Output, OutputFailed};
use arrayvec::ArrayVec;
use dali_bank::{MOST_UPDATES, Order};
use dali_frame::byte_digits;
use std::io::Write;

/// Writes an order that an item gave (profile): a line with the item's number, the order's number,
/// its unit and how many updates it has, and then for each update a line with its location and its
/// byte in hexadecimal digits.
#[tactic(auto, using(crate::proofs::StreamLemmas::appends_both))]
pub fn write_order<W: Write>(
    output: &mut Output<W>,
    number: u64,
    order: &Order,
) -> Result<(), OutputFailed>
    ensures text { OnOk result (Takes W.contents output.old output.new (order_lines number order.now)) }
    ensures failed { TellsFailure result output.old output.new }
{
    write_heading(output, number, order)?;
    write_updates(output, order.updates())
}

// Writes what an order is.
fn write_heading<W: Write>(
    output: &mut Output<W>,
    number: u64,
    order: &Order,
) -> Result<(), OutputFailed>
    ensures text { OnOk result (Takes W.contents output.old output.new (order_line number order.now)) }
    ensures failed { TellsFailure result output.old output.new }
{
    let id = order.id();
    let unit = order.unit();
    let count = order.updates().len();
    writeln!(output, "item {number} order {id} unit {unit} bytes {count}")
}

// Writes the updates at once, which takes much less time than line by line.
pub(crate) fn write_updates<W: Write>(
    output: &mut Output<W>,
    updates: &[(u8, u8)],
) -> Result<(), OutputFailed>
    requires { length updates.now ≤ 115 }
    ensures text { OnOk result (Takes W.contents output.old output.new
        (flat_map update_line updates.now)) }
    ensures failed { TellsFailure result output.old output.new }
{
    let mut lines = ArrayVec::<[u8; 6], MOST_UPDATES>::new();
    for &(location, byte) in updates {
        lines.push(line_of(location, byte));
    }
    output.write_all(lines.as_slice().as_flattened())
}

// The line of a location and its byte.
fn line_of(location: u8, byte: u8) -> [u8; 6]
    ensures { result ≡ update_line (location, byte) }
{
    let ([a, b], [c, d]) = (byte_digits(location), byte_digits(byte));
    [a, b, b' ', c, d, b'\n']
}

/// Writes how many items were accepted and how many refused (profile).
pub fn write_tally<W: Write>(
    output: &mut Output<W>,
    accepted: u64,
    refused: u64,
) -> Result<(), OutputFailed>
    ensures text { OnOk result (Takes W.contents output.old output.new (tally_line accepted refused)) }
    ensures failed { TellsFailure result output.old output.new }
{
    writeln!(output, "accepted {accepted} refused {refused}")
}
