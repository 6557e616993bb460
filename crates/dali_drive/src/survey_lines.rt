// The lines that tell what was read of units.
ghost use Rattle.std.specs.Prelude.{◌≡◌, ◌+◌, ◌≤◌, ◌++◌, length};
ghost use Rattle.arrayvec.specs.ArrayVec.{array_vec_len};
ghost use Rattle.dali_frame.specs.Hex.{byte_digits};
ghost use Rattle.dali_drive.specs.SurveyLines.{unit_head, order_head, units_line, bytes_line, silent_line};
ghost use Rattle.dali_drive.specs.SurveyLines.{finding_line, order_silent_line};

use crate::lines::{Line, push_decimal, push_text};
use dali_bank::Order;
use dali_read::Finding;

// Puts a byte's two hexadecimal digits at the end of a line, which has room for them.
pub(crate) fn push_digits(line: &mut Line, byte: u8)
    requires { array_vec_len line.old + 2 ≤ 80 }
    ensures items { line.new.items ≡ line.old.items ++ byte_digits byte }
    ensures len { array_vec_len line.new ≡ array_vec_len line.old + 2 }
{
    let _fits = line.try_extend_from_slice(&dali_frame::byte_digits(byte));
}

// The beginning of a unit's line.
#[tactic(auto, using(crate::proofs::UnitLineLemmas::short_byte))]
pub(crate) fn begin_unit(unit: u8) -> Line
    ensures items { result.items ≡ unit_head unit }
    ensures short { array_vec_len result ≤ 8 }
{
    let mut line = Line::new();
    push_text(&mut line, "unit ");
    push_decimal(&mut line, u64::from(unit));
    line
}

/// The line for this many units that answered.
pub(crate) fn units_line(units: usize) -> Line
    ensures { result.items ≡ units_line units }
{
    let mut line = Line::new();
    push_text(&mut line, "units ");
    push_decimal(&mut line, units as u64);
    push_text(&mut line, "\n");
    line
}

/// The line of a unit of which this many bytes were read.
pub fn bytes_line(unit: u8, count: u8) -> Line
    ensures { result.items ≡ bytes_line unit count }
{
    let mut line = begin_unit(unit);
    push_text(&mut line, " bytes ");
    push_decimal(&mut line, u64::from(count));
    push_text(&mut line, "\n");
    line
}

/// The line of a unit that was silent.
pub fn silent_line(unit: u8) -> Line
    ensures { result.items ≡ silent_line unit }
{
    let mut line = begin_unit(unit);
    push_text(&mut line, " silent\n");
    line
}

// The beginning of an order's line.
fn begin_order(order: &Order) -> Line
    ensures items { result.items ≡ order_head order.now }
    ensures short { array_vec_len result ≤ 52 }
{
    let mut line = Line::new();
    push_text(&mut line, "order ");
    push_decimal(&mut line, order.id());
    push_text(&mut line, " unit ");
    push_decimal(&mut line, u64::from(order.unit()));
    line
}

/// The line of what was found of an order.
pub(crate) fn finding_line(order: &Order, finding: Finding) -> Line
    ensures { result.items ≡ finding_line order.now finding }
{
    let mut line = begin_order(order);
    match finding {
        Finding::Same => push_text(&mut line, " same\n"),
        Finding::Other(location, byte) => {
            push_text(&mut line, " other ");
            push_digits(&mut line, location);
            push_text(&mut line, " ");
            push_digits(&mut line, byte);
            push_text(&mut line, "\n");
        }
        Finding::Short => push_text(&mut line, " short\n"),
        Finding::Format => push_text(&mut line, " format\n"),
    }
    line
}

/// The line of an order whose unit was silent.
pub(crate) fn order_silent_line(order: &Order) -> Line
    ensures { result.items ≡ order_silent_line order.now }
{
    let mut line = begin_order(order);
    push_text(&mut line, " silent\n");
    line
}
