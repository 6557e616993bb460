// A line that is refused, and how that is printed.
ghost use Rattle.std.specs.Prelude.{◌≡◌, ◌≤◌};
ghost use Rattle.arrayvec.specs.ArrayVec.{array_vec_len};
ghost use Rattle.dali_link_commands.specs.LineFaults.{item_line, item_head};

use dali_drive::{Line, push_decimal, push_text};
use dali_input::ItemFault;

// A line that is refused: the number of the order on it, if it has one, and why.
#[derive(Clone, Copy)]
pub(crate) struct RefusedLine {
    pub(crate) order: Option<u64>,
    pub(crate) fault: ItemFault,
}

// The line of a refused item, on the line of this number.
#[tactic(auto, using(crate::proofs::LineFaultLemmas::byte_is_short))]
pub(crate) fn item_line(number: u64, refused: RefusedLine) -> Line
    ensures { result.items ≡ item_line number refused }
{
    let mut line = item_head(number, refused.order);
    push_text(&mut line, " fault ");
    push_decimal(&mut line, u64::from(refused.fault.number()));
    push_text(&mut line, " ");
    push_text(&mut line, refused.fault.name());
    push_text(&mut line, "\n");
    line
}

// How it begins: which line it is, and which order's.
fn item_head(number: u64, order: Option<u64>) -> Line
    ensures items { result.items ≡ item_head number order }
    ensures short { array_vec_len result ≤ 52 }
{
    let mut line = Line::new();
    push_text(&mut line, "item ");
    push_decimal(&mut line, number);
    if let Some(order) = order {
        push_text(&mut line, " order ");
        push_decimal(&mut line, order);
    }
    line
}
