// The result of a line.
ghost use Rattle.std.specs.Prelude.{◌≡◌, ℕ, List};
ghost use Rattle.serde_json.specs.View.{view};
ghost use Rattle.dali_link_commands.specs.LineBuffers.{Holds};
ghost use Rattle.dali_link_commands.specs.LinesJudged.{JudgesAt, JudgesValue, JudgesLine, no_json_on, no_submission_on};
ghost use Rattle.dali_link_commands.specs.LinesJudged.{order_number as number_of_order};

use crate::stream::fault::RefusedLine;
use crate::stream::line_buffer::{LINE_LIMIT, LineBuffer};
use dali_bank::Order;
use dali_input::{InputFault, ItemFault, json_of, order_of, submission_of};
use serde_json::Value;
use std::alloc::Global;

// The order of a line and its moment: the one that is given there, or that of the stream.
//
// The first fault that applies (profile): 13 TooBig, 11 Json, 20 Memory, 12 Document, and then that of the item.
pub(crate) fn judge_line(
    alloc: Global,
    line: &LineBuffer,
    moment: u64,
) -> Result<(Order, u64), RefusedLine>
    ensures { (text : List ℕ) → Holds line.now text → JudgesLine moment text result }
{
    if line.is_long {
        return Err(no_json(InputFault::TooBig));
    }
    match json_of(alloc, line.bytes.as_slice(), LINE_LIMIT) {
        Ok(json) => judge_value(&json, moment),
        Err(fault) => Err(no_json(fault)),
    }
}

// The result of a value on a line.
fn judge_value(json: &Value, moment: u64) -> Result<(Order, u64), RefusedLine>
    ensures { JudgesValue moment (view json.now) result }
{
    match submission_of(json) {
        None => judge_at(json, moment),
        Some(Ok((order, at))) => judge_at(order, at),
        Some(Err(fault)) => Err(RefusedLine {
            order: submitted_number(json),
            fault: ItemFault::Input(fault),
        }),
    }
}

// The result of a value that is submitted at a moment.
fn judge_at(item: &Value, moment: u64) -> Result<(Order, u64), RefusedLine>
    ensures { JudgesAt moment (view item.now) result }
{
    match order_of(item) {
        Ok(order) => Ok((order, moment)),
        Err(fault) => Err(RefusedLine {
            order: order_number(item),
            fault,
        }),
    }
}

// The number that an item has for its order, whatever else is wrong with it.
fn order_number(item: &Value) -> Option<u64>
    ensures { result ≡ number_of_order (view item.now) }
{
    item.get("order").and_then(Value::as_u64)
}

// The same of what a value would submit, though it can't be read.
fn submitted_number(json: &Value) -> Option<u64>
    ensures { result ≡ (no_submission_on (view json.now)).order }
{
    order_number(json.get("submit")?)
}

// How a line is refused that has no JSON.
fn no_json(fault: InputFault) -> RefusedLine
    ensures { result ≡ no_json_on fault }
{
    RefusedLine {
        order: None,
        fault: ItemFault::Input(fault),
    }
}
