ghost use Rattle.std.specs.Prelude.{IfErr, IfOk};
ghost use Rattle.dali_input.specs.Orders.{AreOrdersIn, AreRefusedIn, IsInputFault, orders_limit};

use crate::fault::InputFault;
use crate::item::ItemFault;
use crate::items::Items;
use dali_bank::Order;
use json::Scratch;
use std::alloc::Global;

/// The most bytes of a list of orders (profile).
pub const ORDERS_LIMIT: u32 = 16_777_216;

/// The orders of an input, or all its items that are refused, counted from 1, each with its fault (profile).
///
/// InputFault 13 TooBig if there are more than 16777216 bytes, 11 Json if they are no JSON, 12 Document if the JSON is
/// no array, 20 Memory if there is no memory.
pub fn read_orders(
    alloc: Global,
    input: &[u8],
) -> Result<Result<Vec<Order>, Vec<(u64, ItemFault)>>, InputFault>
    ensures ok { IfOk result (λ judged. IfOk judged (λ orders. AreOrdersIn input.now orders.items)) }
    ensures refused { IfOk result (λ judged. IfErr judged (λ refused. AreRefusedIn input.now refused.items)) }
    ensures err { IfErr result (IsInputFault orders_limit input.now) }
{
    let mut scratch = Scratch::new(alloc);
    let mut items = Items::of(alloc, input, ORDERS_LIMIT, &mut scratch)?;
    let mut orders = Vec::new(alloc);
    let mut refused = Vec::new(alloc);
    let mut number: u64 = 0;
    'items: while let Some(item) = items.next() {
        number += 1;
        match item.order() {
            Ok(order) if refused.is_empty() => orders.push(order)?,
            Ok(_) => {}
            Err(fault) => refused.push((number, fault))?,
        }
    }
    if refused.is_empty() {
        return Ok(Ok(orders));
    }
    Ok(Err(refused))
}
