// Orders of a list, one after another.
ghost use Rattle.std.specs.Prelude.{◌≡◌, ◌≤◌, ◌-◌, ◌^◌, length};
ghost use Rattle.dali_drive.specs.Listed.{state_of};

use crate::following::{Given, Orders};
use dali_bank::Order;

/// The orders of a list, each submitted at the same moment (profile).
#[derive(Drop)]
pub struct ListedOrders<'a> {
    rest: &'a [Order],
    moment: u64,
}

impl<'a> ListedOrders<'a> {
    /// All these orders, of which none was given.
    pub fn new(orders: &'a [Order], moment: u64) -> ListedOrders<'a>
        ensures state { state_of result ≡ record { rest = orders.entry.now; moment = moment } }
        ensures few { length orders.entry.now ≤ 2 ^ 64 - 1 }
    {
        // it shows what is true of every list
        let _most = orders.len();
        ListedOrders {
            rest: orders,
            moment,
        }
    }
}

impl Orders for ListedOrders<'_> {
    ghost use Rattle.dali_drive.specs.Listed.{GaveListed, IsEmpty, gave_none};

    ghost gave = { GaveListed };

    ghost over = { IsEmpty };

    fn next(&mut self) -> Option<Given> {
        let (order, rest) = self.rest.split_first()?;
        self.rest = rest;
        Some(Given::Order(order.copy(), self.moment))
    }

    ghost gave_none = { gave_none };
}
