use crate::notes::firsts::{First, Firsts};
use crate::notes::note::Note;
use dali_bank::Order;
use std::alloc::Global;

/// The numbers of the orders of a list as far as it was read, to tell those that are given again for another order.
#[derive(Drop)]
pub struct Repeats {
    firsts: Firsts,
    // Whether there is no more memory to remember them.
    is_full: bool,
}

impl Repeats {
    /// No orders.
    pub fn new(alloc: Global) -> Repeats {
        Repeats {
            firsts: Firsts::new(alloc),
            is_full: false,
        }
    }

    // Notes an item if an earlier one of the list has its number and is another order: the writer replies
    // `reused` to the later one, once the earlier has begun. If there is no memory to remember an order, no more are
    // reported.
    pub(crate) fn add_repeat(&mut self, note: &mut Note, item: u64, order: &Order) {
        if self.is_full {
            return;
        }
        let Ok(item) = u32::try_from(item) else {
            return;
        };
        let (id, sum) = (order.id(), sum_of(order));
        match self.firsts.earlier_or_add(First { id, item, sum }) {
            Ok(Some(first)) if first.sum != sum => {
                let first = first.item;
                note.add(format_args!(
                    "the number of item {first}, which is another order: behind that one it is told as reused"
                ));
            }
            Ok(_) => {}
            Err(_) => self.is_full = true,
        }
    }
}

// A sum over an order's unit and updates: two orders of one sum are the same but by a rare chance (FNV-1a).
fn sum_of(order: &Order) -> u32 {
    let mut sum = with_byte(0x811c_9dc5, order.unit());
    for &(location, byte) in order.updates() {
        sum = with_byte(with_byte(sum, location), byte);
    }
    sum
}

fn with_byte(sum: u32, byte: u8) -> u32 {
    (sum ^ u32::from(byte)).wrapping_mul(0x0100_0193)
}
