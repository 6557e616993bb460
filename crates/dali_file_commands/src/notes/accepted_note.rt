use crate::notes::item_note::note_key;
use crate::notes::note::Note;
use crate::notes::repeats::Repeats;
use dali_bank::{Field, Order};
use std::alloc::Global;

/// The note on an item that is accepted, if there is something: that an earlier one of the list has its number and is
/// another order, which of its keys occur there again, and that its GTIN is zeros alone.
pub fn note_of_accepted(
    alloc: Global,
    item: u64,
    order: &Order,
    keys: &[&str],
    repeats: &mut Repeats,
) -> Option<Note> {
    let mut note = Note::of_order(alloc, Some(order.id()));
    repeats.add_repeat(&mut note, item, order);
    for &key in keys {
        note_key(&mut note, key);
    }
    if has_gtin_of_zeros(order) {
        note.add("gtin: all of its digits are zeros, which is no article's number");
    }
    if note.has_a_line() { Some(note) } else { None }
}

// Whether an order writes zeros alone as the GTIN.
fn has_gtin_of_zeros(order: &Order) -> bool {
    let (first, length) = (Field::Gtin.first(), Field::Gtin.length());
    let mut zeros = 0u8;
    for &(location, byte) in order.updates() {
        let is_of_gtin = location >= first && location < first.saturating_add(length);
        if is_of_gtin && byte == 0 {
            zeros = zeros.saturating_add(1);
        }
    }
    zeros == length
}
