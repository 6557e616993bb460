use crate::notes::described::Described;
use crate::notes::field_rule::FieldRule;
use crate::notes::flaw::Flaw;
use crate::notes::near_key::near_key;
use crate::notes::note::Note;
use crate::notes::told_key::ToldKey;
use dali_bank::{BankFault, Field};
use dali_gear::MOST_ADDRESS;
use dali_input::{Item, ItemFault, Members, Shallow, field_fault};
use std::alloc::Global;

/// All that is wrong with an item that is refused for a fault, a line each. Of its keys, those that orders don't have,
/// and those that occur there again, are among these.
pub fn note_of_item(alloc: Global, item: &Item<'_>, keys: &[&str], fault: ItemFault) -> Note {
    let members = &item.members;
    let mut note = Note::of_order(alloc, whole(members.order));
    let Shallow::Object = item.value else {
        let found = Described(Some(item.value));
        note.add(format_args!("{found}, and an order is an object with order, unit and fields"));
        return note;
    };
    note_numbers(&mut note, members);
    for &key in keys {
        note_key(&mut note, key);
    }
    note_address(&mut note, members);
    for field in Field::ALL {
        note_field(&mut note, field, members.field(field));
    }
    note_whole(&mut note, members, fault);
    note
}

// The whole number that is there.
fn whole(value: Option<Shallow<'_>>) -> Option<u64> {
    match value {
        Some(Shallow::Number(number)) => number.as_u64(),
        _ => None,
    }
}

// Notes if the order's or the unit's number is none.
fn note_numbers(note: &mut Note, members: &Members<'_>) {
    note_number(note, "order", members.order, u64::MAX);
    note_number(note, "unit", members.unit, u64::from(MOST_ADDRESS));
}

// Notes if the value at a key is no whole number.
fn note_number(note: &mut Note, key: &str, value: Option<Shallow<'_>>, most: u64) {
    if whole(value).is_none() {
        let found = Described(value);
        note.add(format_args!("{key}: {found}, and it is a whole number from 0 to {most}"));
    }
}

/// Notes a key that orders don't have, or that occurs there again.
pub(crate) fn note_key(note: &mut Note, key: &str) {
    if key == "order" || key == "unit" {
        note_again(note, key);
        return;
    }
    let mut meant = near_key(key, &["order", "unit"]);
    for field in Field::ALL {
        if field.key() == key {
            note_again(note, key);
            return;
        }
        meant = meant.or(near_key(key, &[field.key()]));
    }
    let told = ToldKey(key);
    match meant {
        Some(meant) => note.add(format_args!("{told}: no such key ({meant}?)")),
        None => note.add(format_args!("{told}: no such key")),
    }
}

// Notes that a key occurs there again.
fn note_again(note: &mut Note, key: &str) {
    note.add(format_args!("{key}: the key stands there more than once, and the last one counts"));
}

// Notes if a unit's number is no short address.
fn note_address(note: &mut Note, members: &Members<'_>) {
    match whole(members.unit) {
        Some(unit) if unit > u64::from(MOST_ADDRESS) => {
            note.add(format_args!(
                "unit: the number {unit}, and a short address is 0 to {MOST_ADDRESS}"
            ));
        }
        _ => {}
    }
}

// Notes if a field doesn't take what is given to it.
fn note_field(note: &mut Note, field: Field, value: Option<Shallow<'_>>) {
    let Some(given) = value else {
        return;
    };
    if field_fault(field, given).is_none() {
        return;
    }
    let (key, found, rule) = (field.key(), Described(value), FieldRule(field));
    match given {
        Shallow::Text(text) => {
            let flaw = Flaw { field, text };
            note.add(format_args!("{key}: {found}, and it is {rule}{flaw}"));
        }
        Shallow::Number(_) if field == Field::Year && is_whole_year(value) => {
            let digits = whole(value).unwrap_or(0) % 100;
            note.add(format_args!("{key}: {found}, and it is {rule}; two digits: {digits:02}"));
        }
        _ => note.add(format_args!("{key}: {found}, and it is {rule}")),
    }
}

// Whether a number is a year with its century.
fn is_whole_year(value: Option<Shallow<'_>>) -> bool {
    matches!(whole(value), Some(1900..=2199))
}

// Tells what is wrong with the fields together.
fn note_whole(note: &mut Note, members: &Members<'_>, fault: ItemFault) {
    match fault {
        ItemFault::Bank(BankFault::Voltage) => {
            let (least, most) = (
                Described(members.field(Field::MinVoltage)),
                Described(members.field(Field::MaxVoltage)),
            );
            note.add(format_args!("min_voltage: {least}, which is over max_voltage: {most}"))
        }
        ItemFault::Bank(BankFault::Empty) => {
            note.add("no field is given, and an order has one at least, as gtin or year")
        }
        _ => {}
    }
}
