use crate::notes::item_note::note_of_item;
use crate::notes::note::Note;
use dali_bank::Field;
use dali_gear::{GearFault, LEAST_BANK, MOST_ADDRESS, MOST_BANK};
use dali_input::{EventPlan, Fault, InputFault, Item, MOST_EVENTS, Scenario, UnitPlan};
use serde_json::Value as Json;
use std::alloc::Global;

/// Why a scenario can't be set up: what is wrong with the unit or the order that the fault names.
pub fn note_of_setup(alloc: Global, scenario: &Scenario<'_>, fault: Fault) -> Note {
    let mut note = Note::new(alloc);
    match fault {
        Fault::Unit(number, fault) => {
            if let Some(unit) = nth(&scenario.units, number) {
                note_unit(&mut note, unit, fault);
            }
        }
        Fault::Order(number, fault) => {
            if let Some(EventPlan::Submit(order, _)) = nth(&scenario.events, number) {
                let keys = keys_of(alloc, order);
                return note_of_item(alloc, &Item::of(order), keys.as_slice(), fault);
            }
        }
        Fault::SameAddress => note_same_address(&mut note, &scenario.units),
        Fault::Input(InputFault::TooBig) => note.add(format_args!(
            "the scenario is over {MOST_EVENTS} events or fates, each `steps` and each fate counted as often as it \
            stands for"
        )),
        _ => {}
    }
    note
}

// The keys of an object that orders don't have. Those for which there is no memory are left out.
fn keys_of(alloc: Global, json: &Json) -> Vec<&str> {
    let mut keys = Vec::new(alloc);
    if let Some(object) = json.as_object() {
        for (key, _) in object.iter() {
            if !is_of_orders(key.as_str()) {
                let _no_memory = keys.push(key.as_str()).is_err();
            }
        }
    }
    keys
}

// Whether orders have a key.
fn is_of_orders(key: &str) -> bool {
    for field in Field::ALL {
        if field.key() == key {
            return true;
        }
    }
    key == "order" || key == "unit"
}

// The one of some things that has this number, counted from 1.
fn nth<T>(things: &[T], number: u64) -> Option<&T> {
    match usize::try_from(number.checked_sub(1)?) {
        Ok(place) => things.get(place),
        Err(_) => None,
    }
}

// Tells why a unit can't be made.
fn note_unit(note: &mut Note, unit: &UnitPlan, fault: GearFault) {
    let (address, length) = (unit.address, unit.bank.len());
    match fault {
        GearFault::Address => {
            note.add(format_args!(
                "address: the number {address}, and a short address is 0 to {MOST_ADDRESS}"
            ))
        }
        GearFault::Size => note.add(format_args!(
            "bank: {length} bytes, and it has {LEAST_BANK} to {MOST_BANK}, the first of which is the last location"
        )),
        GearFault::Fixed => note.add("fixed: the locations rise, from 03h to the last of the bank"),
        GearFault::NoMemory | GearFault::SameAddress => {}
    }
}

// Tells the first short address that two units have.
fn note_same_address(note: &mut Note, units: &[UnitPlan]) {
    let mut seen = 0u64;
    for unit in units {
        let address = unit.address;
        let bit = 1u64.checked_shl(u32::from(address)).unwrap_or(0);
        if seen & bit != 0 {
            note.add(format_args!("units: two have the short address {address}"));
            return;
        }
        seen |= bit;
    }
}
