use crate::notes::described::Described;
use crate::notes::near_key::near_key;
use crate::notes::note::Note;
use crate::notes::scenario_rule::{
    Member, event_members, fate_members, scenario_members, unit_members,
};
use crate::notes::told_key::ToldKey;
use dali_input::{Shallow, scenario_key as key};
use serde_json::Value as Json;
use std::alloc::Global;
use std::fmt;

// The place of an object of a scenario: the scenario itself, or a place of one of its lists, counted from 0.
#[derive(Clone, Copy)]
enum Path {
    Whole,
    At(&'static str, usize),
}

impl fmt::Display for Path {
    fn fmt<W: fmt::Write>(&self, f: &mut fmt::Formatter<W>) -> fmt::Result {
        match *self {
            Path::Whole => f.write_str("the scenario"),
            Path::At(list, place) => write!(f, "{list}[{place}]"),
        }
    }
}

// The words before a key in the line about it.
#[derive(Clone, Copy)]
struct Before(Path);

impl fmt::Display for Before {
    fn fmt<W: fmt::Write>(&self, f: &mut fmt::Formatter<W>) -> fmt::Result {
        match self.0 {
            Path::Whole => Ok(()),
            Path::At(list, place) => write!(f, "{list}[{place}]."),
        }
    }
}

/// The parts of a JSON value that aren't of the form of a scenario: a line for each key and each value that can't be
/// so.
pub fn note_of_scenario(alloc: Global, json: &Json) -> Note {
    let mut note = Note::new(alloc);
    if json.as_array().is_some() {
        note.add(
            "the input is an array: orders are for `check` and `drive`, and a scenario is an object",
        );
        return note;
    }
    note_object(&mut note, Path::Whole, json, &scenario_members());
    note_each(&mut note, key::UNITS, json.get(key::UNITS), &unit_members());
    note_each(&mut note, key::FATES, json.get(key::FATES), &fate_members());
    note_each(
        &mut note,
        key::EVENTS,
        json.get(key::EVENTS),
        &event_members(),
    );
    note_events(&mut note, json.get(key::EVENTS));
    note
}

// Tells what is wrong with each object of a list.
fn note_each(note: &mut Note, list: &'static str, json: Option<&Json>, members: &[Member]) {
    let Some(items) = json.and_then(Json::as_array) else {
        return;
    };
    for (place, item) in items.iter().enumerate() {
        if note.is_full() {
            return;
        }
        note_object(note, Path::At(list, place), item, members);
    }
}

// Notes what is wrong with an object: its keys, and then the values at them.
fn note_object(note: &mut Note, path: Path, json: &Json, members: &[Member]) {
    if json.as_object().is_none() {
        let found = Described(Some(Shallow::of(json)));
        note.add(format_args!("{path}: {found}, and it is an object"));
        return;
    }
    note_keys(note, path, json, members);
    for &member in members {
        note_member(note, path, json, member);
    }
}

// Notes each key of an object that such an object doesn't have, with the one that may be meant.
fn note_keys(note: &mut Note, path: Path, json: &Json, members: &[Member]) {
    let Some(object) = json.as_object() else {
        return;
    };
    for (key, _) in object.iter() {
        if note.is_full() {
            return;
        }
        note_key(note, path, key.as_str(), members);
    }
}

// Notes a key, if none of the members has it.
fn note_key(note: &mut Note, path: Path, key: &str, members: &[Member]) {
    let mut meant = None;
    for member in members {
        if member.key == key {
            return;
        }
        meant = meant.or(near_key(key, &[member.key]));
    }
    let (before, told) = (Before(path), ToldKey(key));
    match meant {
        Some(meant) => note.add(format_args!("{before}{told}: no such key ({meant}?)")),
        None => note.add(format_args!("{before}{told}: no such key")),
    }
}

// Notes what is wrong with the value at a key.
fn note_member(note: &mut Note, path: Path, json: &Json, member: Member) {
    let value = json.get(member.key);
    let suits = match value {
        Some(value) => member.rule.suits(value),
        None => !member.is_required,
    };
    if !suits {
        let (before, key, found, rule) = (
            Before(path),
            member.key,
            Described(value.map(Shallow::of)),
            member.rule,
        );
        note.add(format_args!("{before}{key}: {found}, and it is {rule}"));
    }
}

// Tells each event that doesn't say one thing.
fn note_events(note: &mut Note, json: Option<&Json>) {
    let Some(items) = json.and_then(Json::as_array) else {
        return;
    };
    for (place, item) in items.iter().enumerate() {
        note_event(note, place, item);
    }
}

// Tells an event that doesn't say one thing.
fn note_event(note: &mut Note, place: usize, json: &Json) {
    let mut count = 0u8;
    for key in [key::SUBMIT, key::STEPS, key::STOP, key::POWER] {
        if json.get(key).is_some() {
            count = count.saturating_add(1);
        }
    }
    let moves = json.get(key::MOMENT).is_some() && json.get(key::SUBMIT).is_none();
    match json.as_object() {
        Some(_) if count != 1 => {
            note.add(format_args!(
                "events[{place}]: an event has one of submit, steps, stop and power, and this one has {count}"
            ))
        }
        Some(_) if moves => note.add(format_args!(
            "events[{place}].moment: only a submit has a moment beside it"
        )),
        _ => {}
    }
}
