use crate::notes::described::Described;
use crate::notes::kind::{Kind, blanks_of, is_blank};
use crate::notes::note::Note;
use crate::notes::position::Position;
use dali_input::{InputFault, Shallow, scenario_key as key, value_of_text};
use json::{MAX_DEPTH, Reader, Scratch};
use serde_json::Value as Json;
use std::alloc::Global;

// A mark that a text in UTF-8 may begin with, and JSON may not.
const MARK: &[u8] = b"\xef\xbb\xbf";

/// Why an input that is refused for a fault is no list of orders.
pub fn note_of_orders(alloc: Global, input: &[u8], fault: InputFault) -> Note {
    match fault {
        InputFault::Document => no_list_note(alloc, input),
        InputFault::Json if is_table_of_orders(alloc, input) => {
            let mut note = Note::new(alloc);
            note.add(
                "the input is a table, as CSV, and has to be JSON: make orders of it by orders_from_csv",
            );
            note
        }
        InputFault::Json
        | InputFault::TooBig
        | InputFault::Hex
        | InputFault::Memory
        | InputFault::File => note_of_json(alloc, input, fault),
    }
}

/// Why an input that is refused for a fault is no JSON: where it stops being any, how its characters are spelled, or
/// what it is instead; or that it is too big, if it was read up to one byte past its limit.
pub fn note_of_json(alloc: Global, input: &[u8], fault: InputFault) -> Note {
    let mut note = Note::new(alloc);
    match fault {
        InputFault::Json => note_no_json(alloc, &mut note, input),
        InputFault::TooBig => return note_of_size(alloc, input.len().saturating_sub(1)),
        InputFault::Document | InputFault::Hex | InputFault::Memory | InputFault::File => {}
    }
    note
}

/// Why an input is too big that may have this many bytes at most.
pub fn note_of_size(alloc: Global, most: usize) -> Note {
    let mut note = Note::new(alloc);
    note.add(format_args!("the input has more than {most} bytes, the most that it may have"));
    note
}

// Tells why an input is no JSON.
fn note_no_json(alloc: Global, note: &mut Note, input: &[u8]) {
    if let Some(words) = other_file(input) {
        note.add(words);
        return;
    }
    match Kind::of(alloc, without_mark(input)) {
        Some(kind @ (Kind::Journal | Kind::Bank | Kind::Table)) => {
            note.add(format_args!("the input is {kind}, and has to be JSON"))
        }
        Some(Kind::Array | Kind::Object) | None => note_spelling(alloc, note, input),
    }
}

// Whether an input is a table of which orders can be made.
fn is_table_of_orders(alloc: Global, input: &[u8]) -> bool {
    other_file(input).is_none() && Kind::of(alloc, without_mark(input)) == Some(Kind::Table)
}

// An input without the mark that it may begin with.
fn without_mark(input: &[u8]) -> &[u8] {
    input.strip_prefix(MARK).unwrap_or(input)
}

// The note on an input that is a file of another program, if its first bytes show that.
fn other_file(input: &[u8]) -> Option<&'static str> {
    let text = without_mark(input);
    let (_, text) = text.split_at(blanks_of(text).min(text.len()));
    match text {
        [b'P', b'K', 3, 4, ..] | [0xd0, 0xcf, 0x11, 0xe0, ..] => {
            Some(
                "the input is a workbook of a spreadsheet, and has to be JSON: save its sheet as CSV in UTF-8, and \
                make orders of it by orders_from_csv",
            )
        }
        [b'<', b'?', ..] => Some("the input is XML, and has to be JSON"),
        [b'<', b'!' | b'h' | b'H', ..] => {
            Some("the input is HTML, as of a page on the web, and has to be JSON")
        }
        [b'<', ..] => Some("the input is XML or HTML, and has to be JSON"),
        _ => None,
    }
}

// Tells why an input that looks like nothing else is no JSON.
fn note_spelling(alloc: Global, note: &mut Note, input: &[u8]) {
    match input {
        [] => note.add("the input is empty, and has to be JSON"),
        [0xff, 0xfe, ..] | [0xfe, 0xff, ..] => {
            note.add("the input is in UTF-16, and has to be in UTF-8")
        }
        [0xef, 0xbb, 0xbf, ..] => {
            note.add("the input begins with a byte order mark, and has to be UTF-8 without one")
        }
        _ => note_place(alloc, note, input),
    }
}

// Notes where an input stops being JSON, and why, if its bytes show it.
fn note_place(alloc: Global, note: &mut Note, input: &[u8]) {
    if let Err(error) = str::from_utf8(input) {
        note_no_text(note, input, error.valid_up_to());
        return;
    }
    let Some(stop) = stop_of(alloc, input) else {
        return;
    };
    if is_cut_short(alloc, input, stop) {
        let position = Position::behind(input, input.len());
        note.add(format_args!("{position}: the input ends before its JSON does"));
        return;
    }
    let fault = stop.min(input.len().saturating_sub(1));
    let count = fault.saturating_add(blanks_of(&input[fault..]));
    let (position, words) = (
        Position::behind(input, count),
        trouble_at(alloc, input, count),
    );
    note.add(format_args!("{position}: {words}"));
}

// How many bytes come before the place where an input stops being JSON. None if it doesn't, or if there is no memory to
// tell.
fn stop_of(alloc: Global, input: &[u8]) -> Option<usize> {
    let text = str::from_utf8(input).ok()?;
    value_of_text(text, &mut Scratch::new(alloc)).ok()?.err()
}

// Whether an input that stops being JSON there ends where more had to come: after all that is there, or in the middle
// of a text, a number or a word that may be there.
fn is_cut_short(alloc: Global, input: &[u8], stop: usize) -> bool {
    let (front, rest) = input.split_at(stop.min(input.len()));
    let goes_on = match (last_of(front), rest) {
        (_, []) => return true,
        (_, [b'[' | b'{', ..]) => false,
        (Some(b'{'), [first, ..]) => *first == b'"',
        (Some(last), _) => matches!(last, b'[' | b',' | b':'),
        (None, _) => true,
    };
    goes_on && Json::from_slice(alloc, rest).is_err_and(|error| error.is_eof())
}

// Notes the byte after the first `count` that is no UTF-8.
fn note_no_text(note: &mut Note, input: &[u8], count: usize) {
    let position = Position::behind(input, count);
    match &input[count.min(input.len())..] {
        [byte @ 0xa0.., ..] => note.add(format_args!(
            "{position}: the byte {byte:02X}h is a letter in Latin-1, and the input has to be in UTF-8"
        )),
        [byte, ..] => note.add(format_args!(
            "{position}: the byte {byte:02X}h is no UTF-8 here, which the input has to be in"
        )),
        [] => {}
    }
}

// Why an input stops being JSON after its first `count` bytes.
fn trouble_at(alloc: Global, input: &[u8], count: usize) -> &'static str {
    let (front, rest) = input.split_at(count.min(input.len()));
    let value = without_comma(front);
    match (last_of(front), rest) {
        (_, [b'/', b'/' | b'*', ..] | [b'#', ..]) => "here a comment begins, and JSON has none",
        (_, [b'\'', ..]) => "here stands a single quote, and JSON has double quotes alone",
        (_, [0xe2, 0x80, 0x98..=0x9f, ..] | [0xc2, 0xab | 0xbb, ..]) => {
            "here stands a curly quote, as of a word processor, and JSON has straight double quotes alone"
        }
        (_, [b'N', b'a', b'N', ..] | [b'I', b'n', b'f', ..] | [b'-', b'I', b'n', b'f', ..]) => {
            "here stands a number that is none, as NaN, and JSON has none such: null writes a field as unknown"
        }
        (
            _,
            [b'N', b'o', b'n', b'e', ..]
            | [b'T', b'r', b'u', b'e', ..]
            | [b'F', b'a', b'l', b's', b'e', ..],
        ) => { "here stands a word of Python, as None, and JSON has null, true and false" }
        (Some(b','), [b']' | b'}', ..]) => "the comma before this bracket is one too many",
        (_, [next, ..]) if is_value(alloc, value) => match next {
            b'{' | b'[' | b',' => {
                "here a second value follows, as in JSON lines, and the input has to be one: orders stand in one array"
            }
            _ => "here the input goes on behind its JSON",
        },
        _ => "here the input is no JSON any more, or nests too deep",
    }
}

// Whether the bytes are an array or an object of JSON.
fn is_value(alloc: Global, front: &[u8]) -> bool {
    let Ok(text) = str::from_utf8(front) else {
        return false;
    };
    matches!(
        value_of_text(text, &mut Scratch::new(alloc)),
        Ok(Ok(Shallow::Array | Shallow::Object))
    )
}

// The bytes without the blanks and commas that they end in.
fn without_comma(front: &[u8]) -> &[u8] {
    match front
        .iter()
        .rposition(|byte| !is_blank(*byte) && *byte != b',')
    {
        Some(last) => front.split_at(last.saturating_add(1).min(front.len())).0,
        None => &[],
    }
}

// The last byte that is no blank.
fn last_of(front: &[u8]) -> Option<u8> {
    front.iter().rev().find(|byte| !is_blank(**byte)).copied()
}

// The kind of JSON of an input that is no array.
fn no_list_note(alloc: Global, input: &[u8]) -> Note {
    let mut note = Note::new(alloc);
    let Ok(text) = str::from_utf8(input) else {
        return note;
    };
    let mut scratch = Scratch::new(alloc);
    match value_of_text(text, &mut scratch) {
        Ok(Ok(Shallow::Object)) => note_object(alloc, &mut note, text),
        Ok(Ok(value)) => {
            let found = Described(Some(value));
            note.add(format_args!("the input is {found}, and orders are an array"))
        }
        Ok(Err(_)) | Err(_) => {}
    }
    note
}

// Notes what object is there in place of an array of orders.
fn note_object(alloc: Global, note: &mut Note, text: &str) {
    let (mut has_events, mut has_order, mut has_unit) = (false, false, false);
    let mut scratch = Scratch::new(alloc);
    let Ok(mut reader) = Reader::new(text, &mut scratch) else {
        return;
    };
    let _brace = reader.next();
    for _ in 0..text.len() {
        let Ok(Some(found)) = reader.next_key() else {
            break;
        };
        has_events |= found == key::EVENTS;
        has_order |= found == "order";
        has_unit |= found == "unit";
        if reader.skip_value(MAX_DEPTH).is_err() {
            break;
        }
    }
    note.add(if has_events {
        "the input is an object with events, which `run` takes, and orders are an array"
    } else if has_order && has_unit {
        "the input is one order, and orders are an array: it stands between [ and ]"
    } else {
        "the input is an object, and orders are an array"
    });
}
