use crate::notes::json_note::note_of_size;
use crate::notes::kind::{Kind, is_blank};
use crate::notes::note::Note;
use crate::notes::position::Position;
use dali_gear::MOST_BANK;
use dali_input::TEXT_LIMIT;
use std::alloc::Global;

/// Why an input is no text of a bank: what it is instead, the first character that is no hexadecimal digit, or how many
/// digits it has. Nothing if it is one.
pub fn note_of_bank(alloc: Global, input: &[u8]) -> Note {
    if input.len() > TEXT_LIMIT as usize {
        return note_of_size(alloc, TEXT_LIMIT as usize);
    }
    let mut note = Note::new(alloc);
    match Kind::of(alloc, input) {
        Some(Kind::Bank) => note_size(&mut note, input),
        Some(kind @ (Kind::Array | Kind::Object | Kind::Journal)) => note.add(format_args!(
            "the input is {kind}, and the bytes of a bank are hexadecimal digits"
        )),
        Some(Kind::Table) | None => note_letter(&mut note, input),
    }
    note
}

// Notes if a text of hexadecimal digits has an odd number of them, or too many.
fn note_size(note: &mut Note, input: &[u8]) {
    let count = input.iter().filter(|byte| !is_blank(**byte)).count();
    let bytes = count / 2;
    if count % 2 == 1 {
        note.add(format_args!("the input has {count} hexadecimal digits, and each byte has two"));
    } else if bytes > MOST_BANK {
        let excess = bytes - MOST_BANK;
        note.add(format_args!(
            "the input has {bytes} bytes, {excess} too many: a bank has at most {MOST_BANK}"
        ));
    }
}

// Tells the first byte of a text that is neither a hexadecimal digit nor a blank.
fn note_letter(note: &mut Note, input: &[u8]) {
    for (count, &byte) in input.iter().enumerate() {
        if !byte.is_ascii_hexdigit() && !is_blank(byte) {
            tell_letter(note, Position::behind(input, count), byte);
            return;
        }
    }
}

// Tells a byte that is no hexadecimal digit.
fn tell_letter(note: &mut Note, position: Position<'_>, byte: u8) {
    match byte {
        b' '..=b'~' => {
            let letter = char::from(byte);
            note.add(format_args!(
                "{position}: the character \"{letter}\" is no hexadecimal digit"
            ));
        }
        _ => note.add(format_args!("{position}: the byte {byte:02X}h is no hexadecimal digit")),
    }
}
