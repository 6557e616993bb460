use crate::notes::note::Note;
use dali_text::{Escaped, Letter};
use std::alloc::Global;

/// Why an argument is no word of a frame: the first character that is no hexadecimal digit, or how many it has.
pub fn note_of_word(alloc: Global, argument: &str) -> Note {
    let mut note = Note::new(alloc);
    let told = Escaped::Cut(argument);
    for (count, letter) in argument.chars().enumerate() {
        if !letter.is_ascii_hexdigit() {
            let (number, letter) = (count.saturating_add(1), Letter(letter));
            note.add(format_args!(
                "the argument \"{told}\": its character {number} is \"{letter}\", and a word is four hexadecimal digits"
            ));
            return note;
        }
    }
    let count = argument.len();
    note.add(format_args!(
        "the argument \"{told}\": it has {count} hexadecimal digits, and a word is four"
    ));
    note
}
