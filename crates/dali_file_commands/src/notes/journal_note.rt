use crate::notes::kind::Kind;
use crate::notes::note::Note;
use dali_journal::JournalFault;
use std::alloc::Global;

/// Why an input that looks like this is no journal, if it is refused for a fault.
pub fn note_of_journal(alloc: Global, kind: Option<Kind>, fault: JournalFault) -> Note {
    let mut note = Note::new(alloc);
    match (kind, fault) {
        (Some(kind), JournalFault::Record(0)) if kind != Kind::Journal => {
            note.add(format_args!("the input is {kind}, and no journal"))
        }
        (_, JournalFault::Header) => note.add(
            "the input begins with 44h, as a journal of version 2 does, and not with the whole header 44 42 31 02",
        ),
        (_, JournalFault::Record(place)) => note.add(format_args!(
            "byte {place}, counted from 0: here is neither a record (B, O, E or C, and what belongs to \
            it) nor, at the end, a part of one"
        )),
        (_, JournalFault::Sequence(place)) => note.add(format_args!(
            "byte {place}, counted from 0: a record that may not follow: an order begins (B), its unit is \
            opened (O), it ends (E), and a left unit is closed (C)"
        )),
        (_, JournalFault::Repeated(place)) => note.add(format_args!(
            "byte {place}, counted from 0: an order begins whose number an earlier one has"
        )),
        (_, JournalFault::Full(place)) => note.add(format_args!(
            "byte {place}, counted from 0: an order begins, and there are as many before it as a journal may have"
        )),
        (_, JournalFault::Limit | JournalFault::NoMemory) => {}
    }
    note
}
