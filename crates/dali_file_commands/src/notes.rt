//! The notes for a person that go with an answer (profile): where in an input a fault is, what is there, and what has
//! to be there. The lines are for standard error; an answer never depends on them.
//!
//! A `Note` holds the lines on one fault. It is written to an `Output` whose failure is ignored: later calls write
//! nothing more there then.

mod accepted_note;
mod bank_note;
mod described;
mod failure;
mod field_rule;
mod first_lines;
mod firsts;
mod flaw;
mod front;
mod item_note;
mod journal_note;
mod json_note;
mod kind;
mod near_key;
mod note;
mod position;
mod repeats;
mod scenario_note;
mod scenario_rule;
mod setup_note;
mod told_key;
mod word_note;

pub use accepted_note::note_of_accepted;
pub use bank_note::note_of_bank;
pub use failure::write_noted_failure;
pub use first_lines::FirstLines;
pub use item_note::note_of_item;
pub use journal_note::note_of_journal;
pub use json_note::{note_of_json, note_of_orders, note_of_size};
pub use kind::Kind;
pub use note::Note;
pub use repeats::Repeats;
pub use scenario_note::note_of_scenario;
pub use setup_note::note_of_setup;
pub use word_note::note_of_word;
