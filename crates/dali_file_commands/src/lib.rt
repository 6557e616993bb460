//! The commands over a file and over a word (profile): what each does with its input and its output, up to its status,
//! and its notes for a person.
//!
//! A crate of its own: it is proved beside the commands over a link, which take longest.
#![tactic(auto)]

pub mod check;
pub mod fields;
mod file_command;
pub mod frame;
pub mod journal;
pub mod known;
pub mod notes;
pub mod run_scenario;
pub mod show;

pub use file_command::FileCommand;
