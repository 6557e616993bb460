//! The commands over a link (profile): what each does with its streams and the files that it is given, up to its
//! status.
//!
//! A crate of its own: it is proved beside the commands over files.
#![tactic(auto)]

pub mod address;
pub mod asked;
pub mod drive;
pub mod drive_files;
mod drive_lines;
pub mod follow;
pub mod journal_files;
pub mod lines;
pub mod link_command;
pub mod older;
pub mod problem;
pub mod read;
mod report_file;
mod report_lines;
mod report_output;
mod required;
pub mod stream;
pub mod survey;
pub mod survey_files;
mod words;
