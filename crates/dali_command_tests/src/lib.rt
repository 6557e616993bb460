//! Tests of the commands and of the command line through their public calls alone, as whoever uses them calls them;
//! those of the texts and the inputs go through a command.
//! Tables of cases are statics: a function is proved with one borrow of a static, and of a constant with one for each
//! text in it.
//!
//! A crate of its own: a crate with tests is proved twice, so tests are apart; these are proved beside those of the
//! libraries.
#![tactic(auto)]

#[cfg(test)]
mod drive_files;
#[cfg(test)]
mod drive_memory;
#[cfg(test)]
mod file_streams;
#[cfg(test)]
mod follow_memory;
#[cfg(test)]
mod job;
#[cfg(test)]
mod older_memory;
#[cfg(test)]
mod streams;
