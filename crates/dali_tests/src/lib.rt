//! Tests of the libraries up to the drive through their public calls alone, as whoever uses them calls them.
//!
//! Tables of cases are statics: a function is proved with one borrow of a static, and of a constant with one for each
//! text in it. Other runs, with all that they print, are in examples/run.cases.
//!
//! A crate of its own: a crate with tests is proved twice, so tests are apart.
#![tactic(auto)]

#[cfg(test)]
mod address;
#[cfg(test)]
mod bank;
#[cfg(test)]
mod driving;
#[cfg(test)]
mod frame;
#[cfg(test)]
mod gear;
#[cfg(test)]
mod journal;
#[cfg(test)]
mod own_bus;
#[cfg(test)]
mod store_files;
#[cfg(test)]
mod streams;
#[cfg(test)]
mod worked_drives;
#[cfg(test)]
mod write;
#[cfg(test)]
mod writer;
