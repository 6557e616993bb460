//! Reading of memory bank 1, several locations at a time (profile, over IEC 62386-102: memory access): which blocks of
//! locations are read, by which frames, and what their answers show.
//!
//! A crate of its own: units are read and verified without a writer and its journal.
#![tactic(auto)]

mod finding;
pub mod laws;
mod places;

pub use dali_write::Block;
pub use finding::{Finding, compare, told_bytes};
pub use places::Places;
