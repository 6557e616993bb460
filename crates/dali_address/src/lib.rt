//! Short addresses for control gear that has none (IEC 62386-102: special commands): the frames of
//! the search by random addresses, what units may do with them, a run, which gives or lists them,
//! and a census, which counts units.
//!
//! It takes no memory.
//!
//! A crate of its own: addresses are searched for and given by other frames than memory is written, with units and
//! laws of their own.
#![tactic(auto)]

mod addressing;
mod asks;
mod bus;
mod call;
mod carry;
mod census;
mod change;
mod ending;
mod evidence;
pub mod laws;
mod ledger;
mod phase;
mod reading;
mod round;
mod search;
mod serve;
mod sharing;
mod short_set;
mod stage;
mod tallied;
mod task;
mod vacancy;
mod walk;

pub use addressing::Addressing;
pub use bus::{AddressBus, AddressDesk};
pub use call::{Call, word_of_call};
pub use carry::serve_census;
pub use census::{Census, CensusEnd, CensusWant};
pub use serve::serve_addressing;
pub use sharing::Sharing;
pub use task::{Line, Random, Summary, Task, Want};
