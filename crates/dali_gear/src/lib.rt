//! Simulated control gear: units with memory banks 1 and 2 (IEC 62386-102: memory access), and a
//! bus that reaches them and may lose frames and answers.
//!
//! Only `Unit::blank` and `Unit::with_bank1` take memory.
//!
//! A crate of its own: the simulated units are one of many kinds that `dali_bus` allows, and no law rests on them.
#![tactic(auto)]

mod bank;
mod fate;
mod fault;
mod sim_bus;
mod unit;

pub use dali_bus::{Bus, laws};
pub use fate::Fate;
pub use fault::GearFault;
pub use sim_bus::{SimBus, is_free};
pub use unit::{LEAST_BANK, MOST_ADDRESS, MOST_BANK, Unit};
