//! Control gear on a DALI bus: the effects of a frame on a unit that hears it and of a bus on its units (IEC 62386-102:
//! memory access), and the laws of worlds of units.
//!
//! It takes no memory.
//!
//! A crate of its own: all promises rest on what units and a bus may do, so it can be read and judged by itself.
#![tactic(auto)]

mod bus;
pub mod laws;

pub use bus::Bus;
