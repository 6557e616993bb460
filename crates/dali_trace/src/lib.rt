//! The happenings while orders are carried out (profile), and as definitions which traces of them are legal, which
//! follow the plan, what they say of the units, and worked traces on both sides of each rule.
//!
//! A crate of its own: a reader has to believe its definitions, and no code of a writer.
#![tactic(auto)]

mod decimal;
mod fault;
mod happening;

pub use decimal::{Decimal, decimal_of};
pub use fault::{DriveFault, RunFault};
pub use happening::{Event, Happening, Reply, ReplyText, Want};
