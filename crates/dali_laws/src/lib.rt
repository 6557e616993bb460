//! The laws of each legal trace, whatever a bus loses and whenever the program is stopped (profile).
//!
//! A crate of its own: the laws rest on the definition of legal traces alone, and not on the writer.
#![tactic(auto)]

pub mod causes;
pub mod laws;
pub mod noise;
