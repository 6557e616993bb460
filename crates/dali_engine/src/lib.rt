//! A writer of orders, and runs of it over a bus (profile). Its happenings are a legal trace, whatever a bus loses and
//! whenever the program is stopped: so the laws of legal traces hold of it.
//!
//! A crate of its own: it is proved beside the texts and inputs, which need no writer.
#![tactic(auto)]

mod phase;
mod runs;
mod stops;
mod writer;

pub use dali_laws::laws;
pub use dali_trace::{Event, Happening, Reply, RunFault, Want};
pub use dali_write::{Cause, Pace};
pub use runs::{Outcome, run, run_sim, run_sim_with_pace, run_with_pace};
pub use writer::{Writer, known_reply};
