//! The reports of drives and of verifications (profile): lines of JSON that give the result of each order. And the
//! progress of a command that a person watches, if asked for.
//!
//! A crate of its own: reports and progress need a drive, and the texts of a file need none.
#![tactic(auto)]

mod attempt;
mod differences;
mod expected;
mod found_units;
pub mod laws;
mod line;
mod meter;
mod outcome;
mod progress;
mod progress_line;
mod report;
mod seen;
mod tally;
mod watch_state;
mod watched;

pub use outcome::Outcome;
pub use progress::{Progress, Watched, progress_of};
pub use report::Report;
pub use seen::{LINE_LIMIT, Seen, look_at, run_behind};
pub use watched::{Cleared, Counted};
