//! Which job a command line asks for (profile).
//!
//! A crate of its own: it alone needs `clap`, and the commands over a link take what it gives.
#![tactic(auto)]

mod commands;
mod job;
mod link_command;
mod link_in;
mod refusal;
mod usages;
mod values;

pub use job::{Job, job_of};
pub use link_command::{AddressCommand, Asked, DriveTask, LinkCommand, Required};
pub use refusal::Refusal;
