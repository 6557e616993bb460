//! The journal of a writer (profile): which orders it began, and the progress of each.
//!
//! A journal is a list of records, held as their bytes. It can always end an order that it has begun, without taking
//! memory. Only `Journal::load`, `load_vec`, `behind`, `reserve` and `to_bytes` take memory. It is written in version 2
//! alone, and read in both.
//!
//! A crate of its own: records and their bytes depend on orders alone, and not on what is sent.
#![tactic(auto)]

mod behind;
mod fault;
mod group;
mod index;
mod journal;
mod kept;
pub mod laws;
mod loading;
mod read;
mod record;
mod settled;
mod standing;
mod version;
mod widen;

pub use behind::JoinFault;
pub use fault::{JournalFault, NoMemory};
pub use journal::{Journal, MOST_ORDERS};
pub use kept::{Kept, Progress};
pub use read::Piece;
pub use record::{Code, Record};
pub use standing::Standing;
pub use version::Version;
