//! The place where the bytes of a journal are kept, and what a stop may leave of them at any moment.
//!
//! A crate of its own: only it calls the system for a journal, and a drive takes any store.
#![tactic(auto)]

mod file_store;
mod files;
mod journal_file;
mod memory;
mod new_file;
mod opening;
mod place;
mod read_file;
mod store;
mod text_file;

pub use file_store::FileStore;
pub use files::advice;
pub use memory::MemoryStore;
pub use opening::{OpenFault, open};
pub use read_file::{ReadFile, settle_read};
pub use store::{Store, StoreFault, append_all};
