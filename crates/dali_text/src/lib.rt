//! How things are printed (profile): the lines of orders, of faults, of frames, of a memory bank, of a journal and its
//! records, and of runs and the units after them; and words of others, as a terminal may show them.
//!
//! Each call writes to an `Output`, a writer that knows whether it has failed. It doesn't flush it, and answers only
//! that it has failed. No call takes memory.
//!
//! A crate of its own: lines are defined once for all commands, beside the writer that they tell of.
#![tactic(auto)]

mod bank_lines;
mod digits;
mod escaped;
mod fault_lines;
mod frame_line;
mod journal_lines;
mod order_lines;
mod output;
mod record_text;
mod run_lines;
mod unit_lines;

pub use bank_lines::write_bank;
pub use digits::{ByteDigits, WordDigits, write_bytes};
pub use escaped::{Escaped, Letter};
pub use fault_lines::{write_counted_fault, write_fault, write_placed_fault, write_single_fault};
pub use frame_line::write_frame;
pub use journal_lines::write_journal;
pub use order_lines::{write_order, write_tally};
pub use output::{Output, OutputFailed};
pub use record_text::RecordText;
pub use run_lines::write_run;
