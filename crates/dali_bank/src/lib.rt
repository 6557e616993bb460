//! Luminaire data in memory bank 1 of DALI control gear: fields, drafts and orders, and how the
//! fields of a bank are shown.
//!
//! The layout is that of IEC 62386-251 (DiiA Part 251), content format 0003h. No call takes memory.
//!
//! A crate of its own: the layout of the standard is used by writers, readers and texts, and depends on no bus.
#![tactic(auto)]

mod blank;
mod draft;
mod fault;
mod field;
mod gtin;
pub mod laws;
mod order;
mod shown;
mod spelling;
mod text;
mod value;

pub use blank::BLANK;
pub use draft::Draft;
pub use fault::BankFault;
pub use field::Field;
pub use order::{MOST_UPDATES, Order, is_writable};
pub use shown::{Shown, read_field};
pub use value::Value;
