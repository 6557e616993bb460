//! The contents of files: bytes read up to a limit, banks in hexadecimal digits, JSON values, orders, journals, and
//! scenarios with what they set up; and the faults of the program: how each is reported, and with which status a
//! command ends at it (profile).
//!
//! The contents of a file are never trusted: each call reports what is there, or why it says nothing.
//!
//! A crate of its own: files are read and judged without a writer, beside whose proofs it is proved.
#![tactic(auto)]

mod bank_text;
mod command_fault;
mod fault;
mod fault_lines;
mod input;
mod item;
mod items;
mod journal_input;
mod key;
mod members;
mod number;
mod odd_keys;
mod orders;
mod scenario;
pub mod scenario_key;
mod setup;
mod shallow;
mod value;
mod values;

pub use bank_text::{MOST_BANK_TEXT, TEXT_LIMIT, bank_of, text_of};
pub use command_fault::{Fault, Status};
pub use fault::InputFault;
pub use fault_lines::{drive_line, write_failure, write_fault, write_refused_item};
pub use input::{Input, json_of, read_input};
pub use item::{Item, ItemFault, field_fault, order_of};
pub use items::Items;
pub use journal_input::{JOURNAL_LIMIT, journal_in};
pub use members::Members;
pub use odd_keys::OddKeys;
pub use orders::{ORDERS_LIMIT, read_orders};
pub use scenario::{
    EventPlan, FatePlan, MOST_EVENTS, Scenario, UnitPlan, scenario_of, submission_of,
};
pub use setup::{Setup, setup_of};
pub use shallow::Shallow;
pub use value::value_of_text;
