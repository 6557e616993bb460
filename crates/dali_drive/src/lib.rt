//! Drives of a writer over streams (profile): its records go to a journal, its frames to a link from which the answers
//! come back, its replies to a third stream; and what holds along one drive after another, wherever each was broken
//! off.
//!
//! A crate of its own: runs over a bus need no streams and no journal in a store.
#![tactic(auto)]

mod behind;
mod desk;
mod driving;
mod following;
pub mod laws;
mod lent_sinks;
mod lines;
mod link;
mod listed;
mod observer;
mod reading;
mod sought;
mod std_streams;
mod store_desk;
mod stored;
mod streams;
mod survey;
mod survey_lines;
mod unit_lines;

pub use behind::{Terms, follow_stored};
pub use dali_trace::DriveFault;
pub use desk::{Desk, OpenDesk};
pub use driving::{drive, drive_at};
pub use following::{Given, Orders, follow};
pub use lent_sinks::LentSinks;
pub use lines::{AnswerText, Line, push_decimal, push_text};
pub use link::exchange;
pub use listed::ListedOrders;
pub use observer::{FindingObserver, Nobody, Observer};
pub use reading::read_unit;
pub use sought::Sought;
pub use std_streams::{StdSink, StdSource};
pub use store_desk::StoreDesk;
pub use stored::{StoredFault, drive_stored};
pub use streams::{Got, Sink, Source, put_all};
pub use survey::{scan_units, verify_orders};
pub use survey_lines::{bytes_line, silent_line};
