//! All of writing (profile), in one crate for whoever uses it: a writer of orders, runs of it over a bus, drives of it
//! over streams, and the laws of both. Each item is in the crate that it comes from.
//!
//! A crate of its own: it is for programs that embed the writer, and re-exports it in one.
#![tactic(auto)]

pub use dali_drive::{
    Desk, DriveFault, FindingObserver, Given, Got, LentSinks, Line, ListedOrders, Nobody, Observer,
    OpenDesk, Orders, Sink, Sought, Source, StdSink, StdSource, StoreDesk, StoredFault, Terms,
    drive, drive_at, drive_stored, exchange, follow, follow_stored, laws as drive_laws, put_all,
    read_unit, scan_units, verify_orders,
};
pub use dali_engine::{
    Cause, Outcome, Pace, RunFault, Writer, run, run_sim, run_sim_with_pace, run_with_pace,
};
pub use dali_laws::{causes, laws};
pub use dali_read::{Finding, Places};
pub use dali_store::{FileStore, MemoryStore, OpenFault, Store, StoreFault, open};
pub use dali_trace::{Event, Happening, Reply, Want};
