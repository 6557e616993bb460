// `drive` with everything in memory: the orders, the link, the journal, the lines and the report.
use crate::drive_files::{LINK, ORDER, SILENCE, TAKEN};
use dali_drive::{StdSink, StdSource, StoreDesk};
use dali_input::{Input, Status};
use dali_job::{DriveTask, Required};
use dali_link_commands::drive::drive_input;
use dali_link_commands::lines::Lines;
use dali_report::Report;
use dali_shared_tests::expect_that;
use dali_store::MemoryStore;
use dali_text::Output;
use dali_writer::Pace;
use std::alloc::Global;
use std::test::Fail;

// Order 1 for unit 9 with a GTIN, of the moment 7, which ended as 3 Silent.
pub(crate) const SILENT_AT_7: [u8; 37] = [
    0x44, 0x42, 0x31, 0x02, 0x42, 0x00, 0x00, 0x00, 0x00, 0x00, 0x00, 0x00, 0x01, 0x00, 0x00, 0x00,
    0x00, 0x00, 0x00, 0x00, 0x07, 0x09, 0x06, 0x03, 0x03, 0x04, 0xA4, 0x05, 0xCE, 0x06, 0xEF, 0x07,
    0xAD, 0x08, 0xAB, 0x45, 0x03,
];

const REPORT: &str = "{\"cause\":{\"byte\":null,\"location\":0,\"was\":\"unread\"},\
    \"code\":3,\"ended\":\"now\",\"frames\":16,\"misses\":8,\"moment\":7,\
    \"name\":\"Silent\",\"order\":1,\"reply\":\"kept 3 Silent\",\"run\":1,\"unit\":9}\n";

// Whether the order, of which it is required that it is done, is driven and reported as it has to be.
fn is_driven(alloc: Global) -> bool {
    let mut sent = Vec::new(alloc);
    let mut told = Vec::new(alloc);
    let mut reported = Vec::new(alloc);
    let task = DriveTask {
        orders: "orders",
        journal: "journal",
        older: Vec::new(alloc),
        moment: 7,
        pace: Pace::Checked,
        required: Required::Done,
        require_journal: false,
        follow: false,
        report: None,
    };
    let mut desk = StoreDesk {
        link_in: StdSource::new(SILENCE.as_bytes()),
        link_out: StdSink::new(&mut sent),
        journal: MemoryStore::new(alloc, Vec::new(alloc)),
        older: None,
        out: Lines {
            output: Output::new(&mut told),
        },
    };
    let mut report = Report::new(alloc, 1, Some(Output::new(&mut reported)), None);
    let mut input = Input::new(ORDER.as_bytes());
    let status = drive_input(alloc, &task, &mut input, &mut desk, &mut report);
    let is_kept = desk.journal.bytes() == SILENT_AT_7.as_slice();
    drop(desk);
    drop(report);
    status == Status::Refused
        && is_kept
        && sent.as_slice() == LINK.as_bytes()
        && told.as_slice() == TAKEN.as_bytes()
        && reported.as_slice() == REPORT.as_bytes()
}

#[test]
fn an_order_is_driven_in_memory(rt: HostRuntime) -> Result<(), Fail> {
    expect_that(
        is_driven(rt.alloc()),
        "what the drive of files does, and a report",
    )
}
