// `drive --follow` with everything in memory, also if the reader of the orders fails.
use crate::drive_files::{SILENCE, SILENT};
use crate::drive_memory::SILENT_AT_7;
use crate::streams::{Behind, TestReader};
use dali_drive::{StdSink, StdSource, StoreDesk};
use dali_input::Status;
use dali_job::{DriveTask, Required};
use dali_link_commands::follow::follow_source;
use dali_link_commands::lines::Lines;
use dali_link_commands::stream::OrderLines;
use dali_report::Report;
use dali_shared_tests::expect_that;
use dali_store::MemoryStore;
use dali_text::Output;
use dali_writer::Pace;
use std::alloc::Global;
use std::io;
use std::test::Fail;

// A stream of orders for unit 9, which doesn't answer, and its result at the moment 7.
struct Stream<'a> {
    lines: &'a str,
    behind: Behind,
    status: Status,
    told: &'a str,
    kept: &'a [u8],
}

static STREAMS: [Stream<'static>; 4] = [
    // An order of its own moment, and the same order again, at the end of a stream that ends in mid-line.
    Stream {
        lines: "{\"submit\":{\"order\":1,\"unit\":9,\"gtin\":\"4006381333931\"},\"moment\":0}\n\r\n\
            {\"order\":1,\"unit\":9,\"gtin\":\"4006381333931\"}",
        behind: Behind::Nothing,
        status: Status::Good,
        told: "ready\nreply 1 taken\nreply 1 kept 3 Silent\nreply 1 kept 3 Silent\n",
        kept: &SILENT,
    },
    // A reader that fails after a line, in one, and after a refused one.
    Stream {
        lines: "{\"order\":1,\"unit\":9,\"gtin\":\"4006381333931\"}\n",
        behind: Behind::Failures,
        status: Status::Failed,
        told: "ready\nreply 1 taken\nreply 1 kept 3 Silent\n\
            error: the file can't be used: orders: broken pipe\nfault 21 File\n",
        kept: &SILENT_AT_7,
    },
    Stream {
        lines: "{\"order\":1,\"unit\":9,\"gtin\":\"4006381333931\"}",
        behind: Behind::Failures,
        status: Status::Failed,
        told: "ready\nerror: the file can't be used: orders: broken pipe\nfault 21 File\n",
        kept: b"DB1\x02",
    },
    Stream {
        lines: "{}\n",
        behind: Behind::Failures,
        status: Status::Failed,
        told: "ready\nitem 1 fault 9 Shape\nerror: the file can't be used: orders: broken pipe\nfault 21 File\n",
        kept: b"DB1\x02",
    },
];

// Whether a stream is followed as it should be.
fn is_followed(alloc: Global, stream: &Stream<'_>) -> bool {
    let mut sent = Vec::new(alloc);
    let mut told = Vec::new(alloc);
    let task = DriveTask {
        orders: "orders",
        journal: "journal",
        older: Vec::new(alloc),
        moment: 7,
        pace: Pace::Checked,
        required: Required::Nothing,
        require_journal: false,
        follow: true,
        report: None,
    };
    let source = StdSource::new(TestReader::new(stream.lines.as_bytes(), stream.behind));
    let mut orders = OrderLines::new(alloc, source, task.moment);
    let mut desk = StoreDesk {
        link_in: StdSource::new(SILENCE.as_bytes()),
        link_out: StdSink::new(&mut sent),
        journal: MemoryStore::new(alloc, Vec::new(alloc)),
        older: None,
        out: Lines {
            output: Output::new(&mut told),
        },
    };
    let mut report: Report<io::Sink> = Report::new(alloc, 1, None, None);
    let status = follow_source(alloc, &task, &mut orders, &mut desk, &mut report);
    let is_kept = desk.journal.bytes() == stream.kept;
    drop(desk);
    status == stream.status && told.as_slice() == stream.told.as_bytes() && is_kept
}

#[test]
fn streams_are_followed_in_memory(rt: HostRuntime) -> Result<(), Fail> {
    for stream in &STREAMS {
        expect_that(is_followed(rt.alloc(), stream), stream.told)?;
    }
    Ok(())
}
