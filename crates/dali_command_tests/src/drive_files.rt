// `drive` over files. Its contract and that of a store say what it does with other orders, answers and journals.
use dali_drive::{StdSink, StdSource, StoreDesk};
use dali_input::Status;
use dali_job::{DriveTask, Required};
use dali_link_commands::drive_files::drive_files;
use dali_link_commands::journal_files::JournalFiles;
use dali_link_commands::lines::Lines;
use dali_report::Report;
use dali_shared_tests::expect_that;
use dali_store::FileStore;
use dali_text::Output;
use dali_writer::Pace;
use std::alloc::Global;
use std::fs::{File, Files};
use std::test::Fail;
use std::{fs, io};

pub(crate) const ORDER: &str = "[{\"order\":1,\"unit\":9,\"gtin\":\"4006381333931\"}]";

// Order 1 for unit 9 with a GTIN, of the moment 0, which ended as 3 Silent.
pub(crate) const SILENT: [u8; 37] = [
    0x44, 0x42, 0x31, 0x02, 0x42, 0x00, 0x00, 0x00, 0x00, 0x00, 0x00, 0x00, 0x01, 0x00, 0x00, 0x00,
    0x00, 0x00, 0x00, 0x00, 0x00, 0x09, 0x06, 0x03, 0x03, 0x04, 0xA4, 0x05, 0xCE, 0x06, 0xEF, 0x07,
    0xAD, 0x08, 0xAB, 0x45, 0x03,
];

// The same, followed by a record that is cut off in its second byte.
const CUT: [u8; 39] = [
    0x44, 0x42, 0x31, 0x02, 0x42, 0x00, 0x00, 0x00, 0x00, 0x00, 0x00, 0x00, 0x01, 0x00, 0x00, 0x00,
    0x00, 0x00, 0x00, 0x00, 0x00, 0x09, 0x06, 0x03, 0x03, 0x04, 0xA4, 0x05, 0xCE, 0x06, 0xEF, 0x07,
    0xAD, 0x08, 0xAB, 0x45, 0x03, 0x42, 0x00,
];

// The order in version 1.
const OLD: [u8; 25] = [
    0x42, 0x00, 0x00, 0x00, 0x00, 0x00, 0x00, 0x00, 0x01, 0x09, 0x06, 0x03, 0x03, 0x04, 0xA4, 0x05,
    0xCE, 0x06, 0xEF, 0x07, 0xAD, 0x08, 0xAB, 0x45, 0x03,
];

// The sixteen frames that look for unit 9, and as many answers of no unit.
pub(crate) const LINK: &str = "C301\n139C\nC301\n139C\nC301\n139C\nC301\n139C\n\
    C301\n139C\nC301\n139C\nC301\n139C\nC301\n139C\n";

pub(crate) const SILENCE: &str = "--\n--\n--\n--\n--\n--\n--\n--\n--\n--\n--\n--\n--\n--\n--\n--\n";

pub(crate) const TAKEN: &str = "reply 1 taken\nreply 1 kept 3 Silent\n";

const KEPT: &str = "reply 1 kept 3 Silent\n";

// A drive of the order: what the journal's file holds first, if it is there, and what comes of it. Then it holds
// `SILENT`.
struct Drive<'a> {
    journal: &'a str,
    before: Option<&'a [u8]>,
    answers: &'a str,
    sent: &'a str,
    told: &'a str,
}

static DRIVES: [Drive<'static>; 3] = [
    Drive {
        journal: "drive_files_new.journal",
        before: None,
        answers: SILENCE,
        sent: LINK,
        told: TAKEN,
    },
    Drive {
        journal: "drive_files_cut.journal",
        before: Some(&CUT),
        answers: "",
        sent: "",
        told: KEPT,
    },
    Drive {
        journal: "drive_files_old.journal",
        before: Some(&OLD),
        answers: "",
        sent: "",
        told: KEPT,
    },
];

// The task of a drive over orders in a file of this name.
fn task_of<'a>(alloc: Global, drive: &Drive<'a>, name: &'a str) -> DriveTask<'a> {
    DriveTask {
        orders: name,
        journal: drive.journal,
        older: Vec::new(alloc),
        moment: 0,
        pace: Pace::Checked,
        required: Required::Nothing,
        require_journal: false,
        follow: false,
        report: None,
    }
}

// Drives the order of a file of this name, and tells whether that ends well, and sends and tells what it has to.
fn is_driven<'a, R: Files<File = File> + AllocGlobal + JournalFiles>(
    rt: &'a R,
    drive: &Drive<'a>,
    name: &'a str,
) -> io::Result<bool> {
    fs::write(rt, name, ORDER)?;
    let mut sent = Vec::new(rt.alloc());
    let mut told = Vec::new(rt.alloc());
    let task = task_of(rt.alloc(), drive, name);
    let mut desk = StoreDesk {
        link_in: StdSource::new(drive.answers.as_bytes()),
        link_out: StdSink::new(&mut sent),
        journal: FileStore::journal(rt, drive.journal),
        older: None,
        out: Lines {
            output: Output::new(&mut told),
        },
    };
    let mut report: Report<io::Sink> = Report::new(rt.alloc(), 1, None, None);
    let status = drive_files(rt, &task, &mut desk, &mut report);
    drop(desk);
    fs::remove_file(rt, name)?;
    Ok(
        status == Status::Good
            && sent.as_slice() == drive.sent.as_bytes()
            && told.as_slice() == drive.told.as_bytes(),
    )
}

// Removes a file, and tells whether it had these bytes.
fn holds<R: Files<File = File> + AllocGlobal>(
    rt: &R,
    name: &str,
    bytes: &[u8],
) -> io::Result<bool> {
    let held = fs::read(rt, name)?;
    fs::remove_file(rt, name)?;
    Ok(held.as_slice() == bytes)
}

// Whether a drive does and leaves what it has to.
fn is_right<R: Files<File = File> + AllocGlobal + JournalFiles>(
    rt: &R,
    drive: &Drive<'_>,
) -> io::Result<bool> {
    if let Some(bytes) = drive.before {
        fs::write(rt, drive.journal, bytes)?;
    }
    Ok(is_driven(rt, drive, "drive_files.json")? && holds(rt, drive.journal, &SILENT)?)
}

#[test]
fn orders_are_driven(rt: HostRuntime) -> Result<(), Fail> {
    for drive in &DRIVES {
        expect_that(is_right(&rt, drive)?, drive.journal)?;
    }
    Ok(())
}
