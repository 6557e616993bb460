// The words after the lines of a command over a link, for a person who watches it, if it was refused: what its files
// are instead, in the words of `check`, and that there is no adapter. No answer depends on it.
use dali_file_commands::FileCommand;
use dali_file_commands::notes::{FirstLines, Kind};
use dali_input::{Input, Status};
use dali_job::LinkCommand;
use dali_text::{Escaped, Output};
use std::io::{LineWriter, Read, Write};
use std::os::unix::fs::FileTypeExt;
use std::{fs, io};

// At least as many bytes as a file is known by.
const FRONT: usize = 4096;

/// Tells why a command may have been refused.
pub(crate) fn tell_refused(rt: &HostRuntime, command: &LinkCommand<'_>) {
    match command {
        LinkCommand::Drive(task) => {
            if task.follow {
                tell_lines(rt, task.orders);
            } else {
                tell_orders(rt, task.orders);
            }
            tell_journal(rt, task.journal);
        }
        LinkCommand::Verify { orders, .. } => tell_orders(rt, orders),
        LinkCommand::Read { .. } | LinkCommand::Scan { .. } | LinkCommand::Address(_) => {}
    }
    if has_no_link(rt) {
        let _ = eprintln!(rt; "standard input is empty: start this over an adapter (docs/LINK.md)");
    }
}

// Tells what `check` says of a file of orders that it refuses.
fn tell_orders(rt: &HostRuntime, name: &str) {
    if check_into(rt, name, Nowhere) != Some(Status::Refused) {
        return;
    }
    let shown = Escaped::Whole(name);
    let _ = eprintln!(rt; "ORDERS {shown} is refused:");
    if let Ok(writer) = LineWriter::new(rt.alloc(), rt.stderr()) {
        let _told = check_into(rt, name, writer);
    }
}

// Checks a file of orders, and writes the notes on it into this writer. None if it is no file that can be read.
fn check_into<N: Write + Drop>(rt: &HostRuntime, name: &str, notes: N) -> Option<Status> {
    if !is_file(rt, name) {
        return None;
    }
    let file = fs::open(rt, name).ok()?;
    let mut notes = Output::new(FirstLines::new(notes));
    let check = FileCommand::Check { known: None };
    let status = check.carry_out(
        rt.alloc(),
        &mut Input::new(file),
        &mut Output::new(Nowhere),
        &mut notes,
    );
    let _ = notes.flush();
    Some(status)
}

// Reports if a file of orders that are to come line by line is an array of them.
fn tell_lines(rt: &HostRuntime, name: &str) {
    let Some(kind) = kind_of(rt, name) else {
        return;
    };
    let shown = Escaped::Whole(name);
    let _ = match kind {
        Kind::Array => eprintln!(rt;
            "ORDERS {shown} is an array, and --follow takes a line for each order: `jq -c '.[]'` makes lines of it"
        ),
        Kind::Object => Ok(()),
        Kind::Journal | Kind::Bank | Kind::Table => eprintln!(rt;
            "ORDERS {shown} is {kind}, and no lines of JSON"
        ),
    };
}

// Tells where what is named as the journal is something else.
fn tell_journal(rt: &HostRuntime, name: &str) {
    let Some(kind) = kind_of(rt, name) else {
        return;
    };
    if kind != Kind::Journal {
        let shown = Escaped::Whole(name);
        let _ = eprintln!(rt;
            "JOURNAL {shown} is no journal, but {kind}: are ORDERS and JOURNAL swapped?"
        );
    }
}

// The kind that a file looks like, if it is one and looks like any.
fn kind_of(rt: &HostRuntime, name: &str) -> Option<Kind> {
    if !is_file(rt, name) {
        return None;
    }
    let file = fs::open(rt, name).ok()?;
    let mut front = Vec::new(rt.alloc());
    let mut taken = file.take(FRONT as u64);
    taken.read_to_end(&mut front).ok()?;
    Kind::of(rt.alloc(), front.as_slice())
}

// Whether a name is that of a regular file, which may be read once more.
fn is_file(rt: &HostRuntime, name: &str) -> bool {
    match fs::metadata(rt, name) {
        Ok(found) => found.is_file(),
        Err(_) => false,
    }
}

// Whether standard input is a device of characters, as `/dev/null`, which no adapter gives.
fn has_no_link(rt: &HostRuntime) -> bool {
    match fs::metadata(rt, "/dev/fd/0") {
        Ok(found) => found.file_type().is_char_device(),
        Err(_) => false,
    }
}

// A writer that lets go of all.
#[derive(Drop)]
struct Nowhere;

impl Write for Nowhere {
    fn write(&mut self, buf: &[u8]) -> io::Result<usize> {
        Ok(buf.len())
    }

    fn flush(&mut self) -> io::Result<()> {
        Ok(())
    }
}
