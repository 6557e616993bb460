ghost use Rattle.std.specs.Prelude.{◌≡◌};
ghost use Rattle.dali_drive.specs.Behind.{IsReadyBehind};
ghost use Rattle.dali_drive.specs.Desks.{IsUnfailed};
ghost use Rattle.dali_link_commands.specs.Benches.{TellsUnwritten};
ghost use Rattle.dali_link_commands.specs.BehindAnswers.{IsBehindNamed, EndsUnread};
ghost use Rattle.dali_link_commands.specs.LinkCommands.{Drives};
ghost use Rattle.dali_link_commands.specs.Older.{held_under};

use crate::drive::drive_input;
use crate::follow::follow_source;
use crate::journal_files::JournalFiles;
use crate::lines::StdBench;
use crate::older::read_older;
use crate::problem::Problem;
use crate::stream::OrderLines;
use dali_drive::{Desk, StdSource};
use dali_input::{Input, Status};
use dali_job::DriveTask;
use dali_report::Report;
use std::alloc::Global;
use std::fs::{File, Files, Metadata};
use std::io::{ErrorKind, Read, Write};
use std::os::unix::fs::{FileTypeExt, MetadataExt};
use std::{fs, io};

/// Carries out the orders of a file over a link, with the journal that another file holds: all of them, as
/// `drive_input` does, or, of a stream, a named pipe as a rule, each line before the next is read, as `follow_source`
/// does.
///
/// The older journals are read before the file is opened. A stream's bytes are read one by one, with no buffer: so no
/// byte of a line is taken out of a pipe before it is its turn.
///
/// No contract says what the file of the orders holds: the drive is that of the orders which its bytes spell, or
/// follows exactly what its lines give, on these terms, with what is known of the older journals' files.
pub fn drive_files<
    's,
    R: Files<File = File> + AllocGlobal + JournalFiles,
    I: Read,
    L: Write,
    O: Write,
    N: Write + Drop,
>(
    rt: &R,
    task: &DriveTask<'_>,
    desk: &mut StdBench<'s, R, I, L, O>,
    report: &mut Report<N>,
) -> Status
    requires unfailed { IsUnfailed (⟦<StdBench<'s, R, I, L, O> as Desk>⟧.look desk.old).failed }
    ensures driven { let look = ⟦<StdBench<'s, R, I, L, O> as Desk>⟧.look in
        IsBehindNamed (held_under (R.has rt.now) task.now.older.items)
        (λ older. Drives task.now.follow task.now N.contents older report.old report.new (look desk.old) result
        (look desk.new))
        (EndsUnread (held_under (R.has rt.now) task.now.older.items) report.old report.new (look desk.old) result
        (look desk.new)) }
    ensures unwritten { TellsUnwritten result (⟦<StdBench<'s, R, I, L, O> as Desk>⟧.look desk.new) }
{
    match read_older(rt, task.older.as_slice()) {
        Ok(older) => desk.older = older,
        Err(problem) => return problem.tell(&mut desk.out),
    }
    match opened(rt, task.orders) {
        Ok((file, found)) => {
            desk.journal.set_orders(&found);
            drive_file(rt.alloc(), task, file, desk, report)
        }
        Err(error) => Problem::refused(rt.alloc(), task.orders, error).tell(&mut desk.out),
    }
}

// Drives the orders of a file that is open.
fn drive_file<
    's,
    R: Files<File = File> + AllocGlobal,
    I: Read,
    L: Write,
    O: Write,
    N: Write + Drop,
>(
    alloc: Global,
    task: &DriveTask<'_>,
    file: File,
    desk: &mut StdBench<'s, R, I, L, O>,
    report: &mut Report<N>,
) -> Status
    requires ready { IsReadyBehind desk.old.older (⟦<StdBench<'s, R, I, L, O> as Desk>⟧.look desk.old) }
    ensures driven { let look = ⟦<StdBench<'s, R, I, L, O> as Desk>⟧.look in
        Drives task.now.follow task.now N.contents desk.old.older report.old report.new (look desk.old) result
        (look desk.new) }
    ensures unwritten { TellsUnwritten result (⟦<StdBench<'s, R, I, L, O> as Desk>⟧.look desk.new) }
{
    if task.follow {
        let mut orders = OrderLines::new(alloc, StdSource::new(file), task.moment);
        follow_source(alloc, task, &mut orders, desk, report)
    } else {
        drive_input(alloc, task, &mut Input::new(file), desk, report)
    }
}

// The words if ORDERS is the file that has the link's answers.
const ANSWERS_THERE: &str =
    "ORDERS has to be a file or a named pipe: standard input has the answers";

// Opens a file to read it, and looks which one it is. One that is standard input is refused.
pub(crate) fn opened<R: Files<File = File>>(rt: &R, name: &str) -> io::Result<(File, Metadata)> {
    if matches!(name, "-" | "/dev/stdin" | "/dev/fd/0" | "/proc/self/fd/0") {
        return Err(io::Error::new(ErrorKind::InvalidInput, ANSWERS_THERE));
    }
    let file = fs::open(rt, name)?;
    let found = file.metadata()?;
    if found.file_type().is_fifo() && is_standard_input(rt, &found) {
        return Err(io::Error::new(ErrorKind::InvalidInput, ANSWERS_THERE));
    }
    Ok((file, found))
}

// Whether standard input is this file.
fn is_standard_input<R: Files<File = File>>(rt: &R, found: &Metadata) -> bool {
    match fs::metadata(rt, "/dev/fd/0") {
        Ok(input) => found.dev() == input.dev() && found.ino() == input.ino(),
        Err(_) => false,
    }
}
