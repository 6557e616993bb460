// Commands over a link: each by its own function.
ghost use Rattle.std.specs.Prelude.{◌≡◌, length};
ghost use Rattle.dali_drive.specs.Desks.{IsUnfailed};
ghost use Rattle.dali_link_commands.specs.Benches.{TellsUnwritten};
ghost use Rattle.dali_job.specs.LinkOptions.{IsShort};
ghost use Rattle.dali_link_commands.specs.LinkCommands.{HasStore, IsLinkAnswer, watched_of as watched_by};
ghost use Rattle.dali_link_commands.specs.ReadAnswers.{asked_addresses};

use crate::address::{address_beside, watched_address};
use crate::drive_files::drive_files;
use crate::journal_files::JournalFiles;
use crate::lines::StdBench;
use crate::read::read_bank;
use crate::report_file::{Others, ReportFile};
use crate::survey::scan;
use crate::survey_files::verify_file;
use dali_drive::Desk;
use dali_input::Status;
use dali_job::{DriveTask, LinkCommand};
use dali_report::{Progress, Watched};
use dali_store::FileStore;
use std::fs::{File, Files};
use std::io::{Read, Write};

/// The store in the file that a command writes: that of the journal or of a bank's text. If it writes none, that of a
/// text without a name.
pub fn store_of<'a, R: Files<File = File> + AllocGlobal>(
    rt: &'a R,
    command: &LinkCommand<'a>,
) -> FileStore<'a, R>
    ensures { HasStore command.now result }
{
    match command {
        LinkCommand::Drive(task) if task.require_journal => FileStore::found_journal(
            rt,
            task.journal,
        ),
        LinkCommand::Drive(task) => FileStore::journal(rt, task.journal),
        LinkCommand::Read { bank, .. } => FileStore::text(rt, bank),
        LinkCommand::Verify { .. } | LinkCommand::Scan { .. } | LinkCommand::Address(_) => {
            FileStore::text(rt, "")
        }
    }
}

/// The kind of progress that is shown of a command.
pub fn watched_of(command: &LinkCommand<'_>) -> Watched
    ensures { result ≡ watched_by command.now }
{
    match command {
        LinkCommand::Drive(task) => Watched::Drive(task.pace),
        LinkCommand::Read { .. } => Watched::Read,
        LinkCommand::Verify { .. } => Watched::Verify,
        LinkCommand::Scan { addresses, .. } => Watched::Scan(count_of(addresses.as_slice())),
        LinkCommand::Address(command) => watched_address(command),
    }
}

/// Carries a command out at a desk whose streams haven't failed, and whose store is its own (`store_of`). Each short
/// address that it reads or asks has to be at most 63. The progress that is shown follows its orders, and changes
/// nothing.
pub fn carry_out<
    's,
    R: Files<File = File> + AllocGlobal + JournalFiles,
    I: Read,
    L: Write,
    O: Write,
>(
    rt: &R,
    command: &LinkCommand<'_>,
    desk: &mut StdBench<'s, R, I, L, O>,
    progress: Option<&Progress>,
) -> Status
    requires ready { IsShort command.now × IsUnfailed (⟦<StdBench<'s, R, I, L, O> as Desk>⟧.look desk.old).failed }
    requires store { HasStore command.now desk.old.journal }
    ensures carried_out { let look = ⟦<StdBench<'s, R, I, L, O> as Desk>⟧.look in
        IsLinkAnswer (R.has rt.now) command.now (look desk.old) result (look desk.new) }
    ensures unwritten { TellsUnwritten result (⟦<StdBench<'s, R, I, L, O> as Desk>⟧.look desk.new) }
{
    match command {
        LinkCommand::Drive(task) => {
            let mut file = ReportFile::open(rt, task.report, others_of(task), progress);
            let ended = drive_files(rt, task, desk, &mut file.report);
            file.end(rt.alloc(), &mut desk.out, task.report, ended)
        }
        LinkCommand::Read { unit, bank } => read_bank(rt.alloc(), *unit, bank, desk),
        LinkCommand::Verify { orders, report } => {
            let others = Others {
                orders,
                journal: "",
                older: &[],
            };
            let mut file = ReportFile::open(rt, *report, others, progress);
            let ended = verify_file(rt, orders, desk, &mut file.report);
            file.end(rt.alloc(), &mut desk.out, *report, ended)
        }
        LinkCommand::Scan { addresses, sought } => {
            scan(rt.alloc(), addresses.as_slice(), *sought, desk)
        }
        LinkCommand::Address(command) => address_beside(rt, command, desk),
    }
}

// How many short addresses are asked where these are named.
fn count_of(addresses: &[u8]) -> u64
    ensures { result ≡ length (asked_addresses addresses.now) }
{
    match addresses {
        [] => 64,
        named => named.len() as u64,
    }
}

// The files that a drive has beside its report.
fn others_of<'a>(task: &'a DriveTask<'_>) -> Others<'a> {
    Others {
        orders: task.orders,
        journal: task.journal,
        older: task.older.as_slice(),
    }
}
