// The program's commands, as `clap` takes them.
ghost use Rattle.std.specs.Prelude.{◌≡◌, IfOk, IsOkAnd, codes};
ghost use Rattle.clap.specs.Words.{AddsArg, AddsSubcommand, app_of, new_app};
ghost use Rattle.dali_job.specs.Jobs.{IsApp, IsRule, address_app, address_rule, bench_app, check_app, command_app, drive_app};
ghost use Rattle.dali_job.specs.Jobs.{flag_rule, journal_app, many_rule, number_rule, option_rule, read_app, run_app};
ghost use Rattle.dali_job.specs.Jobs.{scan_app, unit_rule, units_rule, value_rule, verify_app};

use crate::usages::{
    ABOUT, ADDRESS, ADDRESS_ALL_HELP, ADDRESS_COUNT_HELP, ADDRESS_JOURNAL_HELP, ADDRESS_LIST_HELP,
    ADDRESS_UNITS_HELP, Argument, CHECK, CHECK_JOURNAL_HELP, CHECK_OLDER_HELP, CHECK_ORDERS, DRIVE,
    DRIVE_DONE_HELP, DRIVE_FOLLOW_HELP, DRIVE_JOURNAL_HELP, DRIVE_MOMENT_HELP, DRIVE_NOW_HELP,
    DRIVE_OLDER_HELP, DRIVE_REPORT_HELP, DRIVE_SHORT_HELP, DRIVE_THERE_HELP, FIELDS, FRAME,
    FRAME_HEX, JOURNAL, JOURNAL_FILE, JOURNAL_UPDATES_HELP, LINK_ORDERS, PROGRESS_HELP, READ,
    READ_BANK_HELP, READ_UNIT_HELP, RUN, RUN_FRAMES_HELP, RUN_SCENARIO, SCAN, SCAN_GTIN_HELP,
    SCAN_UNITS_HELP, SHOW, SHOW_DUMP, TOP_HELP, Usage, VERIFY, VERIFY_REPORT_HELP,
};
use clap::{Arg, ArgAction, Command, value_parser};
use std::alloc::{AllocError, Global};

// The program's commands.
pub(crate) fn bench_command<'a>(alloc: Global) -> Result<Command<'a>, AllocError>
    ensures { IfOk result (λ command. app_of command ≡ bench_app) }
{
    let top = Command::new(alloc, "dali_bench")
        .about(ABOUT)
        .after_help(TOP_HELP)
        .subcommand_required(true);
    let checks = with_made(Ok(top), check_command(alloc));
    let runs = with_made(checks, run_command(alloc));
    let frames = with_made(runs, command_of(alloc, &FRAME, &FRAME_HEX));
    let shows = with_made(frames, command_of(alloc, &SHOW, &SHOW_DUMP));
    let journals = with_made(shows, journal_command(alloc));
    let fields = with_made(journals, Ok(plain_command(alloc, &FIELDS)));
    let drives = with_made(fields, drive_command(alloc));
    let reads = with_made(drives, read_command(alloc));
    let verifies = with_made(reads, verify_command(alloc));
    let scans = with_made(verifies, scan_command(alloc));
    with_made(scans, address_command(alloc))
}

// The program with one more command, if both could be made.
fn with_made<'a>(
    program: Result<Command<'a>, AllocError>,
    made: Result<Command<'a>, AllocError>,
) -> Result<Command<'a>, AllocError>
    ensures { IfOk result (λ all. IsOkAnd program.entry
        (λ was. IsOkAnd made.entry (λ command. AddsSubcommand was command all))) }
{
    program?.subcommand(made?)
}

// The command with one more argument, if it could be made.
fn with_argument<'a>(
    made: Result<Command<'a>, AllocError>,
    argument: Arg<'a>,
) -> Result<Command<'a>, AllocError>
    ensures { IfOk result (λ more. IsOkAnd made.entry (λ command. AddsArg command argument.entry more)) }
{
    made?.arg(argument)
}

// The command that checks orders, with the journals that are asked.
fn check_command<'a>(alloc: Global) -> Result<Command<'a>, AllocError>
    ensures { IfOk result (IsApp check_app) }
{
    let orders = command_of(alloc, &CHECK, &CHECK_ORDERS)?;
    let asked = orders.arg(file_option(alloc, "journal", CHECK_JOURNAL_HELP))?;
    asked.arg(older_option(alloc, CHECK_OLDER_HELP))
}

// The command that runs a scenario, with its flag.
fn run_command<'a>(alloc: Global) -> Result<Command<'a>, AllocError>
    ensures { IfOk result (IsApp run_app) }
{
    command_of(alloc, &RUN, &RUN_SCENARIO)?.arg(flag_of(alloc, "frames", RUN_FRAMES_HELP))
}

// The command that prints a journal, with its flag.
fn journal_command<'a>(alloc: Global) -> Result<Command<'a>, AllocError>
    ensures { IfOk result (IsApp journal_app) }
{
    command_of(alloc, &JOURNAL, &JOURNAL_FILE)?.arg(flag_of(alloc, "updates", JOURNAL_UPDATES_HELP))
}

// The command that carries out orders over a link.
fn drive_command<'a>(alloc: Global) -> Result<Command<'a>, AllocError>
    ensures { IfOk result (IsApp drive_app) }
{
    let orders = command_of(alloc, &DRIVE, &LINK_ORDERS);
    let files = with_argument(orders, value_argument(alloc, "JOURNAL", DRIVE_JOURNAL_HELP));
    let timed = with_argument(files, moment_option(alloc));
    let followed = with_argument(timed, flag_of(alloc, "follow", DRIVE_FOLLOW_HELP));
    let planned = with_argument(followed, flag_of(alloc, "short-plan", DRIVE_SHORT_HELP));
    let flagged = with_argument(planned, flag_of(alloc, "require-done", DRIVE_DONE_HELP));
    let strict = with_argument(flagged, flag_of(alloc, "require-now", DRIVE_NOW_HELP));
    let there = with_argument(strict, flag_of(alloc, "require-journal", DRIVE_THERE_HELP));
    let watched = with_argument(there, flag_of(alloc, "progress", PROGRESS_HELP));
    let reported = with_argument(watched, file_option(alloc, "report", DRIVE_REPORT_HELP));
    with_argument(reported, older_option(alloc, DRIVE_OLDER_HELP))
}

// The command that compares units with orders, with its report and its flag.
fn verify_command<'a>(alloc: Global) -> Result<Command<'a>, AllocError>
    ensures { IfOk result (IsApp verify_app) }
{
    let orders = command_of(alloc, &VERIFY, &LINK_ORDERS)?;
    let reported = orders.arg(file_option(alloc, "report", VERIFY_REPORT_HELP))?;
    reported.arg(flag_of(alloc, "progress", PROGRESS_HELP))
}

// The command that looks which units answer over a link, with its flags.
fn scan_command<'a>(alloc: Global) -> Result<Command<'a>, AllocError>
    ensures { IfOk result (IsApp scan_app) }
{
    let units = plain_command(alloc, &SCAN).arg(units_argument(alloc, SCAN_UNITS_HELP))?;
    let named = units.arg(flag_of(alloc, "gtin", SCAN_GTIN_HELP))?;
    named.arg(flag_of(alloc, "progress", PROGRESS_HELP))
}

// The command that gives short addresses over a link, with its flags and the journal that has to be idle.
fn address_command<'a>(alloc: Global) -> Result<Command<'a>, AllocError>
    ensures { IfOk result (IsApp address_app) }
{
    let units = plain_command(alloc, &ADDRESS).arg(units_argument(alloc, ADDRESS_UNITS_HELP))?;
    let anew = units.arg(flag_of(alloc, "all", ADDRESS_ALL_HELP))?;
    let listed = anew.arg(flag_of(alloc, "list", ADDRESS_LIST_HELP))?;
    let counted = listed.arg(flag_of(alloc, "count", ADDRESS_COUNT_HELP))?;
    let idle = counted.arg(file_option(alloc, "journal", ADDRESS_JOURNAL_HELP))?;
    idle.arg(flag_of(alloc, "progress", PROGRESS_HELP))
}

// The command that reads a bank over a link, with its flag.
fn read_command<'a>(alloc: Global) -> Result<Command<'a>, AllocError>
    ensures { IfOk result (IsApp read_app) }
{
    let unit = plain_command(alloc, &READ).arg(unit_argument(alloc))?;
    let read = unit.arg(value_argument(alloc, "HEXFILE", READ_BANK_HELP))?;
    read.arg(flag_of(alloc, "progress", PROGRESS_HELP))
}

// A command with one argument, which has to be there.
fn command_of<'a>(
    alloc: Global,
    usage: &Usage<'a>,
    argument: &Argument<'a>,
) -> Result<Command<'a>, AllocError>
    ensures { IfOk result (IsApp (command_app usage.now.name.now argument.now.id.now)) }
{
    plain_command(alloc, usage).arg(value_argument(alloc, argument.id, argument.help))
}

// A command with no argument.
fn plain_command<'a>(alloc: Global, usage: &Usage<'a>) -> Command<'a>
    ensures { IsApp (new_app usage.now.name.now) result }
{
    Command::new(alloc, usage.name)
        .about(usage.about)
        .after_help(usage.faults)
}

// An argument that has to be there, and takes one value.
fn value_argument<'a>(alloc: Global, id: &'a str, help: &'a str) -> Arg<'a>
    ensures { IsRule (value_rule id.entry.now) result }
{
    Arg::new(alloc, id)
        .help(help)
        .required(true)
        .action(ArgAction::Set)
}

// The unit of `read`, which has to be there.
fn unit_argument<'a>(alloc: Global) -> Arg<'a>
    ensures { IsRule (unit_rule (codes "UNIT")) result }
{
    address_argument(alloc, READ_UNIT_HELP, ArgAction::Set).required(true)
}

// Units, which may be left out.
fn units_argument<'a>(alloc: Global, help: &'a str) -> Arg<'a>
    ensures { IsRule (units_rule (codes "UNIT")) result }
{
    address_argument(alloc, help, ArgAction::Append)
}

// An argument that takes the short address of a unit.
fn address_argument<'a>(alloc: Global, help: &'a str, action: ArgAction) -> Arg<'a>
    ensures { IsRule (address_rule (codes "UNIT") action) result }
{
    Arg::new(alloc, "UNIT")
        .help(help)
        .value_parser(value_parser!(u64).range(..=63))
        .action(action)
}

// A flag under its own name.
fn flag_of<'a>(alloc: Global, id: &'a str, help: &'a str) -> Arg<'a>
    ensures { IsRule (flag_rule id.entry.now) result }
{
    Arg::new(alloc, id)
        .long(id)
        .help(help)
        .action(ArgAction::SetTrue)
}

// An option under its own name that names a file, and may be left out.
fn file_option<'a>(alloc: Global, id: &'a str, help: &'a str) -> Arg<'a>
    ensures { IsRule (option_rule id.entry.now) result }
{
    Arg::new(alloc, id)
        .long(id)
        .value_name("FILE")
        .help(help)
        .action(ArgAction::Set)
}

// The option that names older journals, one each time that it is given.
fn older_option<'a>(alloc: Global, help: &'a str) -> Arg<'a>
    ensures { IsRule (many_rule (codes "older")) result }
{
    Arg::new(alloc, "older")
        .long("older")
        .value_name("FILE")
        .help(help)
        .action(ArgAction::Append)
}

// The option of `drive`, with the number that holds if it isn't given.
fn moment_option<'a>(alloc: Global) -> Arg<'a>
    ensures { IsRule (number_rule (codes "moment") (codes "0")) result }
{
    Arg::new(alloc, "moment")
        .long("moment")
        .value_name("M")
        .help(DRIVE_MOMENT_HELP)
        .value_parser(value_parser!(u64))
        .default_value("0")
        .action(ArgAction::Set)
}
