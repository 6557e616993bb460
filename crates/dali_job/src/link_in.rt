// The job of the command over a link that a parse entered.
ghost use Rattle.std.specs.Prelude.{IfOk, IfSome, IfNone};
ghost use Rattle.clap.specs.Words.{subcommand_rows_of};
ghost use Rattle.dali_job.specs.Jobs.{AsksSeveral, HasAsked, IsCommand, IsDrive, IsNamed, IsNoAddress, IsNoDrive};
ghost use Rattle.dali_job.specs.Jobs.{IsNoLink, IsNoReading, IsNoScan};

use crate::job::Job;
use crate::link_command::{
    AddressCommand, Asked, DriveTask, LinkCommand, Required, pace_of, sought_of,
};
use crate::refusal::{Refusal, named_twice};
use crate::values::{has_flag, number_of, short_addresses_of, unit_of, value_of, values_of};
use clap::ArgMatches;
use std::alloc::{AllocError, Global};

// The job of the command over a link that a parse entered, or why it is refused, if it is one.
pub(crate) fn link_job_in<'a>(
    alloc: Global,
    matches: &ArgMatches<'a>,
) -> Result<Option<Job<'a>>, AllocError>
    ensures named { IfOk result (λ found. IfSome found (IsNamed (subcommand_rows_of matches.now))) }
    ensures none { IfOk result (λ found. IfNone found (IsNoLink (subcommand_rows_of matches.now))) }
{
    if let Some(command) = reading_in(matches) {
        return Ok(Some(linked(matches, command)));
    }
    if let Some(job) = scan_in(alloc, matches)? {
        return Ok(Some(job));
    }
    if let Some(job) = address_in(alloc, matches)? {
        return Ok(Some(job));
    }
    match drive_in(alloc, matches)? {
        Some(task) => Ok(Some(linked(matches, LinkCommand::Drive(task)))),
        None => Ok(None),
    }
}

// The job of a command over a link that a parse entered.
fn linked<'a>(matches: &ArgMatches<'a>, command: LinkCommand<'a>) -> Job<'a>
    requires { IsCommand (subcommand_rows_of matches.now) command }
    ensures { IsNamed (subcommand_rows_of matches.now) result }
{
    let progress = has_flag(matches, command.name(), "progress");
    Job::Link { command, progress }
}

// The command that compares units with orders, or the one that reads a bank, if a parse entered it.
fn reading_in<'a>(matches: &ArgMatches<'a>) -> Option<LinkCommand<'a>>
    ensures named { IfSome result (IsCommand (subcommand_rows_of matches.now)) }
    ensures none { IfNone result (IsNoReading (subcommand_rows_of matches.now)) }
{
    if let Some(orders) = value_of(matches, "verify", "ORDERS") {
        let report = value_of(matches, "verify", "report");
        return Some(LinkCommand::Verify { orders, report });
    }
    let unit = unit_of(matches, "read", "UNIT")?;
    let bank = value_of(matches, "read", "HEXFILE")?;
    Some(LinkCommand::Read { unit, bank })
}

// The job of the command that looks which units answer, or why it is refused, if a parse entered it.
fn scan_in<'a>(alloc: Global, matches: &ArgMatches<'a>) -> Result<Option<Job<'a>>, AllocError>
    ensures named { IfOk result (λ found. IfSome found (IsNamed (subcommand_rows_of matches.now))) }
    ensures none { IfOk result (λ found. IfNone found (IsNoScan (subcommand_rows_of matches.now))) }
{
    let Some(addresses) = short_addresses_of(alloc, matches, "scan")? else {
        return Ok(None);
    };
    if let Some(unit) = named_twice(addresses.as_slice()) {
        return Ok(Some(Job::Refused(Refusal::NamedTwice(unit))));
    }
    let sought = sought_of(has_flag(matches, "scan", "gtin"));
    Ok(Some(linked(matches, LinkCommand::Scan { addresses, sought })))
}

// The job of the command that gives short addresses, or why it is refused, if a parse entered it.
fn address_in<'a>(alloc: Global, matches: &ArgMatches<'a>) -> Result<Option<Job<'a>>, AllocError>
    ensures named { IfOk result (λ found. IfSome found (IsNamed (subcommand_rows_of matches.now))) }
    ensures none { IfOk result (λ found. IfNone found (IsNoAddress (subcommand_rows_of matches.now))) }
{
    let Some(units) = short_addresses_of(alloc, matches, "address")? else {
        return Ok(None);
    };
    let Some(asked) = asked_in(matches) else {
        return Ok(Some(Job::Refused(Refusal::SeveralAsked)));
    };
    if asked.gives_none() && !units.is_empty() {
        return Ok(Some(Job::Refused(Refusal::UnitsUnasked)));
    }
    if let Some(unit) = named_twice(units.as_slice()) {
        return Ok(Some(Job::Refused(Refusal::NamedTwice(unit))));
    }
    let journal = value_of(matches, "address", "journal");
    let command = AddressCommand {
        asked,
        units,
        journal,
    };
    Ok(Some(linked(matches, LinkCommand::Address(command))))
}

// The task of `address` by its flags: none if several are given.
fn asked_in(matches: &ArgMatches<'_>) -> Option<Asked>
    ensures one { IfSome result (HasAsked (subcommand_rows_of matches.now)) }
    ensures several { IfNone result (AsksSeveral (subcommand_rows_of matches.now)) }
{
    let all = has_flag(matches, "address", "all");
    let list = has_flag(matches, "address", "list");
    let count = has_flag(matches, "address", "count");
    Asked::by(all, list, count)
}

// The task of the command that drives, if a parse entered it.
fn drive_in<'a>(
    alloc: Global,
    matches: &ArgMatches<'a>,
) -> Result<Option<DriveTask<'a>>, AllocError>
    ensures named { IfOk result (λ found. IfSome found (IsDrive (subcommand_rows_of matches.now))) }
    ensures none { IfOk result (λ found. IfNone found (IsNoDrive (subcommand_rows_of matches.now))) }
{
    let Some(orders) = value_of(matches, "drive", "ORDERS") else {
        return Ok(None);
    };
    let Some(journal) = value_of(matches, "drive", "JOURNAL") else {
        return Ok(None);
    };
    let Some(moment) = number_of(matches, "drive", "moment") else {
        return Ok(None);
    };
    let Some(older) = values_of(alloc, matches, "drive", "older")? else {
        return Ok(None);
    };
    let require_done = has_flag(matches, "drive", "require-done");
    let require_now = has_flag(matches, "drive", "require-now");
    let task = DriveTask {
        orders,
        journal,
        older,
        moment,
        pace: pace_of(has_flag(matches, "drive", "short-plan")),
        required: Required::of(require_done, require_now),
        require_journal: has_flag(matches, "drive", "require-journal"),
        follow: has_flag(matches, "drive", "follow"),
        report: value_of(matches, "drive", "report"),
    };
    Ok(Some(task))
}
