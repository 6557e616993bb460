ghost use Rattle.std.specs.Prelude.{◌≡◌, ◌⊎◌, IfOk, IfErr, IfSome, IfNone, map};
ghost use Rattle.clap.specs.Words.{HasKind, app_of, fault_of, subcommand_rows_of};
ghost use Rattle.dali_job.specs.Jobs.{IsJobOf, IsNamed, IsNoCheck, IsNoLink, IsNothing, IsShortJob, NamesNothing};
ghost use Rattle.dali_job.specs.Jobs.{bench_app};

use crate::commands::bench_command;
use crate::link_command::LinkCommand;
use crate::link_in::link_job_in;
use crate::refusal::Refusal;
use crate::values::{has_flag, is_entered, value_of, values_of};
use clap::error::ErrorKind;
use clap::{ArgMatches, Command, Error};
use std::alloc::{AllocError, Global};

/// The task that the command line gives.
#[derive(Drop)]
pub enum Job<'a> {
    /// To check a file of orders. `journal` is the one, if any is to be asked, that answers for each order, after the
    /// `older` ones, in the order in which they were given: there are none without it.
    Check {
        orders: &'a str,
        journal: Option<&'a str>,
        older: Vec<&'a str>,
    },
    /// To run the events of a scenario file on simulated units; with `single_frames`, each frame
    /// has a line of its own.
    Run {
        scenario: &'a str,
        single_frames: bool,
    },
    /// To print what the word of a forward frame means.
    Frame(&'a str),
    /// To print what the bytes of a memory bank say.
    Show(&'a str),
    /// To print the records of a journal; `with_updates`, each order's updates too.
    Journal {
        records: &'a str,
        with_updates: bool,
    },
    /// To print the fields that an order may have.
    Fields,
    /// To carry out a command over a link. With `progress` a person sees its progress on standard error.
    Link {
        command: LinkCommand<'a>,
        progress: bool,
    },
    /// To do nothing: `clap` takes the words, and the program doesn't.
    Refused(Refusal),
}

/// Reads the command line, the program's name first.
///
/// The error is `clap`'s: its text for a person, which may be the help that was asked for, or want of memory. Words
/// that `clap` takes are refused if they name older journals for `check` without one to ask, several things for
/// `address`, units where that gives no short address, or a unit twice, in this order.
pub fn job_of<'a>(alloc: Global, words: &'a [&'a str]) -> Result<Job<'a>, Error>
    ensures named { IfOk result (IsJobOf (map (λ word. word.now) words.entry.now)) }
    ensures short { IfOk result IsShortJob }
    ensures refused { IfErr result (λ error. HasKind (fault_of bench_app (map (λ word. word.now) words.entry.now)) error
        ⊎ NamesNothing (map (λ word. word.now) words.entry.now)) }
{
    let mut command = bench_command(alloc)?;
    job_by(alloc, &mut command, words)
}

// The job that the words name, by the program's commands.
fn job_by<'a>(
    alloc: Global,
    command: &mut Command<'a>,
    words: &'a [&'a str],
) -> Result<Job<'a>, Error>
    requires { app_of command.old ≡ bench_app }
    ensures named { IfOk result (IsJobOf (map (λ word. word.now) words.entry.now)) }
    ensures refused { IfErr result (λ error. HasKind (fault_of bench_app (map (λ word. word.now) words.entry.now)) error
        ⊎ NamesNothing (map (λ word. word.now) words.entry.now)) }
{
    match entered_job(alloc, command, words) {
        Ok(Some(job)) => Ok(job),
        Ok(None) => Err(missing(command)),
        Err(error) => Err(error),
    }
}

// The job of the command that the words enter, if they enter one and it is a job's.
fn entered_job<'a>(
    alloc: Global,
    command: &mut Command<'a>,
    words: &'a [&'a str],
) -> Result<Option<Job<'a>>, Error>
    requires { app_of command.old ≡ bench_app }
    ensures named { IfOk result (λ found. IfSome found (IsJobOf (map (λ word. word.now) words.entry.now))) }
    ensures none { IfOk result (λ found. IfNone found (NamesNothing (map (λ word. word.now) words.entry.now))) }
    ensures refused { IfErr result (HasKind (fault_of bench_app (map (λ word. word.now) words.entry.now))) }
{
    let matches = match command.try_get_matches_from_mut(words) {
        Ok(matches) => matches,
        Err(error) => return Err(error),
    };
    match job_in(alloc, &matches) {
        Ok(found) => Ok(found),
        Err(error) => Err(Error::from(error)),
    }
}

// The job of the command that a parse entered.
fn job_in<'a>(alloc: Global, matches: &ArgMatches<'a>) -> Result<Option<Job<'a>>, AllocError>
    ensures named { IfOk result (λ found. IfSome found (IsNamed (subcommand_rows_of matches.now))) }
    ensures none { IfOk result (λ found. IfNone found (IsNothing (subcommand_rows_of matches.now))) }
{
    if let Some(job) = file_job_in(matches) {
        return Ok(Some(job));
    }
    match check_in(alloc, matches)? {
        Some(job) => Ok(Some(job)),
        None => link_job_in(alloc, matches),
    }
}

// The job of the command that a parse entered, if that is one over a file or a word, and not `check`.
fn file_job_in<'a>(matches: &ArgMatches<'a>) -> Option<Job<'a>>
    ensures named { IfSome result (IsNamed (subcommand_rows_of matches.now)) }
    ensures none { IfNone result
        (IsNoCheck (subcommand_rows_of matches.now) → IsNoLink (subcommand_rows_of matches.now)
        → IsNothing (subcommand_rows_of matches.now)) }
{
    if is_entered(matches, "fields") {
        return Some(Job::Fields);
    }
    if let Some(scenario) = value_of(matches, "run", "SCENARIO") {
        let single_frames = has_flag(matches, "run", "frames");
        return Some(Job::Run {
            scenario,
            single_frames,
        });
    }
    if let Some(digits) = value_of(matches, "frame", "HEX") {
        return Some(Job::Frame(digits));
    }
    if let Some(dump) = value_of(matches, "show", "HEXFILE") {
        return Some(Job::Show(dump));
    }
    let records = value_of(matches, "journal", "FILE")?;
    let with_updates = has_flag(matches, "journal", "updates");
    Some(Job::Journal {
        records,
        with_updates,
    })
}

// The job of the command that checks, or why it is refused, if a parse entered it.
fn check_in<'a>(alloc: Global, matches: &ArgMatches<'a>) -> Result<Option<Job<'a>>, AllocError>
    ensures named { IfOk result (λ found. IfSome found (IsNamed (subcommand_rows_of matches.now))) }
    ensures none { IfOk result (λ found. IfNone found (IsNoCheck (subcommand_rows_of matches.now))) }
{
    let Some(orders) = value_of(matches, "check", "ORDERS") else {
        return Ok(None);
    };
    let Some(older) = values_of(alloc, matches, "check", "older")? else {
        return Ok(None);
    };
    let journal = value_of(matches, "check", "journal");
    if journal.is_none() && !older.is_empty() {
        return Ok(Some(Job::Refused(Refusal::OlderAlone)));
    }
    let job = Job::Check {
        orders,
        journal,
        older,
    };
    Ok(Some(job))
}

// The error of a command line that names no job.
fn missing(command: &mut Command<'_>) -> Error {
    match command.error(ErrorKind::MissingSubcommand, "a command is wanted") {
        Ok(error) => error,
        Err(error) => Error::from(error),
    }
}
