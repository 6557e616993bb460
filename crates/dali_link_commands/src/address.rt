// `address`: short addresses over a link.
ghost use Rattle.std.specs.Prelude.{◌≡◌, ◌≢◌, ◌↔◌, ◌+◌, ◌<◌, ◌≤◌, false, length, true, if◌then◌else◌};
ghost use Rattle.dali_drive.specs.Desks.{IsUnfailed};
ghost use Rattle.dali_text.specs.Output.{has_failed, held};
ghost use Rattle.dali_link_commands.specs.AddressLines.{end_text as text_at_end};
ghost use Rattle.dali_link_commands.specs.AddressAnswers.{IsAddressAnswer, IsAskedAnswer, IsCountAnswer, IsRunAnswer};
ghost use Rattle.dali_link_commands.specs.AddressAnswers.{TellsBreak, end_after as ended_after, is_apart as apart};
ghost use Rattle.dali_link_commands.specs.AddressAnswers.{marked_in as marked, may_be_good as good, shared_in as shared};
ghost use Rattle.dali_link_commands.specs.AddressAnswers.{status_at_end, watched_asked};
ghost use Rattle.dali_link_commands.specs.AddressAnswers.{is_left_open as left_open, is_well as well};
ghost use Rattle.dali_link_commands.specs.Benches.{TellsUnwritten};
ghost use Rattle.dali_link_commands.specs.ReadAnswers.{on_link};
ghost use Rattle.dali_link_commands.specs.Told.{TellsLine, is_out};

pub mod addressing;
pub mod counting;
pub mod lines;

use crate::address::addressing::{End, address_units};
use crate::address::counting::count_units;
use crate::address::lines::{OPEN, count_text, end_text};
use crate::drive_lines::{break_words, tell_fault};
use crate::journal_files::JournalFiles;
use crate::lines::{Bench, Lines, StdBench};
use crate::older::held_older;
use crate::read::tell_line;
use dali_address::{CensusEnd, Summary, Task};
use dali_drive::{Desk, DriveFault, Sink, Source, put_all};
use dali_input::Status;
use dali_job::{AddressCommand, Asked};
use dali_report::Watched;
use dali_store::Store;
use std::alloc::Global;
use std::fs::{File, Files};
use std::io::{Read, Write};

// How many silent asks a census takes for the answer that no unit is left (profile).
const CENSUS_CARE: u8 = 4;

/// The kind of progress that is shown of `address`. The number of units is known only if short addresses are named and
/// none is taken away before.
pub(crate) fn watched_address(command: &AddressCommand<'_>) -> Watched
    ensures { result ≡ watched_asked command.now.asked (length command.now.units.items) }
{
    match command.asked {
        Asked::Run(Task::List) => Watched::List,
        Asked::Run(Task::Give) => Watched::Address(command.units.len() as u64),
        Asked::Run(Task::All | Task::Close) | Asked::Count => Watched::Address(0),
    }
}

/// Carries `address` out at a desk whose streams haven't failed, as the function `address` does; the store is left
/// alone. If a journal is named that isn't at rest, or that a drive has open, nothing is sent: 15 Older, 20 Memory or
/// 21 File. No drive can open it as long as this goes on.
pub fn address_beside<
    's,
    R: Files<File = File> + AllocGlobal + JournalFiles,
    I: Read,
    L: Write,
    O: Write,
>(rt: &R, command: &AddressCommand<'_>, desk: &mut StdBench<'s, R, I, L, O>) -> Status
    requires unfailed { IsUnfailed (⟦<StdBench<'s, R, I, L, O> as Desk>⟧.look desk.old).failed }
    ensures carried_out { let look = ⟦<StdBench<'s, R, I, L, O> as Desk>⟧.look in
        IsAddressAnswer (R.has rt.now) command.now (look desk.old) result (look desk.new) }
    ensures unwritten { TellsUnwritten result (⟦<StdBench<'s, R, I, L, O> as Desk>⟧.look desk.new) }
{
    let units = command.units.as_slice();
    let Some(journal) = command.journal else {
        return address(rt.alloc(), command.asked, units, desk);
    };
    match held_older(rt, &[journal]) {
        Ok(_held) => address(rt.alloc(), command.asked, units, desk),
        Err(problem) => problem.tell(&mut desk.out),
    }
}

/// Gives, lists or counts over streams that haven't failed: a run as `address_units` has it, or a census as
/// `count_units` has it, what tells how that ended, and then a run that ends the initialisation state. After the lines
/// of a run comes how it ended, or the line of the fault that ends it, 2 Link, 3 Line, 4 End or 6 TooLong, preceded,
/// unless it lists, by the line that units may be left in the initialisation state. It ends as `Good` if no unit is
/// left without a short address, none is shared, none may be left in that state, and a census ended as `Apart`, else as
/// `Refused`.
///
/// If `lines` fails, it is 7 Out, or a first part of the last text is written.
pub fn address<I: Source, L: Sink, S: Store, W: Write>(
    alloc: Global,
    asked: Asked,
    units: &[u8],
    desk: &mut Bench<I, L, S, W>,
) -> Status
    requires unfailed { IsUnfailed (⟦<Bench<I, L, S, W> as Desk>⟧.look desk.old).failed }
    ensures answer { let look = ⟦<Bench<I, L, S, W> as Desk>⟧.look in
        IsAskedAnswer asked (look desk.old) result (look desk.new)
        × TellsUnwritten result (look desk.new) }
{
    match asked {
        Asked::Run(task) => run(alloc, task, units, None, desk),
        Asked::Count => count(alloc, desk),
    }
}

// A run, after this census or none.
fn run<I: Source, L: Sink, S: Store, W: Write>(
    alloc: Global,
    task: Task,
    units: &[u8],
    counted: Option<CensusEnd>,
    desk: &mut Bench<I, L, S, W>,
) -> Status
    requires unfailed { IsUnfailed (⟦<Bench<I, L, S, W> as Desk>⟧.look desk.old).failed }
    ensures answer { let look = ⟦<Bench<I, L, S, W> as Desk>⟧.look in
        IsRunAnswer task counted (on_link (look desk.old)) (look desk.old) result (look desk.new)
        × TellsUnwritten result (look desk.new) }
{
    let ended = address_units(
        task,
        units,
        &mut desk.link_in,
        &mut desk.link_out,
        &mut desk.out,
    );
    match ended {
        Ok(end) => tell_end(&mut desk.out, counted, end),
        Err(fault) => {
            let words = break_words(alloc, desk, fault);
            tell_break(alloc, &mut desk.out, task, fault, words)
        }
    }
}

// A census, which leaves the units in the initialisation state, and then a run that ends that.
fn count<I: Source, L: Sink, S: Store, W: Write>(
    alloc: Global,
    desk: &mut Bench<I, L, S, W>,
) -> Status
    requires unfailed { IsUnfailed (⟦<Bench<I, L, S, W> as Desk>⟧.look desk.old).failed }
    ensures answer { let look = ⟦<Bench<I, L, S, W> as Desk>⟧.look in
        IsCountAnswer (look desk.old) result (look desk.new)
        × TellsUnwritten result (look desk.new) }
{
    match count_units(CENSUS_CARE, &mut desk.link_in, &mut desk.link_out) {
        Ok(end) => {
            if !put_all(&mut desk.out, &count_text(&end)) {
                return Status::Unwritten;
            }
            run(alloc, Task::Close, &[], Some(end), desk)
        }
        Err(fault) => {
            let words = break_words(alloc, desk, fault);
            tell_break(alloc, &mut desk.out, Task::Close, fault, words)
        }
    }
}

fn is_apart(end: &CensusEnd) -> bool
    ensures { result ≡ apart end.now }
{
    matches!(end, CensusEnd::Apart(_))
}

// Tells why a run broke off.
fn tell_break<W: Write>(
    alloc: Global,
    lines: &mut Lines<W>,
    task: Task,
    fault: DriveFault,
    words: Option<String>,
) -> Status
    requires { has_failed lines.old.output ≡ is_out fault }
    ensures told { TellsBreak (left_open task fault) fault result
        (held W.contents lines.old.output) (held W.contents lines.new.output)
        × (result ≡ Status.Unwritten ↔ has_failed lines.new.output ≡ true) }
{
    if is_left_open(task, fault) {
        tell_open(alloc, lines, fault, words)
    } else {
        tell_fault(alloc, lines, fault, words)
    }
}

// Tells that units may be left in the initialisation state, and then the fault.
fn tell_open<W: Write>(
    alloc: Global,
    lines: &mut Lines<W>,
    fault: DriveFault,
    words: Option<String>,
) -> Status
    requires unfailed { has_failed lines.old.output ≡ false }
    requires other { is_out fault ≡ false }
    ensures told { TellsBreak true fault result (held W.contents lines.old.output) (held W.contents lines.new.output)
        × (result ≡ Status.Unwritten ↔ has_failed lines.new.output ≡ true) }
{
    if !put_all(lines, OPEN.as_bytes()) {
        return Status::Unwritten;
    }
    tell_fault(alloc, lines, fault, words)
}

// Whether units may be in the initialisation state after a run broke off, and that can be reported.
fn is_left_open(task: Task, fault: DriveFault) -> bool
    ensures is { result ≡ left_open task fault }
    ensures other { result ≡ true → is_out fault ≡ false }
{
    match (task, fault) {
        (Task::List, _) | (_, DriveFault::Out) => false,
        _ => true,
    }
}

// Reports how a run ended, after this census or none, if the lines haven't failed.
fn tell_end<W: Write>(lines: &mut Lines<W>, counted: Option<CensusEnd>, end: End) -> Status
    requires { has_failed lines.old.output ≡ false }
    ensures told { TellsLine (text_at_end (ended_after counted end))
        (status_at_end (good counted) (ended_after counted end)) result
        (held W.contents lines.old.output) (held W.contents lines.new.output) }
    ensures unwritten { result ≡ Status.Unwritten ↔ has_failed lines.new.output ≡ true }
{
    let end = end_after(counted, end);
    tell_line(lines, &end_text(end), status_of(may_be_good(counted), end))
}

fn end_after(counted: Option<CensusEnd>, end: End) -> End
    ensures { result ≡ ended_after counted end }
{
    match (counted, end) {
        (Some(census), End::Done(summary)) => End::Done(Summary {
            shared: shared_in(&census),
            ..summary
        }),
        _ => end,
    }
}

fn shared_in(end: &CensusEnd) -> u8
    ensures { result ≡ shared end.now }
{
    match end {
        CensusEnd::Shared(sharing) => marked_in(&sharing.addresses),
        CensusEnd::Apart(_) | CensusEnd::Unclear => 0,
    }
}

fn marked_in(addresses: &[bool; 64]) -> u8
    ensures { result ≡ marked addresses.now }
{
    let mut count = 0;
    for is_marked in addresses {
        count = with_one(count, *is_marked);
    }
    count
}

fn with_one(count: u8, is_marked: bool) -> u8
    requires { count < 64 }
    ensures sum { result ≡ count + (if is_marked then 1 else 0) }
    ensures most { result ≤ count + 1 }
{
    if is_marked { count + 1 } else { count }
}

fn may_be_good(counted: Option<CensusEnd>) -> bool
    ensures { result ≡ good counted }
{
    match counted {
        None => true,
        Some(census) => is_apart(&census),
    }
}

fn status_of(may_be_good: bool, end: End) -> Status
    ensures status { result ≡ status_at_end may_be_good end }
    ensures written { result ≢ Status.Unwritten }
{
    match end {
        End::Done(summary) if may_be_good && is_well(summary) => Status::Good,
        End::Done(_) | End::Taken(_) => Status::Refused,
    }
}

// Whether no unit is without a short address, none is shared, and none may be left in the initialisation state.
fn is_well(summary: Summary) -> bool
    ensures { result ≡ well summary }
{
    summary.missing == 0 && summary.shared == 0 && !summary.open
}
