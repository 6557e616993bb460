// How a drive's end is reported.
ghost use Rattle.std.specs.Prelude.{◌≡◌, ◌≢◌, ◌↔◌, IfErr, IfOk, OnOk, true};
ghost use Rattle.dali_drive.specs.Stored.{StoredShows};
ghost use Rattle.dali_text.specs.Output.{TellsFailure, Takes, has_failed, held, is_flushed};
ghost use Rattle.dali_input.specs.Ends.{TellsEnd};
ghost use Rattle.dali_link_commands.specs.Benches.{TellsUnwritten};
ghost use Rattle.dali_link_commands.specs.BehindAnswers.{IsBreakTold};
ghost use Rattle.dali_link_commands.specs.Told.{IsFaultTold, is_out, refused_lines};

use crate::lines::{Bench, Lines};
use crate::problem::Problem;
use dali_drive::{Desk, DriveFault, Sink, Source, StoredFault};
use dali_input::{Fault, ItemFault, Status, write_refused_item};
use dali_store::Store;
use dali_text::{Output, OutputFailed};
use std::alloc::Global;
use std::io::Write;

/// Why a drive or a reading broke off at a desk, in words: the kind of failure of the link's streams, or what the store
/// of the journal says of its own. None if there are none, or no memory for them.
pub(crate) fn break_words<I: Source, L: Sink, S: Store, W: Write>(
    alloc: Global,
    desk: &Bench<I, L, S, W>,
    fault: DriveFault,
) -> Option<String> {
    match (fault, desk.link_in.cause(), desk.link_out.cause()) {
        (DriveFault::Journal, _, _) => String::from_str(alloc, desk.journal.cause()?).ok(),
        (DriveFault::Link, _, Some(kind)) => {
            format!(in alloc; "the frames can't be written to standard output: {kind}").ok()
        }
        (DriveFault::Link, Some(kind), None) => {
            format!(in alloc; "the answers can't be read from standard input: {kind}").ok()
        }
        _ => None,
    }
}

/// Writes the fault of a drive, if the lines could be written: its line, and before that of 1 Journal and 2 Link its
/// cause in these words.
pub fn tell_fault<W: Write>(
    alloc: Global,
    lines: &mut Lines<W>,
    fault: DriveFault,
    words: Option<String>,
) -> Status
    requires { has_failed lines.old.output ≡ is_out fault }
    ensures told { IsFaultTold (Fault.Drive fault) result
        (held W.contents lines.old.output) (held W.contents lines.new.output)
        × (result ≡ Status.Unwritten ↔ has_failed lines.new.output ≡ true) }
{
    match fault {
        DriveFault::Out => Status::Unwritten,
        fault => Problem::broken(alloc, fault, words).tell(lines),
    }
}

// Reports why not all was followed, with the name of the journal, if the lines haven't failed, or that is the fault.
pub(crate) fn tell_broken<I: Source, L: Sink, S: Store, W: Write>(
    alloc: Global,
    name: &str,
    desk: &mut Bench<I, L, S, W>,
    fault: StoredFault,
) -> Status
    requires shown { StoredShows fault (⟦<Bench<I, L, S, W> as Desk>⟧.look desk.old).failed }
    ensures told { let look = ⟦<Bench<I, L, S, W> as Desk>⟧.look in
        IsBreakTold fault result (look desk.old).streams.out (look desk.new).streams.out }
    ensures only { desk.new ≡ record desk.old { out = desk.new.out } }
    ensures unwritten { TellsUnwritten result (⟦<Bench<I, L, S, W> as Desk>⟧.look desk.new) }
    ensures not_good { result ≢ Status.Good }
{
    match fault {
        StoredFault::Open(fault) => {
            Problem::unopened(alloc, name, fault, desk.journal.cause()).tell(&mut desk.out)
        }
        StoredFault::Drive(fault) => {
            let words = break_words(alloc, desk, fault);
            tell_fault(alloc, &mut desk.out, fault, words)
        }
    }
}

/// Writes the refused items of a list of orders, and nothing after them.
///
/// If a call of the output fails, later ones write nothing more to it, and it ends as `Unwritten`.
pub fn tell_refused<W: Write>(output: &mut Output<W>, refused: &[(u64, ItemFault)]) -> Status
    ensures told { result ≢ Status.Unwritten → (result ≡ Status.Refused)
        × Takes W.contents output.old output.new (refused_lines refused.now) }
    ensures unwritten { result ≡ Status.Unwritten ↔ has_failed output.new ≡ true }
    ensures flushed { result ≢ Status.Unwritten → is_flushed output.new ≡ true }
{
    written_status(write_refused(output, refused))
}

// The same, or that the output has failed.
#[tactic(auto, using(dali_text::proofs::StreamLemmas::appends_kept))]
fn write_refused<W: Write>(
    output: &mut Output<W>,
    refused: &[(u64, ItemFault)],
) -> Result<Status, OutputFailed>
    ensures told { IfOk result (λ status. (status ≡ Status.Refused)
        × Takes W.contents output.old output.new (refused_lines refused.now)) }
    ensures end { TellsEnd result output.new }
{
    write_items(output, refused)?;
    output.flush()?;
    Ok(Status::Refused)
}

// Writes a line for each refused item.
#[tactic(auto, using(dali_text::proofs::StreamLemmas::appends_both))]
fn write_items<W: Write>(
    output: &mut Output<W>,
    refused: &[(u64, ItemFault)],
) -> Result<(), OutputFailed>
    ensures lines { OnOk result (Takes W.contents output.old output.new (refused_lines refused.now)) }
    ensures failed { TellsFailure result output.old output.new }
{
    for &(item, fault) in refused {
        write_refused_item(output, item, fault)?;
    }
    Ok(())
}

// How a command ended that wrote what it tells, or couldn't.
pub(crate) fn written_status(written: Result<Status, OutputFailed>) -> Status
    ensures ok { IfOk written (λ status. result ≡ status) }
    ensures err { IfErr written (λ _. result ≡ Status.Unwritten) }
{
    match written {
        Ok(status) => status,
        Err(_) => Status::Unwritten,
    }
}
