// The requirements at the end of a drive, and how it is reported that nothing was done.
ghost use Rattle.std.specs.Prelude.{◌≡◌, ◌≢◌, ◌↔◌, false, true};
ghost use Rattle.dali_text.specs.Output.{has_failed, held, is_flushed};
ghost use Rattle.dali_link_commands.specs.Bare.{TellsBare, TellsEnded, is_bare as nothing_done, is_met as met};
ghost use Rattle.dali_link_commands.specs.Bare.{nothing_line};
ghost use Rattle.dali_link_commands.specs.Told.{TellsLine};
ghost use Rattle.dali_link_commands.specs.Bare.{ended_status as status_at_end};

use crate::lines::Lines;
use dali_drive::{Sink, put_all};
use dali_input::Status;
use dali_job::Required;
use dali_report::Outcome;
use std::io::Write;

// The line that tells it.
const NOTHING: &str = "error: nothing was done: ORDERS has no orders\n";

/// The status of a drive that completed with this outcome; if something is required and nothing was done, that is
/// reported.
pub(crate) fn tell_ended<W: Write>(
    lines: &mut Lines<W>,
    required: Required,
    outcome: Outcome,
) -> Status
    requires { has_failed lines.old.output ≡ false }
    ensures told { TellsEnded required outcome result
        (held W.contents lines.old.output) (held W.contents lines.new.output) }
    ensures unwritten { result ≡ Status.Unwritten ↔ has_failed lines.new.output ≡ true }
{
    let ended = ended_status(required, outcome);
    tell_bare(lines, is_bare(required, outcome), ended)
}

fn ended_status(required: Required, outcome: Outcome) -> Status
    ensures status { result ≡ status_at_end required outcome }
    ensures written { result ≢ Status.Unwritten }
{
    if is_met(required, outcome) {
        Status::Good
    } else {
        Status::Refused
    }
}

fn is_met(required: Required, outcome: Outcome) -> bool
    ensures { result ≡ met required outcome }
{
    match (required, outcome) {
        (Required::Nothing, _) | (_, Outcome::DoneNow) | (Required::Done, Outcome::Done) => true,
        (_, Outcome::Nothing | Outcome::NotDone) | (Required::DoneNow, Outcome::Done) => false,
    }
}

fn is_bare(required: Required, outcome: Outcome) -> bool
    ensures { result ≡ nothing_done required outcome }
{
    !matches!(required, Required::Nothing) && matches!(outcome, Outcome::Nothing)
}

/// Reports that nothing was done, if that is so; else it has the status `ended`.
pub(crate) fn tell_bare<W: Write>(lines: &mut Lines<W>, is_bare: bool, ended: Status) -> Status
    requires unfailed { has_failed lines.old.output ≡ false }
    requires written { ended ≢ Status.Unwritten }
    ensures told { TellsBare is_bare ended result
        (held W.contents lines.old.output) (held W.contents lines.new.output) }
    ensures unwritten { result ≡ Status.Unwritten ↔ has_failed lines.new.output ≡ true }
{
    if !is_bare {
        return ended;
    }
    tell_nothing(lines)
}

// Tells that nothing was done.
fn tell_nothing<W: Write>(lines: &mut Lines<W>) -> Status
    requires { has_failed lines.old.output ≡ false }
    ensures told { TellsLine nothing_line Status.Refused result
        (held W.contents lines.old.output) (held W.contents lines.new.output) }
    ensures unwritten { result ≡ Status.Unwritten ↔ has_failed lines.new.output ≡ true }
    ensures flushed { result ≢ Status.Unwritten → is_flushed lines.new.output ≡ true }
{
    if !put_all(lines, NOTHING.as_bytes()) {
        return Status::Unwritten;
    }
    if !lines.flush() {
        return Status::Unwritten;
    }
    Status::Refused
}
