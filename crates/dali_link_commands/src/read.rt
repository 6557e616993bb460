ghost use Rattle.std.specs.Prelude.{◌≡◌, ◌≢◌, ◌↔◌, ◌≤◌, true, false};
ghost use Rattle.dali_drive.specs.Desks.{IsUnfailed};
ghost use Rattle.dali_store.specs.Stores.{LeavesOnly};
ghost use Rattle.dali_text.specs.Output.{has_failed, held};
ghost use Rattle.dali_link_commands.specs.Benches.{TellsUnwritten};
ghost use Rattle.dali_link_commands.specs.ReadAnswers.{IsReadAnswer};
ghost use Rattle.dali_input.specs.declared.fault.InputFault.{InputFault};
ghost use Rattle.dali_link_commands.specs.OrdersAnswers.{IsUnread};
ghost use Rattle.dali_link_commands.specs.Told.{IsFaultTold, TellsLine};

use crate::drive_lines::{break_words, tell_fault};
use crate::lines::{Bench, Lines};
use crate::problem::Problem;
use dali_drive::{Desk, Sink, Source, bytes_line, put_all, read_unit, silent_line};
use dali_input::{Fault, InputFault, Status, text_of};
use dali_read::Places;
use dali_store::Store;
use std::alloc::Global;
use std::io::Write;

/// Reads memory bank 1 of the unit at a short address, at most 63, over streams that haven't failed, and puts its bytes
/// into a store as text, whole: `unit U bytes N` if they are there, or `unit U silent`, and then the store is as it
/// was. It ends as `Good`, or as `Refused` if the unit was silent.
///
/// Faults are 2 Link, 3 Line, 4 End and 6 TooLong of the link, and if the store fails 21 File, or 20 Memory if it says
/// nothing of that. If `lines` fails, a first part of a line is written, and it ends as `Unwritten`.
pub fn read_bank<I: Source, L: Sink, S: Store, W: Write>(
    alloc: Global,
    unit: u8,
    name: &str,
    desk: &mut Bench<I, L, S, W>,
) -> Status
    requires ready { (unit ≤ 63) × IsUnfailed (⟦<Bench<I, L, S, W> as Desk>⟧.look desk.old).failed }
    ensures answer { let look = ⟦<Bench<I, L, S, W> as Desk>⟧.look in
        IsReadAnswer unit (LeavesOnly S.moment S.left_since desk.old.journal desk.new.journal) (look desk.old) result
        (look desk.new)
        × TellsUnwritten result (look desk.new) }
{
    match read_unit(unit, &Places::Bank, &mut desk.link_in, &mut desk.link_out) {
        Ok(Some(bytes)) => {
            if desk.journal.replace(&text_of(&bytes)) {
                let line = bytes_line(unit, bytes.len() as u8);
                tell_line(&mut desk.out, &line, Status::Good)
            } else {
                tell_unwritten(alloc, &mut desk.out, name, desk.journal.cause())
            }
        }
        Ok(None) => tell_line(&mut desk.out, &silent_line(unit), Status::Refused),
        Err(fault) => {
            let words = break_words(alloc, desk, fault);
            tell_fault(alloc, &mut desk.out, fault, words)
        }
    }
}

// Writes that the file of a bank can't be written, and why: if nothing is said of that, memory ran out for it.
fn tell_unwritten<W: Write>(
    alloc: Global,
    lines: &mut Lines<W>,
    name: &str,
    words: Option<&str>,
) -> Status
    requires { has_failed lines.old.output ≡ false }
    ensures told { (fault : InputFault) × IsUnread fault × IsFaultTold (Fault.Input fault) result
        (held W.contents lines.old.output) (held W.contents lines.new.output) }
    ensures unwritten { result ≡ Status.Unwritten ↔ has_failed lines.new.output ≡ true }
{
    if words.is_some() {
        return Problem::failed(alloc, name, words).tell(lines);
    }
    Problem::unread(alloc, name, InputFault::Memory, None).tell(lines)
}

/// Writes a line, and gives the status if that could be done.
pub(crate) fn tell_line<W: Write>(lines: &mut Lines<W>, line: &[u8], good: Status) -> Status
    requires { has_failed lines.old.output ≡ false }
    ensures told { TellsLine line.now good result
        (held W.contents lines.old.output) (held W.contents lines.new.output) }
    ensures unwritten { good ≢ Status.Unwritten → (result ≡ Status.Unwritten ↔ has_failed lines.new.output ≡ true) }
{
    if put_all(lines, line) {
        good
    } else {
        Status::Unwritten
    }
}
