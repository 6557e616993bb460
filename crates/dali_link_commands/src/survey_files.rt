ghost use Rattle.std.specs.Prelude.{◌≡◌};
ghost use Rattle.dali_drive.specs.Desks.{IsUnfailed};
ghost use Rattle.dali_link_commands.specs.Benches.{TellsUnwritten};
ghost use Rattle.dali_link_commands.specs.OrdersAnswers.{IsFileAnswer};
ghost use Rattle.dali_link_commands.specs.ReadAnswers.{IsVerifyAnswer};

use crate::drive_files::opened;
use crate::lines::StdBench;
use crate::problem::Problem;
use crate::survey::verify_input;
use dali_drive::Desk;
use dali_input::{Input, Status};
use dali_report::Report;
use std::fs::{File, Files};
use std::io::{Read, Write};

/// Compares units with the orders of a file over a link, as `verify_input` does.
///
/// No contract tells what a file holds. Whatever this one gave, the orders are those which these bytes spell.
pub fn verify_file<
    's,
    R: Files<File = File> + AllocGlobal,
    I: Read,
    L: Write,
    O: Write,
    N: Write + Drop,
>(rt: &R, name: &str, desk: &mut StdBench<'s, R, I, L, O>, report: &mut Report<N>) -> Status
    requires unfailed { IsUnfailed (⟦<StdBench<'s, R, I, L, O> as Desk>⟧.look desk.old).failed }
    ensures verified { let look = ⟦<StdBench<'s, R, I, L, O> as Desk>⟧.look in
        IsFileAnswer (IsVerifyAnswer N.contents report.old report.new) (report.new ≡ report.old) (look desk.old)
        result (look desk.new)
        × TellsUnwritten result (look desk.new) }
{
    match opened(rt, name) {
        Ok((file, _found)) => {
            verify_input(rt.alloc(), name, &mut Input::new(file), desk, report)
        }
        Err(error) => Problem::refused(rt.alloc(), name, error).tell(&mut desk.out),
    }
}
