ghost use Rattle.std.specs.Prelude.{IfOk, IfErr, None, false};
ghost use Rattle.dali_drive.specs.Transcript.{shown};
ghost use Rattle.dali_drive.specs.Driven.{LinkEnds, NoneFailed};
ghost use Rattle.dali_link_commands.specs.Addressed.{AddressingBroke, IsAddressed};

use crate::address::lines::address_line;
use dali_address::{Addressing, Summary, Task, Want, word_of_call};
use dali_drive::{DriveFault, Sink, Source, exchange, put_all};
use dali_frame::Frame;

/// How a run ended.
#[derive(Clone, Copy)]
pub enum End {
    /// It completed.
    Done(Summary),
    /// This named short address is that of a unit already. Only queries were sent.
    Taken(u8),
}

/// Gives or lists short addresses over a link, as `Addressing` says (profile): a line to `out` for each unit, as it is
/// found. Of the units' short addresses one above 63 and those after it are passed over.
///
/// Each frame is sent by `exchange`. No stream may have failed.
///
/// `Link`, `Line`, `End` and `TooLong` say what ended it, and `Out` that a line couldn't be written.
pub fn address_units<I: Source, L: Sink, O: Sink>(
    task: Task,
    units: &[u8],
    link_in: &mut I,
    link_out: &mut L,
    out: &mut O,
) -> Result<End, DriveFault>
    requires unfailed { NoneFailed false (L.failed link_out.old) (I.failed link_in.old) (O.failed out.old) }
    ensures addressed { IfOk result (λ end. IsAddressed task end
        (shown None (L.held link_out.old) (I.left link_in.old) (O.held out.old))
        (shown None (L.held link_out.new) (I.left link_in.new) (O.held out.new))) }
    ensures broken { IfErr result (λ fault. AddressingBroke task fault
        (shown None (L.held link_out.old) (I.left link_in.old) (O.held out.old))
        (shown None (L.held link_out.new) (I.left link_in.new) (O.held out.new))) }
    ensures ends { LinkEnds result (L.failed link_out.new) (I.failed link_in.new) (O.failed out.new) }
{
    let mut run = Addressing::new(task, units);
    loop {
        match run.want() {
            Want::Send(call) => {
                let frame = Frame::Other(word_of_call(&call));
                run.heard(exchange(&frame, link_in, link_out)?);
            }
            Want::Tell(line) => {
                if !put_all(out, &address_line(line)) {
                    return Err(DriveFault::Out);
                }
                run.said();
            }
            Want::Ended(summary) => return Ok(End::Done(summary)),
            Want::Taken(short) => return Ok(End::Taken(short)),
        }
    }
}
