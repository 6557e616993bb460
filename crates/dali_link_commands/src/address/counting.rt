ghost use Rattle.std.specs.Prelude.{IfOk, IfErr, false};
ghost use Rattle.dali_drive.specs.Transcript.{link_shown};
ghost use Rattle.dali_drive.specs.Driven.{LinkEnds, NoneFailed};
ghost use Rattle.dali_link_commands.specs.Counted.{CountingBroke, IsCounted};

use dali_address::{Census, CensusEnd, CensusWant, word_of_call};
use dali_drive::{DriveFault, Sink, Source, exchange};
use dali_frame::Frame;

/// Counts the units over a link, as `Census` says (profile). After `care` silent asks it believes that none is left,
/// and leaves the units in the initialisation state.
///
/// Each frame is sent by `exchange`. No stream may have failed.
///
/// `Link`, `Line`, `End` and `TooLong` say what ended it.
pub fn count_units<I: Source, L: Sink>(
    care: u8,
    link_in: &mut I,
    link_out: &mut L,
) -> Result<CensusEnd, DriveFault>
    requires unfailed { NoneFailed false (L.failed link_out.old) (I.failed link_in.old) false }
    ensures counted { IfOk result (λ end. IsCounted care end
        (link_shown (L.held link_out.old) (I.left link_in.old))
        (link_shown (L.held link_out.new) (I.left link_in.new))) }
    ensures broken { IfErr result (λ fault. CountingBroke fault
        (link_shown (L.held link_out.old) (I.left link_in.old))
        (link_shown (L.held link_out.new) (I.left link_in.new))) }
    ensures ends { LinkEnds result (L.failed link_out.new) (I.failed link_in.new) false }
{
    let mut census = Census::new(care);
    loop {
        match census.want() {
            CensusWant::Send(call) => {
                let frame = Frame::Other(word_of_call(&call));
                let answer = exchange(&frame, link_in, link_out)?;
                census.heard(call, answer);
            }
            CensusWant::Ended(end) => return Ok(end),
        }
    }
}
