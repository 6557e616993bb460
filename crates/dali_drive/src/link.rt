ghost use Rattle.std.specs.Prelude.{◌≡◌, ◌∷◌, [], IfOk, IfErr, OnOk, true, false};
ghost use Rattle.dali_frame.specs.Frame.{IsProper};
ghost use Rattle.dali_trace.specs.declared.happening.Happening.TheVariants.{Sent};
ghost use Rattle.dali_drive.specs.Transcript.{Transcript, link_shown};
ghost use Rattle.dali_drive.specs.Driven.{BreaksFrame, FailedAs, FlushesFirst};
ghost use Rattle.dali_drive.specs.Lines.{TakesText};

use crate::lines::{AnswerText, read_answer};
use crate::streams::{Sink, Source, send};
use dali_frame::{Frame, line_of};
use dali_trace::DriveFault;

/// Sends a frame over a link, and gives what came back (profile): the byte that was answered, or none.
///
/// The frame's line is written to `link_out` and flushed, and then one line is read from `link_in`: the answer, `--` or
/// two hexadecimal digits, ended by a line feed, before which a carriage return is dropped. The frame has to be proper,
/// and no stream of the link may have failed.
///
/// `Link`, `Line`, `End` and `TooLong` say what ended it.
pub fn exchange<I: Source, L: Sink>(
    frame: &Frame,
    link_in: &mut I,
    link_out: &mut L,
) -> Result<Option<u8>, DriveFault>
    requires proper { IsProper frame.now }
    requires link_in { I.failed link_in.old ≡ false }
    requires link_out { L.failed link_out.old ≡ false }
    ensures told { IfOk result (λ answer. Transcript (Sent frame.now answer ∷ [])
        (link_shown (L.held link_out.old) (I.left link_in.old))
        (link_shown (L.held link_out.new) (I.left link_in.new))) }
    ensures broken { IfErr result (λ fault. BreaksFrame frame.now fault
        (link_shown (L.held link_out.old) (I.left link_in.old))
        (link_shown (L.held link_out.new) (I.left link_in.new))) }
    ensures flushed { FlushesFirst result (L.held link_out.new) (L.flushed link_out.old) (L.flushed link_out.new)
        (I.left link_in.old) (I.left link_in.new) }
    ensures ok { OnOk result ((I.failed link_in.new ≡ false) × (L.failed link_out.new ≡ false)) }
    ensures err { IfErr result (λ fault. FailedAs fault false (L.failed link_out.new) (I.failed link_in.new) false) }
{
    exchange_noting(frame, link_in, link_out, &mut AnswerText::new())
}

// The same, and the text becomes what was read of the answer's line.
pub(crate) fn exchange_noting<I: Source, L: Sink>(
    frame: &Frame,
    link_in: &mut I,
    link_out: &mut L,
    text: &mut AnswerText,
) -> Result<Option<u8>, DriveFault>
    requires proper { IsProper frame.now }
    requires link_in { I.failed link_in.old ≡ false }
    requires link_out { L.failed link_out.old ≡ false }
    ensures told { IfOk result (λ answer. Transcript (Sent frame.now answer ∷ [])
        (link_shown (L.held link_out.old) (I.left link_in.old))
        (link_shown (L.held link_out.new) (I.left link_in.new))) }
    ensures broken { IfErr result (λ fault. BreaksFrame frame.now fault
        (link_shown (L.held link_out.old) (I.left link_in.old))
        (link_shown (L.held link_out.new) (I.left link_in.new))) }
    ensures text { IfErr result (λ fault. TakesText fault text.new.items (I.left link_in.old) (I.left link_in.new)) }
    ensures flushed { FlushesFirst result (L.held link_out.new) (L.flushed link_out.old) (L.flushed link_out.new)
        (I.left link_in.old) (I.left link_in.new) }
    ensures ok { OnOk result ((I.failed link_in.new ≡ false) × (L.failed link_out.new ≡ false)) }
    ensures err { IfErr result (λ fault. FailedAs fault false (L.failed link_out.new) (I.failed link_in.new) false) }
{
    text.clear();
    if !send(link_out, &line_of(frame)) {
        return Err(DriveFault::Link);
    }
    read_answer(link_in, text)
}
