// The streams of a drive.
ghost use Rattle.std.specs.Prelude.{◌≡◌, ◌∷◌, [], ℕ, List, Option, None, IfErr, IfOk, OnOk, true, false};
ghost use Rattle.std.specs.Io.KnownBytes.{Appends, Keeps};
ghost use Rattle.dali_frame.specs.Frame.{IsProper};
ghost use Rattle.dali_trace.specs.declared.happening.Happening.TheVariants.{Sent};
ghost use Rattle.dali_journal.specs.JournalState.{JournalState};
ghost use Rattle.dali_store.specs.Stores.{Elapses, LeavesOnly};
ghost use Rattle.dali_store.specs.Opened.{LeavesAlike};
ghost use Rattle.dali_drive.specs.Behind.{EndsUnopened, IsOpenedBehind, IsReadyBehind};
ghost use Rattle.dali_drive.specs.Desks.{Look, IsDurableAt, IsUnfailed, IsAhead, ShowsFault, FailsOpen, EndsAs};
ghost use Rattle.dali_drive.specs.Desks.{LeavesPut, LeavesNoMore, Grows, with_journal, with_link, with_out};
ghost use Rattle.dali_drive.specs.Driven.{BreaksFrame, FlushesFirst};
ghost use Rattle.dali_drive.specs.Lines.{TakesText};
ghost use Rattle.dali_drive.specs.Streams.{PutsFirst};
ghost use Rattle.dali_drive.specs.Transcript.{Transcript, link_shown};

use crate::lines::AnswerText;
use dali_frame::Frame;
use dali_journal::Journal;
use dali_store::OpenFault;
use dali_trace::DriveFault;
use std::alloc::Global;

/// The streams of a drive: a journal, a link there and back, and replies (profile). Each of its calls is made when no
/// stream has failed and all that was kept is durable: a record before the next frame, reply or record goes out.
pub trait Desk {
    /// The contents of its streams, those of them that have failed, and what a stop at this moment may leave of the
    /// journal.
    ghost look: { Self → Look };

    /// The bytes of the link that were flushed, if they are known.
    ghost link_flushed: { Self → Option (List ℕ) };

    /// The journal's moment, as a number that doesn't fall.
    ghost moment: { Self → ℕ };

    /// The part of it that a stop at some moment from that one on might have left.
    ghost left_since: { Self → ℕ → List ℕ → Type 0 };

    /// Its streams are those of the other.
    ghost same: { Self → Self → Type 0 };

    /// Puts a record's bytes at the end of the journal. A stop may leave a first part of them until they are settled.
    fn put(&mut self, bytes: &[u8]) -> bool
        requires ahead { IsAhead (look self.old) }
        ensures whole { result ≡ true
            → Appends (look self.old).streams.journal (look self.new).streams.journal bytes.now }
        ensures cut { result ≡ false
            → PutsFirst (look self.old).streams.journal (look self.new).streams.journal bytes.now }
        ensures only { (look self.new).streams ≡ with_journal (look self.old).streams (look self.new).streams }
        ensures unfailed { result ≡ true → IsUnfailed (look self.new).failed }
        ensures err { result ≡ false → ShowsFault DriveFault.Journal (look self.new).failed }
        ensures left { LeavesPut (look self.old) (look self.new) }
        ensures grown { Grows look moment left_since same self.old self.new };

    /// Sees to it that a stop leaves all that was put.
    fn settle(&mut self) -> bool
        requires { IsUnfailed (look self.old).failed }
        ensures kept { Keeps (look self.old).streams.journal (look self.new).streams.journal }
        ensures only { (look self.new).streams ≡ with_journal (look self.old).streams (look self.new).streams }
        ensures ahead { result ≡ true → IsAhead (look self.new) }
        ensures err { result ≡ false → ShowsFault DriveFault.Journal (look self.new).failed }
        ensures left { LeavesNoMore (look self.old) (look self.new) }
        ensures time { Elapses (moment self.old) (moment self.new) (left_since self.old) (left_since self.new)
            (look self.new).may_leave }
        ensures stays { same self.old self.new };

    /// Sends a frame's line over the link, and takes its answer's (`exchange`). The text becomes what was read of that.
    fn exchange(&mut self, frame: &Frame, text: &mut AnswerText) -> Result<Option<u8>, DriveFault>
        requires ahead { IsAhead (look self.old) }
        requires proper { IsProper frame.now }
        ensures told { IfOk result (λ answer. Transcript (Sent frame.now answer ∷ [])
            (link_shown (look self.old).streams.link (look self.old).streams.answers)
            (link_shown (look self.new).streams.link (look self.new).streams.answers)) }
        ensures broken { IfErr result (λ fault. BreaksFrame frame.now fault
            (link_shown (look self.old).streams.link (look self.old).streams.answers)
            (link_shown (look self.new).streams.link (look self.new).streams.answers)) }
        ensures text { IfErr result (λ fault.
            TakesText fault text.new.items (look self.old).streams.answers (look self.new).streams.answers) }
        ensures flushed { FlushesFirst result (look self.new).streams.link (link_flushed self.old)
            (link_flushed self.new) (look self.old).streams.answers (look self.new).streams.answers }
        ensures only { (look self.new).streams ≡ with_link (look self.old).streams (look self.new).streams }
        ensures ends { EndsAs result (look self.new) }
        ensures settled { IsDurableAt (look self.new) }
        ensures grown { Grows look moment left_since same self.old self.new };

    /// Puts a line after the replies.
    fn say(&mut self, line: &[u8]) -> bool
        requires ahead { IsAhead (look self.old) }
        ensures whole { result ≡ true
            → Appends (look self.old).streams.out (look self.new).streams.out line.now }
        ensures cut { result ≡ false
            → PutsFirst (look self.old).streams.out (look self.new).streams.out line.now }
        ensures only { (look self.new).streams ≡ with_out (look self.old).streams (look self.new).streams }
        ensures unfailed { result ≡ true → IsUnfailed (look self.new).failed }
        ensures err { result ≡ false → ShowsFault DriveFault.Out (look self.new).failed }
        ensures settled { IsDurableAt (look self.new) }
        ensures grown { Grows look moment left_since same self.old self.new };

    /// Since this moment there is no other.
    ghost only_now: { (desk : Self) (c : List ℕ) → left_since desk (moment desk) c → (look desk).may_leave c };

    /// Its streams are its own, and those of a third if they are of a second.
    ghost same_now: { (desk : Self) → same desk desk };

    ghost same_on: { (a b c : Self) → same a b → same b c → same a c };
}

// Puts a record's bytes at the end of the journal, and sees to it that a stop leaves them.
pub(crate) fn keep<D: Desk>(desk: &mut D, bytes: &[u8]) -> bool
    requires ahead { IsAhead (D.look desk.old) }
    ensures whole { result ≡ true
        → Appends (D.look desk.old).streams.journal (D.look desk.new).streams.journal bytes.now }
    ensures ahead { result ≡ true → IsAhead (D.look desk.new) }
    ensures cut { result ≡ false
        → PutsFirst (D.look desk.old).streams.journal (D.look desk.new).streams.journal bytes.now }
    ensures only { (D.look desk.new).streams ≡ with_journal (D.look desk.old).streams (D.look desk.new).streams }
    ensures err { result ≡ false → ShowsFault DriveFault.Journal (D.look desk.new).failed }
    ensures left { LeavesPut (D.look desk.old) (D.look desk.new) }
    ensures grown { Grows D.look D.moment D.left_since D.same desk.old desk.new }
{
    desk.put(bytes) && desk.settle()
}

/// A desk whose journal is still to be opened.
pub trait OpenDesk: Desk {
    /// The journal of all older ones, which its own follows, if there are any.
    ghost older: { Self → Option JournalState };

    /// Opens its journal (`dali_store::open`), over streams that haven't failed, and joins it to the older one, which
    /// has to be at rest: the journal of both. The older one is given away with it, so a desk is opened once.
    fn open(&mut self, alloc: Global, limit: u32, most: usize) -> Result<Journal, OpenFault>
        requires { IsReadyBehind (older self.old) (Self.look self.old) }
        ensures journal { IfOk result (IsOpenedBehind (older self.old) limit most (Self.look self.old).streams
            (Self.look self.new).streams) }
        ensures given { OnOk result (older self.new ≡ None) }
        ensures ahead { OnOk result (IsAhead (Self.look self.new)) }
        ensures fault { IfErr result (λ fault. EndsUnopened (older self.old) limit most fault (Self.look self.old)
            (Self.look self.new)) }
        ensures err { IfErr result (λ fault. FailsOpen fault (Self.look self.new).failed) }
        ensures any_moment { LeavesOnly Self.moment Self.left_since self.old self.new
            (LeavesAlike limit (Self.look self.old).streams.journal (Self.look self.old).may_leave) };
}
