// Observers of a drive.
ghost use Rattle.std.specs.Prelude.{◌≡◌, ◌∷◌, [], ℕ, List, ⊤};
ghost use Rattle.dali_frame.specs.Frame.{IsProper};
ghost use Rattle.dali_frame.specs.declared.forward.Frame.{Frame};
ghost use Rattle.dali_trace.specs.declared.happening.Happening.{Happening};
ghost use Rattle.dali_trace.specs.Trace.{Start, records_of};
ghost use Rattle.dali_trace.specs.Causes.{IsCauseBeside};
ghost use Rattle.dali_trace.specs.declared.fault.DriveFault.{DriveFault};
ghost use Rattle.dali_drive.specs.Found.{Found, was_found};

use dali_bank::Order;
use dali_engine::Cause;
use dali_frame::Frame;
use dali_journal::Journal;
use dali_read::Finding;
use dali_trace::{DriveFault, Happening};

/// An observer that sees what happens in a drive, at once and in its order (profile). Whatever becomes of that, the
/// drive goes on.
pub trait Observer {
    /// From this start, and since it was the first of the two, it has seen all of this trace.
    ghost told: { Start → Self → Self → List Happening → Type 0 };

    /// It has seen the trace and then that this fault broke the exchange of this frame off, and what was read of the
    /// answer.
    ghost told_end: { Start → Self → Self → List Happening → DriveFault → Frame → List ℕ → Type 0 };

    /// A drive begins with this journal.
    fn begin(&mut self, journal: &Journal)
        ensures { (start : Start) → start.records ≡ journal.now.records → told start self.old self.new [] };

    /// This happened, and this is the journal after it. With a record that was kept comes the cause, if the order ended
    /// badly.
    fn see(&mut self, happening: &Happening, journal: &Journal, cause: Option<Cause>)
        ensures { (start : Start) (first : Self) (past : List Happening) → told start first self.old past
            → records_of start (happening.now ∷ past) ≡ journal.now.records
            → IsCauseBeside start past happening.now cause
            → told start first self.new (happening.now ∷ past) };

    /// The fault broke the exchange of the frame off, which has to be proper, and this was read of the answer.
    fn see_end(&mut self, fault: DriveFault, frame: &Frame, read: &[u8])
        requires { IsProper frame.now }
        ensures { (start : Start) (first : Self) (past : List Happening) → told start first self.old past
            → told_end start first self.new past fault frame.now read.now };
}

/// An observer that sees what is found of orders, one after the other (profile).
pub trait FindingObserver {
    /// Since it was the first of the two, it has seen that all this was found, the newest first.
    ghost told_found: { Self → Self → List Found → Type 0 };

    /// This was found of the order, in all these bytes that were read for it: nothing of a silent unit.
    fn find(&mut self, order: &Order, found: Option<Finding>, read: &[u8])
        ensures { (first : Self) (past : List Found) → told_found first self.old past
            → told_found first self.new (was_found order.now found read.now ∷ past) };

    /// At first it has seen none.
    ghost told_none: { (observer : Self) → told_found observer observer [] };
}

/// Nobody.
#[derive(Drop)]
pub struct Nobody;

impl Observer for Nobody {
    ghost told = { λ _ _ _ _. ⊤ };

    ghost told_end = { λ _ _ _ _ _ _ _. ⊤ };

    fn begin(&mut self, _journal: &Journal) {}

    fn see(&mut self, _happening: &Happening, _journal: &Journal, _cause: Option<Cause>) {}

    fn see_end(&mut self, _fault: DriveFault, _frame: &Frame, _read: &[u8]) {}
}
