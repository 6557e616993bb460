//! Laws of causes: the frames of an order that came to no good end, as its cause describes them.

ghost use Rattle.std.specs.Prelude.{◌≡◌, ◌⊎◌, List, Some};
ghost use Rattle.dali_bank.specs.Order.{Contents, AreUpdates};
ghost use Rattle.dali_journal.specs.declared.standing.Standing.TheVariants as standings;
ghost use Rattle.dali_write.specs.declared.ask.Cause.{Cause};
ghost use Rattle.dali_write.specs.Causes.{IsShown};
ghost use Rattle.dali_trace.specs.declared.happening.Happening.{Happening};
ghost use Rattle.dali_trace.specs.Trace.{Start, standing_at};
ghost use Rattle.dali_trace.specs.ByPlan.{told_in};
ghost use Rattle.dali_trace.specs.Causes.{IsCauseAt};

/// The cause of the order at hand is shown by what its unit was asked and answered: each try of that access missed, or
/// a read told this byte of this location, which is the first in its block that is another one than was written.
pub fn causes_are_shown()
    ensures { (start : Start) (past : List Happening) (order : Contents) (cause : Cause) → AreUpdates order.updates
        → (standing_at start past ≡ standings.Began order) ⊎ (standing_at start past ≡ standings.Opened order)
        → IsCauseAt start past (Some cause) → IsShown order.unit order.updates (told_in past) cause }
{}
