//! The promises that orders keep over a bus that alters answers.

ghost use Rattle.std.specs.Prelude.{◌≡◌, ◌∷◌, ℕ, Bool, true, false, List, []};
ghost use Rattle.dali_bank.specs.Order.{Contents, AreUpdates};
ghost use Rattle.dali_bus.specs.World.{is_enabled};
ghost use Rattle.dali_journal.specs.declared.record.Code.TheVariants as codes;
ghost use Rattle.dali_journal.specs.declared.record.Record.TheVariants as records;
ghost use Rattle.dali_journal.specs.declared.standing.Standing.TheVariants as standings;
ghost use Rattle.dali_write.specs.declared.ask.Verdict.{Verdict};
ghost use Rattle.dali_write.specs.declared.pace.Pace.{Pace};
ghost use Rattle.dali_write.specs.Noise.{Noisy, NoisyStep};
ghost use Rattle.dali_write.specs.Touches.{Touches, writes_of};
ghost use Rattle.dali_write.specs.Verdicts.{Says};
ghost use Rattle.dali_write.specs.Worlds.{IsAmong, Run, KeepsAt, OnlyEnabled};
ghost use Rattle.dali_trace.specs.declared.happening.Happening.{Happening};
ghost use Rattle.dali_trace.specs.declared.happening.Happening.TheVariants as happenings;
ghost use Rattle.dali_trace.specs.Trace.{Start, pace_at, standing_at};
ghost use Rattle.dali_trace.specs.ByPlan.{ByPlan, told_in};

/// At each moment of a trace that keeps to the plans, if the frames of the session at hand were carried by a bus that
/// alters answers as `NoisyStep` says: an opened order has changed only its own places, each to a byte that it writes
/// there, and enabled no other unit; one that is begun has changed nothing; a left unit only its lock byte. The facts
/// when the next record is kept need a bus that makes up no byte for a read or a write that wasn't answered:
/// `Ended(Done)` is true, and after `Ended(Doubt)` and `Closed` the unit isn't enabled.
pub fn altered_answers_spare_orders()
    ensures opened { (made : Bool) (loses : List ℕ) (start : Start) (past : List Happening) (order : Contents)
        (first last : Noisy)
        → ByPlan start past → standing_at start past ≡ standings.Opened order
        → (made ≡ true → pace_at start past ≡ Pace.Checked) → OnlyEnabled order.unit first.world
        → Run (NoisyStep made order.unit) (IsAmong loses) (told_in past) first last
        → Touches (IsAmong loses) (writes_of order.updates) order.unit first.world last.world }
    ensures begun { (made : Bool) (loses : List ℕ) (start : Start) (past : List Happening) (order : Contents)
        (first last : Noisy)
        → ByPlan start past → standing_at start past ≡ standings.Began order
        → Run (NoisyStep made order.unit) (IsAmong loses) (told_in past) first last
        → (address : ℕ) → KeepsAt (IsAmong loses) first.world last.world address }
    ensures left { (made : Bool) (loses : List ℕ) (start : Start) (past : List Happening) (unit : ℕ)
        (first last : Noisy)
        → ByPlan start past → standing_at start past ≡ standings.Left unit → OnlyEnabled unit first.world
        → Run (NoisyStep made unit) (IsAmong loses) (told_in past) first last
        → Touches (IsAmong loses) ((2, 0xFF) ∷ []) unit first.world last.world }
    ensures done { (loses : List ℕ) (start : Start) (past : List Happening) (order : Contents) (first last : Noisy)
        → ByPlan start (happenings.Kept (records.Ended codes.Done) ∷ past)
        → standing_at start past ≡ standings.Opened order → AreUpdates order.updates
        → OnlyEnabled order.unit first.world
        → Run (NoisyStep false order.unit) (IsAmong loses) (told_in past) first last
        → Says (IsAmong loses) order.unit order.updates last.world Verdict.Done }
    ensures doubt { (loses : List ℕ) (start : Start) (past : List Happening) (order : Contents) (first last : Noisy)
        → ByPlan start (happenings.Kept (records.Ended codes.Doubt) ∷ past)
        → standing_at start past ≡ standings.Opened order
        → Run (NoisyStep false order.unit) (IsAmong loses) (told_in past) first last
        → is_enabled last.world order.unit ≡ false }
    ensures closed { (loses : List ℕ) (start : Start) (past : List Happening) (unit : ℕ) (first last : Noisy)
        → ByPlan start (happenings.Kept (records.Closed unit) ∷ past)
        → standing_at start past ≡ standings.Left unit
        → Run (NoisyStep false unit) (IsAmong loses) (told_in past) first last
        → is_enabled last.world unit ≡ false }
{}
