//! Laws of a writer, over its definitions alone. Each is the contract of a function that does nothing.

ghost use Rattle.std.specs.Prelude.{◌≡◌, ◌+◌, ◌*◌, ◌<◌, ◌≤◌, ◌++◌, ℕ, Bool, true, false, List, [], length};
ghost use Rattle.dali_bus.specs.World.{World, is_enabled};
ghost use Rattle.dali_bus.specs.Chain.{IsChain};
ghost use Rattle.dali_journal.specs.declared.standing.Standing.TheVariants as standings;
ghost use Rattle.dali_write.specs.declared.pace.Pace.{Pace};
ghost use Rattle.dali_write.specs.Plans.{rows_of, read_backs, greatest};
ghost use Rattle.dali_write.specs.Counts.{jumps};
ghost use Rattle.dali_trace.specs.Work.{work_limit, frames_from};
ghost use Rattle.dali_trace.specs.declared.happening.Happening.{Happening};
ghost use Rattle.dali_trace.specs.Trace.{Start, powered_of, is_at_work};
ghost use Rattle.dali_trace.specs.Legal.{Legal, IsFinished};
ghost use Rattle.dali_trace.specs.Steps.{IsSaidInTime};
ghost use Rattle.dali_trace.specs.ByPlan.{ByPlan};
ghost use Rattle.dali_laws.specs.Powered.{unpowered, IsPowerApart};
ghost use Rattle.dali_laws.specs.Joined.{Sitting, joined, FollowOn, IsOneTrace};
ghost use Rattle.dali_laws.specs.Stays.{Stay, among, MovesAmid, WorkStays, IsAlong, IsRightThrough, Begins, IsStay};
ghost use Rattle.dali_laws.specs.Stays.{bare, IsReady, IsReadyAtRest, just, UnitFits};
ghost use Rattle.dali_journal.specs.declared.record.Record.{Record};
ghost use Rattle.dali_journal.specs.Sentence.{standing_of, IsSentence};
ghost use Rattle.dali_trace.specs.Fits.{Fits};
ghost use Rattle.dali_trace.specs.Next.{IsNext, IsSameBut};
ghost use Rattle.dali_trace.specs.Work.{IsWorked};
ghost use Rattle.dali_write.specs.Worlds.{IsAmong, KeepsAt};
ghost use Rattle.dali_trace.specs.Moments.{Always, FitsAt, OnlyNamedAt, AppliedAt};
ghost use Rattle.dali_laws.specs.Law.{RecordsAreTrue, RecordsAreASentence, TakenOrdersAreKept, OneReplyIsDue};
ghost use Rattle.dali_laws.specs.Law.{RepeatsAreAnswered, RepeatsAreQuiet, RefusedOrdersChangeNothing, QuietUntilTaken};

pub use dali_write::laws::misses_are_those_of_the_tries;

/// Along every chain of worlds of every legal trace, whichever units lose their power, from a world that fits the start
/// world and the start records and in which no unit is write-enabled but the one that they name.
pub fn every_moment_fits()
    // each moment fits;
    ensures fits { Always FitsAt }
    // no unit but the named one is enabled.
    ensures enabled { Always OnlyNamedAt }
{}

/// Along every chain of worlds of every legal trace, whatever was in them at the start: when a record is kept, what it
/// says is so.
pub fn kept_records_are_true()
    ensures { RecordsAreTrue }
{}

/// With the same premises: every place but the lock bytes and the indicator byte that no order leaves in doubt holds
/// what it held at the start, with the done orders applied once each in journal order.
pub fn done_orders_are_applied_once()
    ensures { Always AppliedAt }
{}

/// The records of a legal trace are always a sentence within the limit.
pub fn records_are_a_sentence()
    ensures { RecordsAreASentence }
{}

/// The orders of the journal are those that it held at the start, and then the taken ones.
pub fn the_taken_orders_are_kept()
    ensures { TakenOrdersAreKept }
{}

/// One reply is due to an order, and no other.
pub fn one_reply_is_due()
    ensures { OneReplyIsDue }
{}

/// A repeat of an order that has ended gets its kept reply at once. If nothing else is at work, no frame is sent and no
/// record kept until another order is taken.
pub fn repeats_are_answered_by_what_is_kept()
    ensures answered { RepeatsAreAnswered }
    ensures quiet { RepeatsAreQuiet }
{}

/// An order that gets another reply than Taken, as each repeat of one that has ended does, changes nothing, wherever it
/// is in a trace and whatever is at work: exactly the frames, records, replies and sayings that might come without it
/// may come with it, and the plan asks for the same.
pub fn refused_orders_change_nothing()
    ensures { RefusedOrdersChangeNothing }
{}

/// If nothing is at work, no frame is sent and no record kept until an order is taken, stops included.
pub fn nothing_is_done_until_an_order_is_taken()
    ensures { QuietUntilTaken }
{}

/// Along a legal trace that keeps to the plans: from a start of an order on, no more frames are sent than its limit
/// and at most four records kept, and what is said of it comes after as many frames and misses as it must.
pub fn planned_work_is_limited()
    ensures { (start : Start) (past : List Happening) → Legal start past → ByPlan start past → IsWorked start past }
{}

/// With the same premises: wherever an order is at hand, it is said in the part that enough steps add, with no stop
/// among them.
pub fn orders_are_said_in_time()
    ensures { (start : Start) (before past : List Happening) → Legal start past → ByPlan start past → IsFinished before
        → IsSaidInTime start before past }
{}

/// The limit, and the frames of an order that is done: when it starts anew, with or without a left unit, and when it
/// was opened.
pub fn limits_are_these()
    ensures limit { (updates : ℕ) → work_limit updates ≡ 112 * updates + 560 }
    ensures low { (updates : List (ℕ × ℕ)) → greatest updates < 0x13
        → frames_from Pace.Checked standings.Idle updates ≡ 14 * length updates + 28 }
    ensures high { (updates : List (ℕ × ℕ)) → 0x13 ≤ greatest updates
        → frames_from Pace.Checked standings.Idle updates ≡ 14 * length updates + 42 }
    // By the short plan, with one more frame for each write that isn't just after the one before, and a row for each
    // sixteen neighbours that are read back:
    ensures low_short { (updates : List (ℕ × ℕ)) → greatest updates < 0x13
        → frames_from Pace.Short standings.Idle updates
        ≡ 4 * length updates + jumps 2 updates + 6 * length (rows_of 16 (read_backs updates)) + 18 }
    ensures high_short { (updates : List (ℕ × ℕ)) → 0x13 ≤ greatest updates
        → frames_from Pace.Short standings.Idle updates
        ≡ 4 * length updates + jumps 2 updates + 6 * length (rows_of 16 (read_backs updates)) + 26 }
    ensures left { (pace : Pace) (unit : ℕ) (updates : List (ℕ × ℕ))
        → frames_from pace (standings.Left unit) updates ≡ frames_from pace standings.Idle updates + 14 }
{}

/// Losses of power, anywhere but between an order and its reply, change nothing of what is legal and by plan: a trace
/// that is both without them is both with them.
pub fn losses_of_power_change_nothing()
    ensures legal { (start : Start) (past : List Happening) → IsPowerApart past → Legal start (unpowered past)
        → Legal start past }
    ensures planned { (start : Start) (past : List Happening) → ByPlan start (unpowered past) → ByPlan start past }
{}

/// Sittings one after another, each from the records that those before it left, are one legal trace that keeps to the
/// plans, with a stop between them. So whatever holds along such a trace holds along all of them.
pub fn sittings_are_one_trace()
    ensures { (start : Start) (sittings : List Sitting) → FollowOn start sittings → IsOneTrace start sittings }
{}

/// A stay is a part of what happened, for the luminaires that are on the bus from its first moment to its last; before
/// it and after it the units may be any others, or used by anyone. At the other short addresses luminaires may come and
/// go in it at any moment, though not at that of the order at work or of a left unit, and one that comes isn't
/// write-enabled. Units may lose their power in it at any moment. It begins with the trace, or at rest: when the
/// journal is idle, or nothing is to be done or said. From the start on it is described by all records, as the laws
/// above; from a moment at rest on it may be compared with the world of that moment, as if the orders of before had no
/// bytes. Either way each moment fits, no unit except for the named one is enabled, every place that is in no doubt is
/// as the journal says, and when a record is kept, what it says is so.
pub fn every_moment_of_a_stay_is_right()
    // a legal trace from its start on, whether it keeps to the plans or not;
    ensures trace { (start : Start) (stay : Stay) → Legal start stay.past → Begins start [] stay → IsAlong stay
        → IsRightThrough stay }
    // any part of a legal trace that keeps to the plans;
    ensures part { (start : Start) (happened : List Happening) (stay : Stay) → Legal start happened
        → ByPlan start happened → IsStay start happened stay → IsRightThrough stay }
    // any part of such sittings.
    ensures sittings { (start : Start) (sittings : List Sitting) (stay : Stay) → FollowOn start sittings
        → IsStay start (joined sittings) stay → IsRightThrough stay }
{}

/// If nothing is at work in a stay, no unit is write-enabled but a left one: the units are as the next stay wants them.
pub fn each_rest_suits_the_next_stay()
    ensures ready { (stay : Stay) → IsRightThrough stay → IsReadyAtRest stay }
    // A stay that begins at rest needs no more of the units that it begins with. It is compared with what the units
    // hold that stay, by records of orders that have no bytes.
    ensures begins { (stay : Stay) (records : List Record) → stay.zero ≡ among stay.staying stay.first
        → stay.start.records ≡ bare records → IsReady (standing_of records) stay.first → WorkStays stay
        → IsChain (MovesAmid stay.staying) stay.first stay.past stay.last stay.states → IsAlong stay }
{}

/// A luminaire that was only read between two stays, or lost its power, fits over both: its memory is what it was when
/// the first began, with the orders done in both applied once each in journal order. So one stay may describe it,
/// whatever came and went at other short addresses.
pub fn a_unit_left_standing_fits_over_both()
    // a world that fits, fits at each address of those who stay;
    ensures each { (staying : ℕ → Bool) (address : ℕ) (zero now : World) (records : List Record) (lost : List ℕ)
        → staying address ≡ true → Fits zero records lost (among staying now)
        → UnitFits address zero records lost now }
    // after records at rest each fit still holds: after those that are idle, and after those of an order that left
    // another unit.
    ensures both { (address : ℕ) (zero middle first now : World) (oldest newest own : List Record)
        (before gone lost : List ℕ)
        → standing_of oldest ≡ standings.Idle → is_at_work (standing_of newest) ≡ false
        → IsSentence (own ++ (newest ++ oldest)) → UnitFits address zero (newest ++ oldest) before middle
        → KeepsAt (IsAmong gone) middle first address → UnitFits address first (own ++ bare newest) lost now
        → UnitFits address zero (own ++ (newest ++ oldest)) (lost ++ (gone ++ before)) now }
    // One that comes in a stay, at an address that isn't at work in it, keeps its memory from then on.
    ensures came { (start : Start) (happened : List Happening) (stay : Stay) (older newer : List Happening)
        (address : ℕ) (came last : World) (states : List World) → Legal start happened → ByPlan start happened
        → IsStay start happened stay → stay.past ≡ newer ++ older → stay.staying address ≡ false
        → is_enabled came address ≡ false → IsChain (MovesAmid (just address)) came newer last states
        → KeepsAt (IsAmong (powered_of [] newer)) came last address }
{}

/// After a legal trace one thing is next at most: one record, one frame, one saying, or the reply that is due.
pub fn one_thing_is_next()
    ensures { (start : Start) (past : List Happening) (one other : Happening)
        → Legal start past → IsNext start past one → IsNext start past other → IsSameBut one other }
{}
