//! Laws of checked accesses and sessions. Each is the contract of a function that does nothing.
ghost use Rattle.std.specs.Prelude.{◌↔◌, ◌≡◌, ◌≢◌, ◌∷◌, ◌≤◌, ◌<◌, ◌⊎◌, ◌+◌, ◌*◌, List, [], length, slice_get, Some, ℕ};
ghost use Rattle.std.specs.Prelude.{Option, None, IsSome, Bool, true, false};
ghost use Rattle.dali_write.specs.Found.{ReadsSoFar, IsCause, keeps};
ghost use Rattle.dali_write.specs.Causes.{IsShown};
ghost use Rattle.dali_write.specs.declared.ask.Cause.{Cause};
ghost use Rattle.dali_write.specs.declared.block.Block.{Block};
ghost use Rattle.dali_frame.specs.declared.forward.Frame.{Frame};
ghost use Rattle.dali_frame.specs.declared.forward.Frame.TheVariants.{Write};
ghost use Rattle.dali_write.specs.declared.ask.Ask.{Ask};
ghost use Rattle.dali_bus.specs.World.{World, Gear, is_enabled};
ghost use Rattle.dali_bus.specs.Carry.{Carry, WorldStep};
ghost use Rattle.dali_write.specs.Exchanges.{Exchange};
ghost use Rattle.dali_write.specs.declared.session.Session.{Session};
ghost use Rattle.dali_write.specs.declared.ask.Verdict.{Verdict};
ghost use Rattle.dali_write.specs.Plans.{Plan, greatest, unlock, close, read_length, read_all, read_block};
ghost use Rattle.dali_write.specs.Plans.{rows_of, most_of, read_backs, all_rows, write_next, IsInTurn};
ghost use Rattle.dali_write.specs.declared.pace.Pace.{Pace};
ghost use Rattle.dali_write.specs.Tries.{Wants};
ghost use Rattle.dali_write.specs.Verdicts.{Says, ShowsBank, EndsFresh, EndsOpened, EndsClosing, EndsReading};
ghost use Rattle.dali_write.specs.declared.stage.Task.{Task};
ghost use Rattle.dali_write.specs.Stages.{plan_of, updates_for};
ghost use Rattle.dali_write.specs.Told.{Told, unit_of, task_of, bytes_read, cause_of, aim_of, IsReadingBlock};
ghost use Rattle.dali_write.specs.Told.{IsFresh, IsOpened};
ghost use Rattle.dali_write.specs.Frames.{read_frames, write_frames, format_frames, miss_frames, other_frames};
ghost use Rattle.dali_write.specs.Counts.{done_frames, frame_limit, jumps};
ghost use Rattle.dali_gear.specs.SimState.{SimState, SimStep, AreApart, world_of};
ghost use Rattle.dali_gear.specs.UnitState.{UnitState, gear_of};
ghost use Rattle.dali_write.specs.declared.access.Access.{Access};
ghost use Rattle.dali_write.specs.declared.access.Access.TheVariants.{ReadFrom};
ghost use Rattle.dali_write.specs.Requests.{block_requests, access_requests, each_try};
ghost use Rattle.dali_write.specs.Tries.{most_tries, Missed, Misses, Succeeds, Fails};
ghost use Rattle.dali_write.specs.Walks.{Walk, misses_of, Took, TookAll};
ghost use Rattle.dali_write.specs.Misses.{misses_in, others_in};
ghost use Rattle.dali_write.specs.Successes.{TakesAll, found_verdict, Spared, MissesByLosses};
ghost use Rattle.dali_bank.specs.Order.{Contents, AreUpdates, RisesAbove};
ghost use Rattle.dali_write.specs.Doubts.{EndsUnread, EndsUnlooked, HasFailed, FailedForGood, FoundAnother};
ghost use Rattle.dali_write.specs.Losses.{losses, Unrefused, IsAlone, CanDo, OnlyDiffers};
ghost use Rattle.dali_write.specs.Touches.{Touches, writes_of};
ghost use Rattle.dali_write.specs.Findings.{Rests};
ghost use Rattle.dali_write.specs.Guards.{IsGuarded};
ghost use Rattle.dali_write.specs.Reads.{StillRead, HasRead, ReadsBank};
ghost use Rattle.dali_write.specs.Worlds.{IsAmong, Run, IsCheckedRead, Shows, KeepsAt, Selects, OnlyEnabled};
ghost use Rattle.dali_write.specs.Worlds.{MayWrite};
ghost use Rattle.dali_write.specs.Noise.{Noisy, NoisyStep, as_noisy};
ghost use Rattle.dali_write.specs.WhenBlock.{WhenTold};
ghost use Rattle.dali_write.specs.Blocks.{IsAmid};

/// A session wants what its plan asks for after its exchanges, and ends as its plan does.
pub fn sessions_follow_their_plans()
    ensures { (told : List Exchange) (s : Session) → Told told s
        → Wants (unit_of s) (plan_of (task_of s)) told (aim_of s) }
{}

/// No session sends more frames than its limit.
pub fn sessions_send_few_frames()
    ensures { (told : List Exchange) (s : Session) → Told told s → length told ≤ frame_limit (task_of s) }
{}

/// A checked read tells the byte at its place, and then the unit isn't enabled; no memory changes but lock bytes of
/// units that lose their power, and no unit is newly enabled.
pub fn checked_reads_are_true()
    ensures byte { (loses : List ℕ) (tried : List Exchange) (first last : World) (unit location byte : ℕ)
        → Run WorldStep (IsAmong loses) tried first last → IsCheckedRead unit location byte tried
        → Shows (IsAmong loses) last unit location byte }
    ensures quiet { (loses : List ℕ) (tried : List Exchange) (first last : World) (unit location byte : ℕ)
        → Run WorldStep (IsAmong loses) tried first last → IsCheckedRead unit location byte tried
        → (address : ℕ) → KeepsAt (IsAmong loses) first last address }
{}

/// The bytes that a read of a block told are there until a frame enables a unit or writes; the lock byte of a unit that
/// lost its power may be FFh.
pub fn still_reads_are_true()
    ensures { (loses : List ℕ) (told : List Exchange) (first last : World) (unit location byte : ℕ)
        → Run WorldStep (IsAmong loses) told first last → StillRead told unit location byte
        → Shows (IsAmong loses) last unit location byte }
{}

/// The byte that a read told was there when the read reached the unit. The unit kept its power from the answer to the
/// second frame of the read to that to its last one, whichever units lose theirs before, between and after.
pub fn read_bytes_were_there()
    ensures { (loses : List ℕ) (told : List Exchange) (first last : World) (unit location byte : ℕ)
        → Run WorldStep (IsAmong loses) told first last → StillRead told unit location byte
        → WhenTold (IsAmong loses) told first last unit location byte }
{}

/// If the unit was made sure to have selected the location, and no other unit is enabled, a write stores its byte there
/// or nothing, whichever units lose their power before it.
pub fn guarded_writes_are_safe()
    ensures { (loses : List ℕ) (told : List Exchange) (first before last : World) (unit location byte : ℕ)
        (answer : Option ℕ)
        → Run WorldStep (IsAmong loses) told first before → Selects unit location told → OnlyEnabled unit before
        → Carry before (Write byte) answer last
        → MayWrite before unit location byte answer last }
{}

/// With which verdicts a session may end.
pub fn sessions_end_by_their_kind()
    ensures fresh { (told : List Exchange) (unit : ℕ) (pace : Pace) (updates : List (ℕ × ℕ)) (verdict : Verdict)
        → Wants unit (read_length pace updates) told (Ask.Ended verdict) → EndsFresh verdict }
    ensures opened { (told : List Exchange) (unit : ℕ) (pace : Pace) (updates : List (ℕ × ℕ)) (verdict : Verdict)
        → Wants unit (unlock pace updates) told (Ask.Ended verdict) → EndsOpened verdict }
    ensures closing { (told : List Exchange) (unit : ℕ) (verdict : Verdict)
        → Wants unit (close Verdict.Closed Verdict.NotClosed) told (Ask.Ended verdict) → EndsClosing verdict }
    ensures reading { (told : List Exchange) (unit : ℕ) (verdict : Verdict)
        → Wants unit read_all told (Ask.Ended verdict) → EndsReading verdict }
    ensures block { (told : List Exchange) (unit : ℕ) (block : Block) (verdict : Verdict)
        → Wants unit (read_block block) told (Ask.Ended verdict) → EndsReading verdict }
{}

/// The verdict of a session rests on checked reads of its own that still hold.
pub fn verdicts_rest_on_reads()
    ensures opened { (told : List Exchange) (unit : ℕ) (pace : Pace) (updates : List (ℕ × ℕ)) (verdict : Verdict)
        → Wants unit (unlock pace updates) told (Ask.Ended verdict) → Rests (StillRead told unit) updates verdict }
    ensures fresh { (told : List Exchange) (unit : ℕ) (pace : Pace) (updates : List (ℕ × ℕ)) (verdict : Verdict)
        → Wants unit (read_length pace updates) told (Ask.Ended verdict) → Rests (StillRead told unit) updates verdict }
    ensures closing { (told : List Exchange) (unit : ℕ) (verdict : Verdict)
        → Wants unit (close Verdict.Closed Verdict.NotClosed) told (Ask.Ended verdict)
        → Rests (StillRead told unit) [] verdict }
    ensures reading { (told : List Exchange) (s : Session) → Told told s → task_of s ≡ Task.Reading
        → aim_of s ≡ Ask.Ended Verdict.Read → ReadsBank told (unit_of s) (bytes_read s) }
{}

/// The bytes that a reading session has read at each moment: those that its accesses so far told, in their order, at
/// most
/// 255. The others have read nothing.
pub fn sessions_keep_what_they_read()
    ensures reading { (told : List Exchange) (s : Session) → Told told s
        → ReadsSoFar (task_of s) (unit_of s) told (bytes_read s) }
    ensures few { (told : List Exchange) (s : Session) → Told told s → length (bytes_read s) ≤ 255 }
    ensures others { (told : List Exchange) (s : Session) → Told told s → keeps (task_of s) ≡ false
        → bytes_read s ≡ [] }
{}

/// The result of a session of a block: the bytes that it keeps are those of one access, the read of its block, which
/// succeeded; or each try of it missed.
pub fn sessions_read_blocks()
    ensures read { (told : List Exchange) (s : Session) (unit : ℕ) (block : Block) → Told told s
        → IsReadingBlock unit block s → aim_of s ≡ Ask.Ended Verdict.Read
        → Succeeds (each_try (block_requests unit block)) (Some (bytes_read s)) told }
    ensures silent { (told : List Exchange) (s : Session) (unit : ℕ) (block : Block) (verdict : Verdict) → Told told s
        → IsReadingBlock unit block s → aim_of s ≡ Ask.Ended verdict → verdict ≢ Verdict.Read
        → Misses (each_try (block_requests unit block)) most_tries told }
    ensures amid { (told : List Exchange) (s : Session) (unit : ℕ) (block : Block) (frame : Frame) → Told told s
        → IsReadingBlock unit block s → aim_of s ≡ Ask.Send frame → IsAmid unit block told frame }
{}

/// A session's verdict says this of the world, whichever units lose their power meanwhile.
pub fn verdicts_are_true()
    ensures opened { (loses : List ℕ) (told : List Exchange) (first last : World) (unit : ℕ)
        (pace : Pace) (updates : List (ℕ × ℕ)) (verdict : Verdict)
        → Run WorldStep (IsAmong loses) told first last → Wants unit (unlock pace updates) told (Ask.Ended verdict)
        → Says (IsAmong loses) unit updates last verdict }
    ensures fresh { (loses : List ℕ) (told : List Exchange) (first last : World) (unit : ℕ)
        (pace : Pace) (updates : List (ℕ × ℕ)) (verdict : Verdict)
        → Run WorldStep (IsAmong loses) told first last → Wants unit (read_length pace updates) told (Ask.Ended verdict)
        → Says (IsAmong loses) unit updates last verdict }
    ensures closing { (loses : List ℕ) (told : List Exchange) (first last : World) (unit : ℕ) (verdict : Verdict)
        → Run WorldStep (IsAmong loses) told first last
        → Wants unit (close Verdict.Closed Verdict.NotClosed) told (Ask.Ended verdict)
        → Says (IsAmong loses) unit [] last verdict }
    ensures reading { (loses : List ℕ) (told : List Exchange) (s : Session) (first last : World) → Told told s
        → task_of s ≡ Task.Reading → aim_of s ≡ Ask.Ended Verdict.Read
        → Run WorldStep (IsAmong loses) told first last → ShowsBank (IsAmong loses) last (unit_of s) (bytes_read s) }
{}

/// A session that looks whether a bank suits, or reads it, changes no memory and enables no unit; lock bytes of units
/// that lose their power may change.
pub fn readers_are_quiet()
    ensures fresh { (loses : List ℕ) (told : List Exchange) (first last : World) (unit : ℕ)
        (pace : Pace) (updates : List (ℕ × ℕ)) (ask : Ask)
        → Run WorldStep (IsAmong loses) told first last → Wants unit (read_length pace updates) told ask
        → (address : ℕ) → KeepsAt (IsAmong loses) first last address }
    ensures reading { (loses : List ℕ) (told : List Exchange) (first last : World) (unit : ℕ) (ask : Ask)
        → Run WorldStep (IsAmong loses) told first last → Wants unit read_all told ask
        → (address : ℕ) → KeepsAt (IsAmong loses) first last address }
    ensures block { (loses : List ℕ) (told : List Exchange) (first last : World) (unit : ℕ) (block : Block) (ask : Ask)
        → Run WorldStep (IsAmong loses) told first last → Wants unit (read_block block) told ask
        → (address : ℕ) → KeepsAt (IsAmong loses) first last address }
{}

/// If no other unit is enabled, a session changes only the places that it writes, at its unit, and each of them holds
/// its old byte or a written one. No other unit's memory changes, and none is newly enabled. Lock bytes of units that
/// lose their power, and its unit's indicator byte, may change besides.
pub fn sessions_touch_their_places_alone()
    ensures opened { (loses : List ℕ) (told : List Exchange) (first last : World) (unit : ℕ)
        (pace : Pace) (updates : List (ℕ × ℕ)) (ask : Ask)
        → OnlyEnabled unit first → Run WorldStep (IsAmong loses) told first last
        → Wants unit (unlock pace updates) told ask
        → Touches (IsAmong loses) (writes_of updates) unit first last }
    ensures closing { (loses : List ℕ) (told : List Exchange) (first last : World) (unit : ℕ) (ask : Ask)
        → OnlyEnabled unit first → Run WorldStep (IsAmong loses) told first last
        → Wants unit (close Verdict.Closed Verdict.NotClosed) told ask
        → Touches (IsAmong loses) ((2, 0xFF) ∷ []) unit first last }
    ensures enabled { (loses : List ℕ) (told : List Exchange) (first last : World) (unit : ℕ)
        (pace : Pace) (updates : List (ℕ × ℕ)) (ask : Ask)
        → OnlyEnabled unit first → Run WorldStep (IsAmong loses) told first last
        → Wants unit (unlock pace updates) told ask ⊎ Wants unit (close Verdict.Closed Verdict.NotClosed) told ask
        → OnlyEnabled unit last }
{}

/// Over a bus that alters answers and makes some up, but none while a register is unset (`NoisyStep`), a session
/// changes only the places that it writes, and no other unit is enabled; a fresh one changes nothing. For the short
/// plan, and for what else is said, no byte comes back to a read or a write if none was given: `Done` is true, and
/// after `Doubt` and `Closed` the unit isn't enabled. All that a bus does that alters none it may do.
pub fn altered_answers_do_no_harm()
    ensures opened { (made : Bool) (loses : List ℕ) (told : List Exchange) (first last : Noisy) (unit : ℕ)
        (pace : Pace) (updates : List (ℕ × ℕ)) (ask : Ask)
        → (made ≡ true → pace ≡ Pace.Checked) → OnlyEnabled unit first.world
        → Run (NoisyStep made unit) (IsAmong loses) told first last → Wants unit (unlock pace updates) told ask
        → Touches (IsAmong loses) (writes_of updates) unit first.world last.world }
    ensures closing { (made : Bool) (loses : List ℕ) (told : List Exchange) (first last : Noisy) (unit : ℕ) (ask : Ask)
        → OnlyEnabled unit first.world → Run (NoisyStep made unit) (IsAmong loses) told first last
        → Wants unit (close Verdict.Closed Verdict.NotClosed) told ask
        → Touches (IsAmong loses) ((2, 0xFF) ∷ []) unit first.world last.world }
    ensures fresh { (made : Bool) (loses : List ℕ) (told : List Exchange) (first last : Noisy) (unit : ℕ)
        (pace : Pace) (updates : List (ℕ × ℕ)) (ask : Ask)
        → Run (NoisyStep made unit) (IsAmong loses) told first last → Wants unit (read_length pace updates) told ask
        → (address : ℕ) → KeepsAt (IsAmong loses) first.world last.world address }
    ensures done { (loses : List ℕ) (told : List Exchange) (first last : Noisy) (unit : ℕ)
        (pace : Pace) (updates : List (ℕ × ℕ))
        → RisesAbove 2 updates → OnlyEnabled unit first.world
        → Run (NoisyStep false unit) (IsAmong loses) told first last
        → Wants unit (unlock pace updates) told (Ask.Ended Verdict.Done)
        → Says (IsAmong loses) unit updates last.world Verdict.Done }
    ensures doubt { (loses : List ℕ) (told : List Exchange) (first last : Noisy) (unit : ℕ)
        (pace : Pace) (updates : List (ℕ × ℕ))
        → Run (NoisyStep false unit) (IsAmong loses) told first last
        → Wants unit (unlock pace updates) told (Ask.Ended Verdict.Doubt)
        → is_enabled last.world unit ≡ false }
    ensures closed { (loses : List ℕ) (told : List Exchange) (first last : Noisy) (unit : ℕ)
        → Run (NoisyStep false unit) (IsAmong loses) told first last
        → Wants unit (close Verdict.Closed Verdict.NotClosed) told (Ask.Ended Verdict.Closed)
        → is_enabled last.world unit ≡ false }
    ensures plain { (made : Bool) (loses : List ℕ) (told : List Exchange) (first last : World) (unit : ℕ)
        → Run WorldStep (IsAmong loses) told first last
        → Run (NoisyStep made unit) (IsAmong loses) told (as_noisy first) (as_noisy last) }
{}

/// A session sends only frames that set registers, ask its unit or read it; one that writes enables its unit besides,
/// and writes a byte of its own where the unit was made sure to have selected its location. A fresh or a reading one
/// writes nothing.
pub fn wanted_frames_are_guarded()
    ensures opened { (told : List Exchange) (unit : ℕ) (pace : Pace) (updates : List (ℕ × ℕ)) (frame : Frame)
        → Wants unit (unlock pace updates) told (Ask.Send frame) → IsGuarded (writes_of updates) unit told frame }
    ensures fresh { (told : List Exchange) (unit : ℕ) (pace : Pace) (updates : List (ℕ × ℕ)) (frame : Frame)
        → Wants unit (read_length pace updates) told (Ask.Send frame) → IsGuarded [] unit told frame }
    ensures closing { (told : List Exchange) (unit : ℕ) (frame : Frame)
        → Wants unit (close Verdict.Closed Verdict.NotClosed) told (Ask.Send frame)
        → IsGuarded ((2, 0xFF) ∷ []) unit told frame }
    ensures reading { (told : List Exchange) (unit : ℕ) (frame : Frame) → Wants unit read_all told (Ask.Send frame)
        → IsGuarded [] unit told frame }
    ensures block { (told : List Exchange) (unit : ℕ) (block : Block) (frame : Frame)
        → Wants unit (read_block block) told (Ask.Send frame) → IsGuarded [] unit told frame }
{}

/// While units of these addresses may lose their power, the simulated bus does with exchanges only what its units may
/// do.
pub fn simulated_runs_are_runs()
    ensures { (loses : List ℕ) (told : List Exchange) (first last : SimState)
        → Run SimStep (IsAmong loses) told first last
        → Run WorldStep (IsAmong loses) told (world_of first.units) (world_of last.units) }
{}

/// On the simulated bus, if no fate refuses, no other unit is write-enabled, and the unit has the location to read or
/// can write it, a try misses only by a loss to the unit. Other units may lose their power meanwhile.
pub fn tries_miss_by_losses()
    ensures { (loses : List ℕ) (at : ℕ) (access : Access) (misses : ℕ) (unit : UnitState) (told : List Exchange)
        (first last : SimState) (run : Run SimStep (IsAmong loses) told first last)
        → (IsAmong loses at → ⊥) → IsAlone at unit first.units → CanDo access unit
        → Unrefused run.past run.chain.states
        → Missed (access_requests at access misses) told → 1 ≤ losses at run.past run.chain.states }
{}

/// With the same premises, an access misses no more often than its unit has losses, and with fewer of
/// them than an access has tries it succeeds.
pub fn accesses_outlive_losses()
    ensures misses { (loses : List ℕ) (at : ℕ) (access : Access) (unit : UnitState) (misses : ℕ)
        (told : List Exchange) (first last : SimState) (run : Run SimStep (IsAmong loses) told first last)
        → (IsAmong loses at → ⊥) → IsAlone at unit first.units → CanDo access unit
        → Unrefused run.past run.chain.states
        → Misses (access_requests at access) misses told → misses ≤ losses at run.past run.chain.states }
    ensures succeeds { (loses : List ℕ) (at : ℕ) (access : Access) (unit : UnitState) (outcome : Option (List ℕ))
        (told : List Exchange) (first last : SimState) (run : Run SimStep (IsAmong loses) told first last)
        → (IsAmong loses at → ⊥) → IsAlone at unit first.units → CanDo access unit
        → Unrefused run.past run.chain.states
        → losses at run.past run.chain.states < most_tries
        → Succeeds (access_requests at access) outcome told ⊎ Fails (access_requests at access) outcome told
        → Succeeds (access_requests at access) outcome told }
{}

/// The limits and the exact counts of sessions, as numbers.
pub fn counts_are_these()
    ensures tries { most_tries ≡ 8 }
    ensures fresh { (order : Contents) (pace : Pace) → frame_limit (Task.Fresh order pace) ≡ 168 }
    ensures opened { (order : Contents) (pace : Pace)
        → frame_limit (Task.Opened order pace) ≡ 112 * length order.updates + 280 }
    ensures closing { frame_limit Task.Closing ≡ 112 }
    ensures reading { frame_limit Task.Reading ≡ 14280 }
    ensures done { (updates : List (ℕ × ℕ)) → done_frames Pace.Checked updates ≡ 14 * length updates + 21 }
    ensures done_short { (updates : List (ℕ × ℕ))
        → done_frames Pace.Short updates
        ≡ 4 * length updates + jumps 2 updates + 6 * length (rows_of 16 (read_backs updates)) + 11 }
    ensures frames { (read_frames ≡ 7) × (write_frames ≡ 7) }
    ensures format { (format_frames Pace.Checked ≡ 14) × (format_frames Pace.Short ≡ 8) }
    ensures misses { (miss_frames Pace.Checked ≡ 7) × (miss_frames Pace.Short ≡ 28) }
    ensures others { (other_frames Pace.Checked ≡ 0) × (other_frames Pace.Short ≡ 64) }
{}

/// The count of frames of an opened session that ended Done. For each byte that came back and isn't the one that has to
/// be there it may have read a row again.
pub fn done_sessions_take_exactly()
    ensures { (told : List Exchange) (unit : ℕ) (pace : Pace) (updates : List (ℕ × ℕ))
        → Wants unit (unlock pace updates) told (Ask.Ended Verdict.Done)
        → Took pace unit (unlock pace updates) told Verdict.Done (done_frames pace updates)
        (others_in (read_backs updates) told) }
{}

/// How many frames the other sessions took that didn't give up; one that may open reads the format only if a location
/// is past 12h. A closing session whose write failed goes on to its read: the frames of that write are all of missed
/// tries, and within what those allow.
pub fn sessions_take_exactly()
    ensures short { (told : List Exchange) (unit : ℕ) (pace : Pace) (updates : List (ℕ × ℕ))
        → Wants unit (read_length pace updates) told (Ask.Ended Verdict.Short)
        → Took pace unit (read_length pace updates) told Verdict.Short read_frames 0 }
    ensures low { (told : List Exchange) (unit : ℕ) (pace : Pace) (updates : List (ℕ × ℕ)) → greatest updates < 0x13
        → Wants unit (read_length pace updates) told (Ask.Ended Verdict.MayOpen)
        → Took pace unit (read_length pace updates) told Verdict.MayOpen read_frames 0 }
    ensures high { (told : List Exchange) (unit : ℕ) (pace : Pace) (updates : List (ℕ × ℕ)) → 0x13 ≤ greatest updates
        → Wants unit (read_length pace updates) told (Ask.Ended Verdict.MayOpen)
        → Took pace unit (read_length pace updates) told Verdict.MayOpen (read_frames + format_frames pace) 0 }
    ensures format { (told : List Exchange) (unit : ℕ) (pace : Pace) (updates : List (ℕ × ℕ))
        → Wants unit (read_length pace updates) told (Ask.Ended Verdict.Format)
        → Took pace unit (read_length pace updates) told Verdict.Format (read_frames + format_frames pace) 0 }
    ensures closed { (told : List Exchange) (unit : ℕ)
        → Wants unit (close Verdict.Closed Verdict.NotClosed) told (Ask.Ended Verdict.Closed)
        → Took Pace.Checked unit (close Verdict.Closed Verdict.NotClosed) told Verdict.Closed
        (write_frames + read_frames) 0 }
    ensures read { (told : List Exchange) (unit : ℕ) → Wants unit read_all told (Ask.Ended Verdict.Read)
        → TookAll unit told }
{}

/// A session gives up only if the access that it had last failed, in each of its tries: a read of the length or of the
/// content format, of the lock byte, or of a location.
pub fn sessions_give_up_late()
    ensures fresh { (told : List Exchange) (unit : ℕ) (pace : Pace) (updates : List (ℕ × ℕ))
        → Wants unit (read_length pace updates) told (Ask.Ended Verdict.Silent) → EndsUnlooked pace unit told }
    ensures opened { (told : List Exchange) (unit : ℕ) (pace : Pace) (updates : List (ℕ × ℕ))
        → Wants unit (unlock pace updates) told (Ask.Ended Verdict.DoubtOpen) → EndsUnread unit 0x02 told }
    ensures closing { (told : List Exchange) (unit : ℕ)
        → Wants unit (close Verdict.Closed Verdict.NotClosed) told (Ask.Ended Verdict.NotClosed)
        → EndsUnread unit 0x02 told }
    ensures reading { (told : List Exchange) (unit : ℕ)
        → Wants unit read_all told (Ask.Ended Verdict.Silent) → (location : ℕ) × EndsUnread unit location told }
{}

/// If a closing session ends as `NotClosed`, no read of a block of its unit told a byte since it began.
pub fn unreached_units_were_not_read()
    ensures { (told : List Exchange) (unit : ℕ)
        → Wants unit (close Verdict.Closed Verdict.NotClosed) told (Ask.Ended Verdict.NotClosed) → HasRead unit told
        → ⊥ }
{}

/// A session that carries an order out ends in doubt only because an access failed in each of its tries that isn't read
/// again in smaller rows, or because a read of the lock byte or of updates' locations, of a row of them or of one in
/// which it is read again, found another byte than must be there.
pub fn doubts_have_a_cause()
    ensures { (told : List Exchange) (unit : ℕ) (pace : Pace) (updates : List (ℕ × ℕ))
        → Wants unit (unlock pace updates) told (Ask.Ended Verdict.Doubt)
        → FailedForGood unit (unlock pace updates) told
        ⊎ FoundAnother unit (unlock pace updates) (all_rows (rows_of (most_of pace) (read_backs updates))) told }
{}

/// The cause that a session reports is shown by its exchanges: each try of an access missed, or a read told this byte
/// of this location, the first in its block that isn't the one that has to be there. For that the updates rise above
/// the lock byte, as those of an order do. A session that carries an order out and doesn't end as `Done`, and a fresh
/// one that ends as `Silent`, report one.
pub fn causes_are_told()
    ensures shown { (task : Task) (unit : ℕ) (told : List Exchange) (cause : Cause)
        → RisesAbove 2 (updates_for task) → IsCause task unit told (Some cause)
        → IsShown unit (updates_for task) told cause }
    ensures rising { (updates : List (ℕ × ℕ)) → AreUpdates updates → RisesAbove 2 updates }
    ensures opened { (order : Contents) (pace : Pace) (told : List Exchange) (s : Session) (verdict : Verdict)
        → IsOpened order pace s → Told told s → aim_of s ≡ Ask.Ended verdict → verdict ≢ Verdict.Done
        → IsSome (cause_of s) }
    ensures fresh { (order : Contents) (pace : Pace) (told : List Exchange) (s : Session)
        → IsFresh order pace s → Told told s → aim_of s ≡ Ask.Ended Verdict.Silent → IsSome (cause_of s) }
{}

/// On the simulated bus a checked write that succeeded has stored its byte and nothing else,
/// whatever was lost or refused before, and whichever other units lost their power.
pub fn successful_writes_are_stored()
    ensures { (loses : List ℕ) (pace : Pace) (at before location byte : ℕ) (unit : UnitState)
        (outcome : Option (List ℕ)) (told : List Exchange) (first last : SimState)
        → Run SimStep (IsAmong loses) told first last → (IsAmong loses at → ⊥)
        → IsAlone at unit first.units → Succeeds (access_requests at (write_next pace before location byte)) outcome
        told
        → (now : UnitState) × IsAlone at now last.units × OnlyDiffers unit.bank1 location now.bank1
        × (slice_get now.bank1.bytes location ≡ Some byte) }
{}

/// On the simulated bus an access leaves its unit alone at its address, whatever is lost or refused, and whichever
/// other units lose their power. A read leaves bank 1 as it was, and so does a checked write except for its location.
pub fn accesses_keep_the_bank()
    ensures read { (loses : List ℕ) (at : ℕ) (block : Block) (unit : UnitState) (outcome : Option (List ℕ))
        (told : List Exchange) (first last : SimState)
        → Run SimStep (IsAmong loses) told first last → (IsAmong loses at → ⊥)
        → IsAlone at unit first.units
        → Succeeds (access_requests at (ReadFrom block)) outcome told
        ⊎ Fails (access_requests at (ReadFrom block)) outcome told
        → (now : UnitState) × IsAlone at now last.units × (now.bank1 ≡ unit.bank1) }
    ensures write { (loses : List ℕ) (pace : Pace) (at before location byte : ℕ) (unit : UnitState)
        (outcome : Option (List ℕ)) (told : List Exchange) (first last : SimState)
        → Run SimStep (IsAmong loses) told first last → (IsAmong loses at → ⊥)
        → IsAlone at unit first.units
        → Succeeds (access_requests at (write_next pace before location byte)) outcome told
        ⊎ Fails (access_requests at (write_next pace before location byte)) outcome told
        → (now : UnitState) × IsAlone at now last.units × OnlyDiffers unit.bank1 location now.bank1 }
{}

/// If the units are at different addresses and no other is enabled, the unit at an address is alone.
pub fn apart_units_are_alone()
    ensures { (at : ℕ) (units : List UnitState) (gear : Gear) → AreApart units → OnlyEnabled at (world_of units)
        → world_of units at ≡ Some gear
        → (unit : UnitState) × IsAlone at unit units × (gear_of unit ≡ gear) }
{}

/// After its exchanges, a session with a plan wants one thing alone.
pub fn wants_are_determined()
    ensures { (told : List Exchange) (unit : ℕ) (plan : Plan) (one other : Ask) → Wants unit plan told one
        → Wants unit plan told other → one ≡ other }
{}

/// Each frame of the exchanges that a session was given was the one that it wanted.
pub fn each_frame_was_wanted()
    ensures { (told : List Exchange) (x : Exchange) (unit : ℕ) (plan : Plan) (ask : Ask)
        → Wants unit plan (x ∷ told) ask → Wants unit plan told (Ask.Send x.frame) }
{}

/// The misses among exchanges are those of the tries of the session's accesses, and an access that failed missed as
/// often as it has tries. For that each write that takes the unit as another left it comes just after that one, as
/// those of each session do.
pub fn misses_are_those_of_the_tries()
    ensures failed { (unit : ℕ) (told : List Exchange) → HasFailed unit told → most_tries ≤ misses_in told }
    ensures unread { (unit location : ℕ) (told : List Exchange) → EndsUnread unit location told
        → most_tries ≤ misses_in told }
    ensures walk { (unit : ℕ) (plan : Plan) (outcomes : List (Option (List ℕ))) (told : List Exchange) (end : Plan)
        (walk : Walk unit plan outcomes told end)
        → IsInTurn None plan → misses_in told ≡ misses_of unit plan outcomes told end walk }
    ensures turn { (task : Task) → IsInTurn None (plan_of task) }
{}

/// On the simulated bus, if no fate refuses, no other unit is write-enabled and the unit loses less than an access has
/// tries, each session comes to its good end, and misses no more often than the unit loses: a fresh one ends as the
/// bytes of bank 1 say, an opened one as `Done` if each of its locations is there and none is fixed, a closing one as
/// `Closed`, and a reading one as `Read`. Other units may lose their power meanwhile.
pub fn spared_sessions_succeed()
    ensures fresh { (loses : List ℕ) (at : ℕ) (unit : UnitState) (pace : Pace) (updates : List (ℕ × ℕ))
        (verdict : Verdict)
        (told : List Exchange) (first last : SimState) (spared : Spared (IsAmong loses) at unit told first last)
        → Wants at (read_length pace updates) told (Ask.Ended verdict)
        → (verdict ≡ found_verdict unit.bank1.bytes updates)
        × MissesByLosses (IsAmong loses) at unit told first last spared }
    ensures opened { (loses : List ℕ) (at : ℕ) (unit : UnitState) (pace : Pace) (updates : List (ℕ × ℕ))
        (verdict : Verdict)
        (told : List Exchange) (first last : SimState) (spared : Spared (IsAmong loses) at unit told first last)
        → RisesAbove 0 updates → TakesAll unit.bank1 updates → Wants at (unlock pace updates) told (Ask.Ended verdict)
        → (verdict ≡ Verdict.Done) × MissesByLosses (IsAmong loses) at unit told first last spared }
    ensures closing { (loses : List ℕ) (at : ℕ) (unit : UnitState) (verdict : Verdict) (told : List Exchange)
        (first last : SimState) (spared : Spared (IsAmong loses) at unit told first last)
        → Wants at (close Verdict.Closed Verdict.NotClosed) told (Ask.Ended verdict)
        → (verdict ≡ Verdict.Closed) × MissesByLosses (IsAmong loses) at unit told first last spared }
    ensures reading { (loses : List ℕ) (at : ℕ) (unit : UnitState) (verdict : Verdict) (told : List Exchange)
        (first last : SimState) (spared : Spared (IsAmong loses) at unit told first last)
        → Wants at read_all told (Ask.Ended verdict)
        → (verdict ≡ Verdict.Read) × MissesByLosses (IsAmong loses) at unit told first last spared }
{}
