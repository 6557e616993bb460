//! Laws of drives, over their definitions alone. Each is the contract of a function that does nothing.

ghost use Rattle.std.specs.Prelude.{◌≡◌, ◌≤◌, ◌+◌, ◌∷◌, ◌++◌, ◌⊎◌, ℕ, List, None, Option, Some, length, reverse};
ghost use Rattle.dali_bank.specs.Order.{Contents};
ghost use Rattle.dali_bus.specs.World.{World};
ghost use Rattle.dali_bus.specs.Carry.{WorldStep};
ghost use Rattle.dali_write.specs.Worlds.{IsAmong, KeepsAt, Run};
ghost use Rattle.dali_read.specs.declared.finding.Finding.{Finding};
ghost use Rattle.dali_read.specs.Findings.{IsFound};
ghost use Rattle.dali_read.specs.Places.{bank_course, order_course};
ghost use Rattle.dali_read.specs.Readings.{Course};
ghost use Rattle.dali_read.specs.Shown.{Finds, ShowsBank, WhenTold};
ghost use Rattle.dali_trace.specs.declared.happening.Happening.{Happening};
ghost use Rattle.dali_trace.specs.Trace.{Start};
ghost use Rattle.dali_engine.specs.WriterState.{WriterState, start_of, start_by, IsAtRest};
ghost use Rattle.dali_laws.specs.Joined.{Sitting, joined, FollowOn};
ghost use Rattle.dali_laws.specs.Stays.{Stay, IsStay};
ghost use Rattle.dali_store.specs.declared.opening.OpenFault.{OpenFault};
ghost use Rattle.dali_store.specs.Stores.{IsBetween};
ghost use Rattle.dali_store.specs.Opened.{Loads, IsOpenFault};
ghost use Rattle.dali_journal.specs.declared.standing.Standing.TheVariants.{Idle};
ghost use Rattle.dali_journal.specs.JournalState.{JournalState, order_count};
ghost use Rattle.dali_journal.specs.Spelling.{journal_spelling};
ghost use Rattle.dali_journal.specs.declared.version.Version.TheVariants.{Two};
ghost use Rattle.dali_journal.specs.Sentence.{standing_of};
ghost use Rattle.dali_trace.specs.Legal.{Legal};
ghost use Rattle.dali_drive.specs.Behind.{IsBegunBehind, ActsOnceBehind, bytes_behind, streams_behind};
ghost use Rattle.dali_trace.specs.declared.fault.DriveFault.{DriveFault};
ghost use Rattle.dali_drive.specs.Transcript.{Streams};
ghost use Rattle.dali_drive.specs.Driven.{IsDrive, IsBrokenDrive, KeepsRecords};
ghost use Rattle.dali_drive.specs.Stored.{IsBegun, IsPartBehind};
ghost use Rattle.dali_drive.specs.Sittings.{CameToItsEnd, BrokeOff};
ghost use Rattle.dali_drive.specs.Kills.{StoodOnce};
ghost use Rattle.dali_drive.specs.Repeats.{IsSameFile, HasSat, HaveSat, BeginsBy, ActOnce};
ghost use Rattle.dali_drive.specs.declared.following.Given.{Given};
ghost use Rattle.dali_drive.specs.Followed.{submitted, happenings, muted, IsFollowed, IsBrokenFollow};
ghost use Rattle.dali_drive.specs.UnitRead.{IsUnitRead, UnitReadBroke};
ghost use Rattle.dali_write.specs.declared.pace.Pace.{Pace};

/// The journal that a call of `drive_stored` leaves if there is no older one, by its contract: if it completed, exactly
/// its trace; if it broke off, whatever a stop may leave of it bears out something that may have happened; and if no
/// journal was opened, the same records, or what a stop might have left before.
pub fn drives_leave_what_happened()
    ensures ended { (limit most : ℕ) (pace : Pace) (orders : List (Contents × ℕ)) (found left : List ℕ)
        (first : Streams) (writer : WriterState) (last : Streams) (begun : IsBegun limit most first)
        (d : IsDrive (start_by pace begun.journal) orders (record first { journal = begun.middle }) writer last)
        → first.journal ≡ Some found → last.journal ≡ Some left
        → CameToItsEnd limit most found (record { start = start_by pace begun.journal; past = d.past }) left }
    ensures broken { (limit most : ℕ) (pace : Pace) (orders : List (Contents × ℕ)) (fault : DriveFault)
        (found left : List ℕ) (first last : Streams) (begun : IsBegun limit most first)
        (d : IsBrokenDrive (start_by pace begun.journal) orders fault (record first { journal = begun.middle }) last)
        → first.journal ≡ Some found → IsBetween d.middle.journal last.journal left
        → (past : List Happening)
        × BrokeOff limit most found (record { start = start_by pace begun.journal; past = past }) left }
    ensures unopened { (limit most : ℕ) (found left : List ℕ) (fault : OpenFault)
        → IsOpenFault limit most (Some found) (Some left) fault → IsSameFile limit found left }
{}

/// One drive after another, with the writer handed on, is one drive: from the first one's start, of the orders of both
/// in their order, with all that both wrote and read and nothing between. The second one starts from the journal of
/// the writer that the first one leaves; the last writer is at rest, as `drive` leaves it.
pub fn drives_handed_on_are_one()
    ensures { (start : Start) (orders more : List (Contents × ℕ)) (first middle last : Streams)
        (handed writer : WriterState)
        → IsDrive start orders first handed middle → IsDrive (start_of handed) more middle writer last
        → IsAtRest writer → IsDrive start (orders ++ more) first writer last }
{}

/// Whatever a stop may leave at some moment of a drive over a store, after the journal that was opened there, is what
/// it would have left if it had been killed at some moment of what may have happened: with nothing in hand, or a record
/// that is cut off.
pub fn stops_leave_a_part()
    ensures ended { (limit most : ℕ) (pace : Pace) (orders : List (Contents × ℕ)) (found seen left : List ℕ)
        (first : Streams) (writer : WriterState) (last : Streams) (begun : IsBegun limit most first)
        → first.journal ≡ Some found → last.journal ≡ Some seen
        → IsDrive (start_by pace begun.journal) orders (record first { journal = begun.middle }) writer last
        → IsPartBehind limit (Some found) (Some seen) left → StoodOnce limit most found left first last }
    ensures broken { (limit most : ℕ) (pace : Pace) (orders : List (Contents × ℕ)) (fault : DriveFault)
        (found seen left : List ℕ) (first last : Streams) (begun : IsBegun limit most first)
        → first.journal ≡ Some found → last.journal ≡ Some seen
        → IsBrokenDrive (start_by pace begun.journal) orders fault (record first { journal = begun.middle }) last
        → IsPartBehind limit (Some found) (Some seen) left → StoodOnce limit most found left first last }
{}

/// Drives over a store one after another, however many and however each ended (it returned, it broke off, it was
/// killed), each from what the one before it left there and by a plan of its own, the first from a journal of either
/// version: together they act as one, and each order once. While the journal is idle, between drives or in one, units
/// may be exchanged, read, verified and used by other masters; while an order is at work, luminaires at other addresses
/// may be exchanged. Each stay between is right by itself: the first from a world that fits the start world and the
/// start records; any other from any world in which no unit is write-enabled, or none but a left one, as each stay
/// leaves its units when it comes to rest, and as after power-up. Units may lose their power at any moment.
pub fn drives_act_once()
    ensures follow { (start : Start) (most : ℕ) (first left : List ℕ) (sittings : List Sitting)
        → Loads start.limit start.records first → HaveSat start.limit most first sittings left
        → BeginsBy start sittings → FollowOn start sittings }
    ensures once { (start : Start) (most : ℕ) (first left : List ℕ) (sittings : List Sitting) (stay : Stay)
        → Loads start.limit start.records first → HaveSat start.limit most first sittings left
        → BeginsBy start sittings → IsStay start (joined sittings) stay → ActOnce start sittings left stay }
{}

/// Orders that are followed are one drive of those that were given, each at its moment; and over a store they leave
/// what such a drive leaves, whether they completed or broke off. So all that is true of drives one after another is
/// true of them.
pub fn followed_orders_are_driven()
    ensures drive { (start : Start) (given : List Given) (first : Streams) (writer : WriterState) (last : Streams)
        → IsFollowed start given first writer last
        → IsDrive start (reverse (submitted given)) (muted first) writer last }
    ensures ended { (limit most : ℕ) (pace : Pace) (given : List Given) (found left : List ℕ) (first : Streams)
        (writer : WriterState) (last : Streams) (begun : IsBegun limit most first)
        (follow : IsFollowed (start_by pace begun.journal) given (record first { journal = begun.middle }) writer last)
        → first.journal ≡ Some found → last.journal ≡ Some left
        → CameToItsEnd limit most found
        (record { start = start_by pace begun.journal; past = happenings follow.steps }) left }
    ensures broken { (limit most : ℕ) (pace : Pace) (given : List Given) (fault : DriveFault) (found left : List ℕ)
        (first last : Streams) (begun : IsBegun limit most first)
        (follow : IsBrokenFollow (start_by pace begun.journal) given fault (record first { journal = begun.middle })
        last)
        → first.journal ≡ Some found → IsBetween follow.then.journal last.journal left
        → (past : List Happening)
        × HasSat limit most found (record { start = start_by pace begun.journal; past = past }) left }
{}

/// Orders that are followed with no older journal are followed from the store's own. So all that is true of drives over
/// a store, one after another, killed and started again, is true of them, as it is after older journals: of the journal
/// that they leave if they complete or break off, and that a stop leaves at some moment of them.
pub fn what_is_followed_alone_is_of_the_store()
    ensures ended { (limit most : ℕ) (pace : Pace) (given : List Given) (found left : List ℕ) (first : Streams)
        (writer : WriterState) (last : Streams) (b : IsBegunBehind None limit most first)
        (follow : IsFollowed (start_by pace b.journal) given (record first { journal = b.begun.middle }) writer last)
        → first.journal ≡ Some found → last.journal ≡ Some left
        → CameToItsEnd limit most found
        (record { start = start_by pace b.journal; past = happenings follow.steps }) left }
    ensures broken { (limit most : ℕ) (pace : Pace) (given : List Given) (fault : DriveFault) (found left : List ℕ)
        (first last : Streams) (b : IsBegunBehind None limit most first)
        (follow : IsBrokenFollow (start_by pace b.journal) given fault (record first { journal = b.begun.middle }) last)
        → first.journal ≡ Some found → IsBetween follow.then.journal last.journal left
        → (past : List Happening)
        × HasSat limit most found (record { start = start_by pace b.journal; past = past }) left }
    ensures stopped { (limit most : ℕ) (pace : Pace) (given : List Given) (found seen left : List ℕ) (first : Streams)
        (writer : WriterState) (last : Streams) (b : IsBegunBehind None limit most first)
        → IsFollowed (start_by pace b.journal) given (record first { journal = b.begun.middle }) writer last
        → first.journal ≡ Some found → last.journal ≡ Some seen
        → IsPartBehind limit (Some found) (Some seen) left → StoodOnce limit most found left (muted first) last }
    ensures stopped_broken { (limit most : ℕ) (pace : Pace) (given : List Given) (fault : DriveFault)
        (found seen left : List ℕ) (first last : Streams) (b : IsBegunBehind None limit most first)
        → IsBrokenFollow (start_by pace b.journal) given fault (record first { journal = b.begun.middle }) last
        → first.journal ≡ Some found → last.journal ≡ Some seen
        → IsPartBehind limit (Some found) (Some seen) left → StoodOnce limit most found left (muted first) last }
{}

/// The result of a call of `read_unit`, by its contract, along every chain of worlds over any bus, with losses of power
/// anywhere. Each byte of a bank, and each on which a finding about an order rests, was at its location when its read
/// reached the unit, which had its power from the second frame of its block to the last.
pub fn what_is_read_was_there()
    ensures bank { (loses : List ℕ) (unit : ℕ) (bytes : List ℕ) (first last : Streams)
        (read : IsUnitRead unit bank_course (Some bytes) first last) (begun ended : World)
        → Run WorldStep (IsAmong loses) read.told begun ended
        → ShowsBank (WhenTold (IsAmong loses) read.told begun ended unit) bytes }
    ensures order { (loses : List ℕ) (unit : ℕ) (updates : List (ℕ × ℕ)) (bytes : List ℕ) (finding : Finding)
        (first last : Streams) (read : IsUnitRead unit (order_course updates) (Some bytes) first last)
        (begun ended : World)
        → IsFound updates bytes finding → Run WorldStep (IsAmong loses) read.told begun ended
        → Finds (WhenTold (IsAmong loses) read.told begun ended unit) updates finding }
{}

/// Wherever a call of `read_unit` ends or breaks off, along every such chain no memory changes but lock bytes of units
/// that lose their power, and no unit is enabled by it; the frame at hand may have been carried then, with any answer.
pub fn what_is_read_stays()
    ensures ended { (loses : List ℕ) (unit : ℕ) (course : Course) (outcome : Option (List ℕ)) (first last : Streams)
        (read : IsUnitRead unit course outcome first last) (begun ended : World)
        → Run WorldStep (IsAmong loses) read.told begun ended
        → (address : ℕ) → KeepsAt (IsAmong loses) begun ended address }
    ensures broken { (loses : List ℕ) (unit : ℕ) (course : Course) (fault : DriveFault) (first last : Streams)
        (broke : UnitReadBroke unit course fault first last) (answer : Option ℕ) (begun ended : World)
        → Run WorldStep (IsAmong loses) broke.told begun ended
        ⊎ Run WorldStep (IsAmong loses) (record { frame = broke.frame; answer = answer } ∷ broke.told) begun ended
        → (address : ℕ) → KeepsAt (IsAmong loses) begun ended address }
{}

/// After older journals that are at rest, along each trace that may follow, each order acts once over all of them: an
/// order that one of them has ended gets that reply, and since that isn't Taken no frame is sent for it; a number that
/// one of them has with other contents is refused as `reused`; and no number is begun twice in all. The records that
/// the store keeps are a journal by themselves.
pub fn older_orders_act_once()
    ensures { (older : JournalState) (limit most : ℕ) (pace : Pace) (first : Streams) (past : List Happening)
        (b : IsBegunBehind (Some older) limit most first) → standing_of older.records ≡ Idle
        → Legal (start_by pace b.journal) past → KeepsRecords past
        → ActsOnceBehind older limit (start_by pace b.journal) past }
{}

/// Orders that are followed after an older journal, over a store that showed known bytes, are followed over the whole:
/// over a store whose bytes are those of the older records followed by the store's own, each without a second header.
/// So all that is true of drives one after another, killed and started again, is true of drives after older journals;
/// and if there are no records yet, the whole is exactly what the older journals' own drives left.
pub fn what_is_followed_behind_is_of_the_whole()
    ensures ended { (older : JournalState) (limit most room : ℕ) (pace : Pace) (given : List Given)
        (found left : List ℕ)
        (first : Streams) (writer : WriterState) (last : Streams) (b : IsBegunBehind (Some older) limit most first)
        (follow : IsFollowed (start_by pace b.journal) given (record first { journal = b.begun.middle }) writer last)
        → first.journal ≡ Some found → last.journal ≡ Some left
        → length (journal_spelling Two b.journal.records) ≤ room
        → CameToItsEnd (order_count older + limit) room (journal_spelling Two b.journal.records)
        (record { start = start_by pace b.journal; past = happenings follow.steps }) (bytes_behind older.records left) }
    ensures broken { (older : JournalState) (limit most room : ℕ) (pace : Pace) (given : List Given)
        (fault : DriveFault)
        (found left : List ℕ) (first last : Streams) (b : IsBegunBehind (Some older) limit most first)
        (follow : IsBrokenFollow (start_by pace b.journal) given fault (record first { journal = b.begun.middle }) last)
        → first.journal ≡ Some found → IsBetween follow.then.journal last.journal left
        → length (journal_spelling Two b.journal.records) ≤ room
        → (past : List Happening) × HasSat (order_count older + limit) room (journal_spelling Two b.journal.records)
        (record { start = start_by pace b.journal; past = past }) (bytes_behind older.records left) }
    ensures again { (older : JournalState) (limit most : ℕ) (found : List ℕ) (first : Streams)
        (b : IsBegunBehind (Some older) limit most first)
        → first.journal ≡ Some found → b.begun.opened.version ≡ Two
        → IsSameFile (order_count older + limit) (bytes_behind older.records found)
        (journal_spelling Two b.journal.records) }
{}

/// Whatever a stop may leave at some moment of what is followed after an older journal, after the journal that was
/// opened there, is with the older records what it would have left if a drive of the whole had been killed at some
/// moment of what may have happened, as `stops_leave_a_part` says of a drive without older ones. The older one is
/// durable: a stop leaves it as it is.
pub fn stops_behind_leave_a_part_of_the_whole()
    ensures ended { (older : JournalState) (limit most room : ℕ) (pace : Pace) (given : List Given)
        (found seen left : List ℕ)
        (first : Streams) (writer : WriterState) (last : Streams) (b : IsBegunBehind (Some older) limit most first)
        → IsFollowed (start_by pace b.journal) given (record first { journal = b.begun.middle }) writer last
        → first.journal ≡ Some found → last.journal ≡ Some seen
        → length (journal_spelling Two b.journal.records) ≤ room
        → IsPartBehind limit (Some found) (Some seen) left
        → StoodOnce (order_count older + limit) room (journal_spelling Two b.journal.records)
        (bytes_behind older.records left)
        (muted (record first { journal = Some (journal_spelling Two b.journal.records) }))
        (streams_behind older.records last) }
    ensures broken { (older : JournalState) (limit most room : ℕ) (pace : Pace) (given : List Given)
        (fault : DriveFault)
        (found seen left : List ℕ) (first last : Streams) (b : IsBegunBehind (Some older) limit most first)
        → IsBrokenFollow (start_by pace b.journal) given fault (record first { journal = b.begun.middle }) last
        → first.journal ≡ Some found → last.journal ≡ Some seen
        → length (journal_spelling Two b.journal.records) ≤ room
        → IsPartBehind limit (Some found) (Some seen) left
        → StoodOnce (order_count older + limit) room (journal_spelling Two b.journal.records)
        (bytes_behind older.records left)
        (muted (record first { journal = Some (journal_spelling Two b.journal.records) }))
        (streams_behind older.records last) }
{}
