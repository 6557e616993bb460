//! Laws of block reads and of readings. Each is the contract of a function that does nothing.

ghost use Rattle.std.specs.Prelude.{◌≡◌, ◌∷◌, ◌++◌, ◌<◌, ◌≤◌, ◌+◌, ◌*◌, ◌⊎◌, ℕ, List, [], Option, Some, None};
ghost use Rattle.std.specs.Prelude.{length, slice_get};
ghost use Rattle.std.specs.List.{AllByRecursion};
ghost use Rattle.dali_frame.specs.declared.forward.Frame.{Frame};
ghost use Rattle.dali_frame.specs.Frame.{IsProper};
ghost use Rattle.dali_bus.specs.World.{World};
ghost use Rattle.dali_bus.specs.Carry.{WorldStep};
ghost use Rattle.dali_gear.specs.SimState.{SimState};
ghost use Rattle.dali_gear.specs.UnitState.{UnitState};
ghost use Rattle.dali_write.specs.Exchanges.{Exchange};
ghost use Rattle.dali_write.specs.Requests.{read_requests};
ghost use Rattle.dali_write.specs.Reads.{IsPassive};
ghost use Rattle.dali_write.specs.Guards.{IsGuarded};
ghost use Rattle.dali_write.specs.Successes.{Spared, MissesByLosses};
ghost use Rattle.dali_write.specs.Tries.{most_tries};
ghost use Rattle.dali_write.specs.Worlds.{IsAmong, Run, Shows, KeepsAt};
ghost use Rattle.dali_write.specs.declared.block.Block.{Block};
ghost use Rattle.dali_read.specs.declared.finding.Finding.{Finding};
ghost use Rattle.dali_write.specs.Requests.{block_requests, moved_on};
ghost use Rattle.dali_write.specs.Blocks.{Fits, IsBlockRead};
ghost use Rattle.dali_write.specs.Requests.{block};
ghost use Rattle.dali_read.specs.Places.{last_course, bank_course, identity_course, order_course};
ghost use Rattle.dali_read.specs.Readings.{Course, Ends, IsRead, IsReading};
ghost use Rattle.dali_read.specs.Findings.{IsFound};
ghost use Rattle.dali_read.specs.Shown.{InBlock, WhenTold, ShowsBank, ShowsIdentity, ShowsTold, Finds, Holds};
ghost use Rattle.dali_write.specs.WhenBlock.{WhenBlock};
ghost use Rattle.dali_read.specs.Counts.{block_frames, bank_frames, identity_frames, order_frames, found_frames};
ghost use Rattle.dali_read.specs.Counts.{AreSoMany};

/// A block read of one location is the checked read; the count of frames of a block read; and the location that DTR0
/// holds after its reads: as many further as there are locations.
pub fn blocks_are_these()
    ensures place { (location count : ℕ) → location + count ≤ 0xFF → moved_on location count ≡ location + count }
    ensures one { (unit location : ℕ) → location < 0xFF
        → block_requests unit (block location 1) ≡ read_requests unit location }
    ensures frames { (unit : ℕ) (block : Block) → length (block_requests unit block) ≡ block_frames block.count }
{}

/// A block read that came to its end tells a byte of each of its places, and then the unit holds them and isn't
/// write-enabled.
pub fn block_reads_are_true()
    ensures count { (tried : List Exchange) (unit : ℕ) (block : Block) (bytes : List ℕ)
        → IsBlockRead unit block bytes tried → length bytes ≡ block.count }
    ensures bytes { (loses : List ℕ) (tried : List Exchange) (first last : World) (unit : ℕ) (block : Block)
        (bytes : List ℕ)
        → Fits block → Run WorldStep (IsAmong loses) tried first last → IsBlockRead unit block bytes tried
        → (index byte : ℕ) → slice_get bytes index ≡ Some byte
        → Shows (IsAmong loses) last unit (block.location + index) byte }
{}

/// Each byte that a block read told was at its place when its read reached the unit. The unit kept its power from the
/// answer to the second frame of the block read to that to its last one, whichever units lose theirs before, between
/// and after.
pub fn block_bytes_were_there()
    ensures { (loses : List ℕ) (newer tried older : List Exchange) (first last : World) (unit : ℕ) (block : Block)
        (bytes : List ℕ)
        → Fits block → Run WorldStep (IsAmong loses) (newer ++ (tried ++ older)) first last
        → IsBlockRead unit block bytes tried
        → WhenBlock (IsAmong loses) (newer ++ (tried ++ older)) first last unit block bytes }
{}

/// The bytes of a reading that came to its end: a whole bank, the identity of a unit, or the finding for an order and
/// the bytes of its own locations, byte by byte by reads of blocks of its own; and when each of these bytes was there.
pub fn readings_are_true()
    ensures last { (told : List Exchange) (unit : ℕ) (bytes : List ℕ) → IsRead unit last_course bytes told
        → (last : ℕ) × (bytes ≡ last ∷ []) × InBlock told unit 0x00 last }
    ensures bank { (told : List Exchange) (unit : ℕ) (bytes : List ℕ) → IsRead unit bank_course bytes told
        → ShowsBank (InBlock told unit) bytes }
    ensures identity { (told : List Exchange) (unit : ℕ) (bytes : List ℕ) → IsRead unit identity_course bytes told
        → ShowsIdentity (InBlock told unit) bytes }
    ensures order { (told : List Exchange) (unit : ℕ) (updates : List (ℕ × ℕ)) (bytes : List ℕ) (finding : Finding)
        → IsRead unit (order_course updates) bytes told → IsFound updates bytes finding
        → Finds (InBlock told unit) updates finding }
    ensures updates { (told : List Exchange) (unit : ℕ) (updates : List (ℕ × ℕ)) (bytes : List ℕ)
        → IsRead unit (order_course updates) bytes told → ShowsTold (InBlock told unit) updates bytes }
    ensures moments { (loses : List ℕ) (told : List Exchange) (first last : World) (unit location byte : ℕ)
        → InBlock told unit location byte → Run WorldStep (IsAmong loses) told first last
        → WhenTold (IsAmong loses) told first last unit location byte }
{}

/// A reading changes no memory and enables no unit, except for lock bytes of units that lose their power, wherever it
/// ends; and each frame that it sends is proper, sets a register, asks its unit or reads it, and writes nothing.
pub fn readings_are_quiet()
    ensures ended { (loses : List ℕ) (told : List Exchange) (first last : World) (unit : ℕ) (course : Course)
        (outcome : Option (List ℕ))
        → Run WorldStep (IsAmong loses) told first last → Ends unit course outcome told
        → (address : ℕ) → KeepsAt (IsAmong loses) first last address }
    ensures broken { (loses : List ℕ) (told : List Exchange) (first last : World) (unit : ℕ) (course : Course)
        (frame : Frame) (answer : Option ℕ)
        → IsReading unit course told frame
        → Run WorldStep (IsAmong loses) told first last
        ⊎ Run WorldStep (IsAmong loses) (record { frame = frame; answer = answer } ∷ told) first last
        → (address : ℕ) → KeepsAt (IsAmong loses) first last address }
    ensures frames { (told : List Exchange) (unit : ℕ) (course : Course) (frame : Frame) → unit ≤ 63
        → IsReading unit course told frame → IsProper frame × IsPassive frame × IsGuarded [] unit told frame }
    ensures sent { (told : List Exchange) (unit : ℕ) (course : Course) (outcome : Option (List ℕ))
        → Ends unit course outcome told → AllByRecursion (λ x. IsPassive x.frame) told }
{}

/// The count of frames of a reading that came to its end. However it ends it takes at most those of eight tries of each
/// block, and while it goes on it took fewer. With those of banks of 120 and 255 locations as numbers.
pub fn readings_take_exactly()
    ensures last { (told : List Exchange) (unit : ℕ) (bytes : List ℕ) → IsRead unit last_course bytes told
        → AreSoMany (block_frames 1) told }
    ensures bank { (told : List Exchange) (unit last : ℕ) (more : List ℕ) → IsRead unit bank_course (last ∷ more) told
        → AreSoMany (bank_frames last) told }
    ensures identity { (told : List Exchange) (unit last : ℕ) (more : List ℕ)
        → IsRead unit identity_course (last ∷ more) told → AreSoMany (identity_frames last) told }
    ensures order { (told : List Exchange) (unit : ℕ) (updates : List (ℕ × ℕ)) (bytes : List ℕ) (finding : Finding)
        → IsRead unit (order_course updates) bytes told → IsFound updates bytes finding
        → AreSoMany (found_frames updates finding) told }
    ensures last_limit { (told : List Exchange) (unit : ℕ) (outcome : Option (List ℕ))
        → Ends unit last_course outcome told → length told ≤ most_tries * block_frames 1 }
    ensures bank_limit { (told : List Exchange) (unit : ℕ) (outcome : Option (List ℕ))
        → Ends unit bank_course outcome told → length told ≤ most_tries * bank_frames 0xFE }
    ensures identity_limit { (told : List Exchange) (unit : ℕ) (outcome : Option (List ℕ))
        → Ends unit identity_course outcome told → length told ≤ most_tries * identity_frames 0x10 }
    ensures order_limit { (told : List Exchange) (unit : ℕ) (updates : List (ℕ × ℕ)) (outcome : Option (List ℕ))
        → Ends unit (order_course updates) outcome told → length told ≤ most_tries * order_frames updates }
    ensures amid_last { (told : List Exchange) (unit : ℕ) (frame : Frame) → IsReading unit last_course told frame
        → length told < most_tries * block_frames 1 }
    ensures amid_bank { (told : List Exchange) (unit : ℕ) (frame : Frame) → IsReading unit bank_course told frame
        → length told < most_tries * bank_frames 0xFE }
    ensures amid_identity { (told : List Exchange) (unit : ℕ) (frame : Frame)
        → IsReading unit identity_course told frame → length told < most_tries * identity_frames 0x10 }
    ensures amid_order { (told : List Exchange) (unit : ℕ) (updates : List (ℕ × ℕ)) (frame : Frame)
        → IsReading unit (order_course updates) told frame → length told < most_tries * order_frames updates }
    ensures whole { block_frames 16 ≡ 22 }
    ensures small { bank_frames 0x77 ≡ 174 }
    ensures large { bank_frames 0xFE ≡ 357 }
    ensures known { identity_frames 0x10 ≡ 27 }
{}

/// On the simulated bus, if no fate refuses, no other unit is write-enabled, and the unit keeps its power and loses
/// less than an access has tries, a reading comes to its end, tells the bytes that bank 1 of the unit holds, and misses
/// no more often than the unit loses. Other units may lose their power meanwhile.
pub fn spared_readings_succeed()
    ensures last { (loses : List ℕ) (at : ℕ) (unit : UnitState) (outcome : Option (List ℕ)) (told : List Exchange)
        (first last : SimState) (spared : Spared (IsAmong loses) at unit told first last)
        → Ends at last_course outcome told
        → ((byte : ℕ) × (outcome ≡ Some (byte ∷ [])) × (slice_get unit.bank1.bytes 0x00 ≡ Some byte))
        × MissesByLosses (IsAmong loses) at unit told first last spared }
    ensures bank { (loses : List ℕ) (at : ℕ) (unit : UnitState) (outcome : Option (List ℕ)) (told : List Exchange)
        (first last : SimState) (spared : Spared (IsAmong loses) at unit told first last)
        → Ends at bank_course outcome told
        → (outcome ≡ Some unit.bank1.bytes) × MissesByLosses (IsAmong loses) at unit told first last spared }
    ensures identity { (loses : List ℕ) (at : ℕ) (unit : UnitState) (outcome : Option (List ℕ)) (told : List Exchange)
        (first last : SimState) (spared : Spared (IsAmong loses) at unit told first last)
        → Ends at identity_course outcome told
        → ((bytes : List ℕ) × (outcome ≡ Some bytes) × ShowsIdentity (Holds unit.bank1.bytes) bytes)
        × MissesByLosses (IsAmong loses) at unit told first last spared }
    ensures order { (loses : List ℕ) (at : ℕ) (unit : UnitState) (updates : List (ℕ × ℕ))
        (outcome : Option (List ℕ)) (told : List Exchange) (first last : SimState)
        (spared : Spared (IsAmong loses) at unit told first last)
        → Ends at (order_course updates) outcome told
        → ((bytes : List ℕ) × (outcome ≡ Some bytes) × ((finding : Finding) → IsFound updates bytes finding
        → Finds (Holds unit.bank1.bytes) updates finding))
        × MissesByLosses (IsAmong loses) at unit told first last spared }
{}
