ghost use Rattle.std.specs.Prelude.{◌≡◌, ◌==◌, ◌≤◌, ◌<◌, ◌↔◌, [], true, false, if◌then◌else◌, IfOk, IfErr, OnOk};
ghost use Rattle.std.specs.Prelude.{IsTrue};
ghost use Rattle.std.specs.List.{AllByRecursion};
ghost use Rattle.dali_bank.specs.Blank.{blank_bank};
ghost use Rattle.dali_gear.specs.UnitState.{UnitState, after_frame, after_write, after_read, answer_to, selected_byte};
ghost use Rattle.dali_gear.specs.UnitState.{stores, gear_of, new_unit, powered_up};
ghost use Rattle.dali_bus.specs.Power.{PowersUp};
ghost use Rattle.dali_bus.specs.Hears.{Hears, up};
ghost use Rattle.dali_gear.specs.Faults.{IsBank, AreFixed, LocationsRiseAbove, IsUnitFault, IsBlankFault};

use crate::bank::Bank;
use crate::fault::GearFault;
use dali_bank::BLANK;
use dali_frame::Frame;
use std::alloc::Global;
use std::marker::Model;

/// The greatest short address of control gear (IEC 62386-102: addressing).
pub const MOST_ADDRESS: u8 = 63;

/// The fewest bytes of memory bank 1 (IEC 62386-102: memory bank 1).
pub const LEAST_BANK: usize = 17;

/// The most bytes of memory bank 1: a bank has no location FFh (IEC 62386-102: memory banks).
pub const MOST_BANK: usize = 255;

// The bytes of memory bank 2: its last location at 00h, and FFh at all others.
const BANK_2: [u8; 16] = [
    0x0F, 0xFF, 0xFF, 0xFF, 0xFF, 0xFF, 0xFF, 0xFF, 0xFF, 0xFF, 0xFF, 0xFF, 0xFF, 0xFF, 0xFF, 0xFF,
];

/// A simulated unit: control gear with memory banks 1 and 2 (IEC 62386-102: memory access, and
/// profile where that leaves a choice).
///
/// A new unit isn't write-enabled, no half of a pair that enables it is pending, and DTR0, DTR1 and
/// DTR2 are 0. Bank 2 has 16 locations, 0Fh at 00h and FFh at all others.
pub struct Unit {
    address: u8,
    dtr0: u8,
    dtr1: u8,
    dtr2: u8,
    is_enabled: bool,
    is_half_pair_pending: bool,
    bank1: Bank,
    bank2: Bank,
}

// Called wherever one goes: what is derived would be written out at each such place.
impl Drop for Unit {
    fn drop(self) {
        let Unit {
            address: _,
            dtr0: _,
            dtr1: _,
            dtr2: _,
            is_enabled: _,
            is_half_pair_pending: _,
            bank1: _,
            bank2: _,
        } = self;
    }
}

impl Model for Unit {
    ghost use Rattle.std.specs.Prelude.{◌<◌};
    ghost use Rattle.dali_gear.specs.UnitState.{UnitState};
    ghost use Rattle.dali_gear.specs.Faults.{IsBank};

    ghost Value = { UnitState };

    ghost view = { λ unit. record {
      address = unit.address;
      dtr0 = unit.dtr0;
      dtr1 = unit.dtr1;
      dtr2 = unit.dtr2;
      enabled = unit.is_enabled;
      half_pair = unit.is_half_pair_pending;
      bank1 = unit.bank1;
      bank2 = unit.bank2;
    } };

    ghost invariant = { λ unit. (unit.address < 64) × IsBank unit.bank1.bytes };
}

impl Unit {
    /// A unit whose bank 1 holds `BLANK`, with no fixed location.
    ///
    /// Fault 1 Address if the short address is over 63, 4 NoMemory if there is no memory.
    pub fn blank(alloc: Global, address: u8) -> Result<Unit, GearFault>
        ensures accepted { OnOk result (address ≤ 63) }
        ensures ok { IfOk result (λ unit. unit ≡ new_unit address blank_bank []) }
        ensures err { IfErr result (λ fault. IsBlankFault address fault) }
    {
        Unit::with_bank1(alloc, address, &BLANK, &[])
    }

    /// A unit with these bytes in bank 1, of which those at the fixed locations can't be written.
    ///
    /// Fault 1 Address if the short address is over 63, 2 Size if there aren't 17 to 255 bytes or the first one isn't
    /// the last location, 3 Fixed if the fixed locations don't rise or one is below 03h or past the last location, 4
    /// NoMemory if there is no memory: the first that applies (profile).
    pub fn with_bank1(
        alloc: Global,
        address: u8,
        bytes: &[u8],
        fixed: &[u8],
    ) -> Result<Unit, GearFault>
        ensures accepted { OnOk result ((address ≤ 63) × IsBank bytes.now × AreFixed bytes.now fixed.now) }
        ensures ok { IfOk result (λ unit. unit ≡ new_unit address bytes.now fixed.now) }
        ensures err { IfErr result (λ fault. IsUnitFault address bytes.now fixed.now fault) }
    {
        if address > MOST_ADDRESS {
            return Err(GearFault::Address);
        }
        if !is_bank(bytes) {
            return Err(GearFault::Size);
        }
        if !rise_within(2, bytes.len(), fixed) {
            return Err(GearFault::Fixed);
        }
        Ok(Unit {
            address,
            dtr0: 0,
            dtr1: 0,
            dtr2: 0,
            is_enabled: false,
            is_half_pair_pending: false,
            bank1: Bank::new(alloc, bytes, fixed)?,
            bank2: Bank::new(alloc, &BANK_2, &[])?,
        })
    }

    /// The unit's short address, 0 to 63. Each unit that can be asked for it has bytes in bank 1 that
    /// a bank may have.
    pub fn address(&self) -> u8
        ensures value { result ≡ self.now.address }
        ensures short { result < 64 }
        ensures bank { IsBank self.now.bank1.bytes }
    {
        self.address
    }

    /// The bytes of bank 1, from location 00h on.
    pub fn bank1(&self) -> &[u8]
        ensures { result.now ≡ self.now.bank1.bytes }
    {
        self.bank1.bytes()
    }

    /// The bytes of bank 2, from location 00h on.
    pub fn bank2(&self) -> &[u8]
        ensures { result.now ≡ self.now.bank2.bytes }
    {
        self.bank2.bytes()
    }

    /// DTR0, DTR1 and DTR2.
    pub fn dtrs(&self) -> (u8, u8, u8)
        ensures { result ≡ (self.now.dtr0, self.now.dtr1, self.now.dtr2) }
    {
        (self.dtr0, self.dtr1, self.dtr2)
    }

    /// Whether the unit is write-enabled.
    pub fn is_enabled(&self) -> bool
        ensures { result ≡ self.now.enabled }
    {
        self.is_enabled
    }

    /// The unit loses its power and gets it back: DTR0, DTR1 and DTR2 are 0, it isn't write-enabled,
    /// no half of a pair is pending, and the lock bytes of both banks are FFh (IEC 62386-102:
    /// power-up; profile for the registers). All else stays.
    #[tactic(auto, using(crate::specs::UnitHears::unit_powers_up))]
    pub fn power_up(&mut self)
        ensures after { self.new ≡ powered_up self.old }
        ensures allowed { PowersUp (gear_of self.old) (gear_of self.new) }
    {
        self.set_dtrs(0, 0, 0);
        (self.is_enabled, self.is_half_pair_pending) = (false, false);
        self.bank1.lock();
        self.bank2.lock();
    }

    /// Sets DTR0, DTR1 and DTR2. All else stays.
    pub fn set_dtrs(&mut self, dtr0: u8, dtr1: u8, dtr2: u8)
        ensures { self.new ≡ record self.old { dtr0 = dtr0; dtr1 = dtr1; dtr2 = dtr2 } }
    {
        self.dtr0 = dtr0;
        self.dtr1 = dtr1;
        self.dtr2 = dtr2;
    }

    /// Does what the unit does with a frame that it hears, and tells its answer (IEC 62386-102:
    /// memory access, and profile where that leaves a choice).
    #[tactic(auto, using(crate::specs::UnitHears::unit_hears))]
    pub fn hear(&mut self, frame: &Frame) -> Option<u8>
        ensures after { self.new ≡ after_frame false self.old frame.now }
        ensures answer { result ≡ answer_to false self.old frame.now }
        ensures allowed { Hears self.old.address (gear_of self.old) frame.now result (gear_of self.new) }
    {
        self.obey(frame, false)
    }

    /// Does the same, but a write stores nothing and isn't answered (profile).
    #[tactic(auto, using(crate::specs::UnitHears::unit_hears))]
    pub fn hear_refusing(&mut self, frame: &Frame) -> Option<u8>
        ensures after { self.new ≡ after_frame true self.old frame.now }
        ensures answer { result ≡ answer_to true self.old frame.now }
        ensures allowed { Hears self.old.address (gear_of self.old) frame.now result (gear_of self.new) }
    {
        self.obey(frame, true)
    }

    // The effect of a frame that a unit hears, whether it refuses writes or not.
    fn obey(&mut self, frame: &Frame, refuses: bool) -> Option<u8>
        ensures after { self.new ≡ after_frame refuses self.old frame.now }
        ensures answer { result ≡ answer_to refuses self.old frame.now }
    {
        let was_half_pair_pending = self.is_half_pair_pending;
        self.is_half_pair_pending = false;
        match *frame {
            Frame::Dtr0(byte) => self.dtr0 = byte,
            Frame::Dtr1(byte) => self.dtr1 = byte,
            Frame::Dtr2(byte) => self.dtr2 = byte,
            Frame::Write(byte) => return self.write(byte, refuses),
            Frame::WriteSilent(byte) => {
                let _untold = self.write(byte, refuses);
            }
            Frame::Enable(to) if to == self.address => self.enable(was_half_pair_pending),
            Frame::AskDtr0(to) if to == self.address => return Some(self.dtr0),
            Frame::AskDtr1(to) if to == self.address => return Some(self.dtr1),
            Frame::AskDtr2(to) if to == self.address => return Some(self.dtr2),
            Frame::Read(to) if to == self.address => return self.read(),
            Frame::Other(_) => self.is_enabled = false,
            // A command to another unit.
            _ => {}
        }
        None
    }

    // Does what a frame of a pair does: the second one enables writes, the first is half of a pair.
    fn enable(&mut self, was_half_pair_pending: bool)
        ensures { self.new
            ≡ (if was_half_pair_pending
            then record self.old { enabled = true }
            else record self.old { half_pair = true }) }
    {
        if was_half_pair_pending {
            self.is_enabled = true;
        } else {
            self.is_half_pair_pending = true;
        }
    }

    fn write(&mut self, byte: u8, refuses: bool) -> Option<u8>
        ensures after { self.new ≡ after_write refuses self.old byte }
        ensures answer { result ≡ (if stores refuses self.old then Some byte else None) }
    {
        if !self.is_enabled {
            return None;
        }
        let is_stored = match self.dtr1 {
            1 => self.bank1.write(self.dtr0, byte, refuses),
            2 => self.bank2.write(self.dtr0, byte, refuses),
            _ => return None,
        };
        self.move_on();
        is_stored.then_some(byte)
    }

    fn read(&mut self) -> Option<u8>
        ensures after { self.new ≡ after_read self.old }
        ensures answer { result ≡ selected_byte self.old }
    {
        self.is_enabled = false;
        let answer = match self.dtr1 {
            1 => self.bank1.byte(self.dtr0),
            2 => self.bank2.byte(self.dtr0),
            _ => return None,
        };
        self.move_on();
        answer
    }

    // DTR0 moves on to the next location, unless it is the last one that there can be.
    fn move_on(&mut self)
        ensures { self.new ≡ record self.old { dtr0 = up self.old.dtr0 } }
    {
        self.dtr0 = self.dtr0.saturating_add(1);
    }
}

// Whether bank 1 may have these bytes.
fn is_bank(bytes: &[u8]) -> bool
    ensures { IsTrue result ↔ IsBank bytes.now }
{
    LEAST_BANK <= bytes.len()
        && bytes.len() <= MOST_BANK
        && usize::from(bytes[0]) + 1 == bytes.len()
}

// Whether locations rise from above the bound on, and lie below the end.
fn rise_within(bound: u8, end: usize, locations: &[u8]) -> bool
    ensures { IsTrue result
        ↔ (LocationsRiseAbove bound locations.now × AllByRecursion (λ location. location < end) locations.now) }
{
    match locations {
        [] => true,
        [first, rest @ ..] => {
            bound < *first && usize::from(*first) < end && rise_within(*first, end, rest)
        }
    }
}
