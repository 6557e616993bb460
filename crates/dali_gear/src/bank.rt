ghost use Rattle.std.specs.Prelude.{◌≡◌, not, ◌&&◌, slice_get, if◌then◌else◌, IfOk};
ghost use Rattle.dali_gear.specs.UnitState.{is_writable, with_byte, locked_bank};

use std::alloc::{AllocError, Global};
use std::boxed::BoxedSlice;
use std::marker::Model;

// The location of a bank's lock byte, what it holds while the bank can be written, and after power-up.
const LOCK: u8 = 0x02;

const UNLOCKED: u8 = 0x55;

const LOCKED: u8 = 0xFF;

/// A memory bank of a simulated unit. It never grows.
#[derive(Drop)]
pub(crate) struct Bank {
    bytes: BoxedSlice<u8>,
    fixed: BoxedSlice<u8>,
}

impl Model for Bank {
    ghost use Rattle.std.specs.Box.{boxed_slice_items};
    ghost use Rattle.dali_gear.specs.UnitState.{BankState};

    ghost Value = { BankState };

    ghost view = { λ bank. record { bytes = boxed_slice_items bank.bytes; fixed = boxed_slice_items bank.fixed } };
}

impl Bank {
    // A bank with these bytes, of which those at the fixed locations can't be written.
    pub(crate) fn new(alloc: Global, bytes: &[u8], fixed: &[u8]) -> Result<Bank, AllocError>
        ensures { IfOk result (λ bank. bank ≡ record { bytes = bytes.now; fixed = fixed.now }) }
    {
        Ok(Bank {
            bytes: BoxedSlice::from_slice(alloc, bytes)?,
            fixed: BoxedSlice::from_slice(alloc, fixed)?,
        })
    }

    // The bytes from location 00h on.
    pub(crate) fn bytes(&self) -> &[u8]
        ensures { result.now ≡ self.now.bytes }
    {
        &self.bytes
    }

    // The byte at a location, if it exists.
    pub(crate) fn byte(&self, location: u8) -> Option<u8>
        ensures { result ≡ slice_get self.now.bytes location }
    {
        self.bytes.get(usize::from(location)).copied()
    }

    // Stores a byte if it can be written, unless the unit is to refuse, and says whether it did.
    pub(crate) fn write(&mut self, location: u8, byte: u8, refuses: bool) -> bool
        ensures is_stored { result ≡ (not refuses && is_writable self.old location) }
        ensures after { self.new
            ≡ (if not refuses && is_writable self.old location then with_byte self.old location byte else self.old) }
    {
        let is_stored = !refuses && self.is_writable(location);
        if is_stored {
            self.bytes[usize::from(location)] = byte;
        }
        is_stored
    }

    // Sets the lock byte as it is after power-up, if it exists.
    pub(crate) fn lock(&mut self)
        ensures { self.new ≡ locked_bank self.old }
    {
        if usize::from(LOCK) < self.bytes.len() {
            self.bytes[usize::from(LOCK)] = LOCKED;
        }
    }

    // Whether a write at a location is stored.
    fn is_writable(&self, location: u8) -> bool
        ensures { result ≡ is_writable self.now location }
    {
        if self.byte(location).is_none() {
            return false;
        }
        location == LOCK
            || location > LOCK
                && !self.fixed.contains(&location)
                && self.byte(LOCK) == Some(UNLOCKED)
    }
}
