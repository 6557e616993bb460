ghost use Rattle.std.specs.Prelude.{◌≡◌};

use std::alloc::AllocError;
use std::error::Error;
use std::fmt;

/// Why no unit or bus was made. Of several faults the one with the lowest number is reported (profile).
#[derive(Clone, Copy, Debug, PartialEq, Eq)]
pub enum GearFault {
    /// The short address is over 63.
    Address = 1,
    /// Bank 1 hasn't 17 to 255 bytes, or the one at 00h isn't its last location.
    Size = 2,
    /// The fixed locations don't rise, or one is below 03h or past the last location.
    Fixed = 3,
    /// There was no memory.
    NoMemory = 4,
    /// Two units are at one short address.
    SameAddress = 5,
}

impl GearFault {
    ghost use Rattle.dali_gear.specs.Faults.{number_of};

    /// The fault's number.
    pub fn number(&self) -> u8
        ensures { result ≡ number_of self.now }
    {
        *self as u8
    }
}

impl From<AllocError> for GearFault {
    ghost use Rattle.std.specs.Prelude.{◌≡◌};
    ghost use Rattle.dali_gear.specs.declared.fault.GearFault.TheVariants.{NoMemory};

    ghost from_gives = { λ _ fault. fault ≡ NoMemory };

    fn from(_: AllocError) -> GearFault {
        GearFault::NoMemory
    }
}

impl fmt::Display for GearFault {
    ghost use Rattle.std.specs.Prelude.{Some};
    ghost use Rattle.dali_gear.specs.Faults.{name_of};

    ghost output = { λ fault. Some (name_of fault) };

    fn fmt<W: fmt::Write>(&self, f: &mut fmt::Formatter<W>) -> fmt::Result {
        f.write_str(match self {
            GearFault::Address => "Address",
            GearFault::Size => "Size",
            GearFault::Fixed => "Fixed",
            GearFault::NoMemory => "NoMemory",
            GearFault::SameAddress => "SameAddress",
        })
    }
}

impl Error for GearFault {}
