ghost use Rattle.std.specs.Prelude.{◌≡◌, ◌≤◌, length};

use std::alloc::{AllocError, AllocFailed};
use std::error::Error;
use std::fmt;

/// Why an input as a whole is refused (profile).
#[derive(Clone, Copy, Debug, PartialEq, Eq)]
pub enum InputFault {
    /// The input is no JSON.
    Json = 11,
    /// The input is JSON of another form.
    Document = 12,
    /// The input is larger than its limit.
    TooBig = 13,
    /// The text is no hexadecimal digits, or not two for each byte.
    Hex = 14,
    /// Memory ran out.
    Memory = 20,
    /// The input can't be opened or read.
    File = 21,
}

impl InputFault {
    ghost use Rattle.dali_input.specs.Faults.{name_of, number_of};

    /// The fault's number.
    pub fn number(&self) -> u8
        ensures { result ≡ number_of self.now }
    {
        *self as u8
    }

    /// The fault's name, of at most 8 characters.
    pub fn name(&self) -> &'static str
        ensures name { result.now ≡ name_of self.now }
        ensures short { length result.now ≤ 8 }
    {
        match self {
            InputFault::Json => "Json",
            InputFault::Document => "Document",
            InputFault::TooBig => "TooBig",
            InputFault::Hex => "Hex",
            InputFault::Memory => "Memory",
            InputFault::File => "File",
        }
    }
}

impl fmt::Display for InputFault {
    ghost use Rattle.std.specs.Prelude.{Some};
    ghost use Rattle.dali_input.specs.Faults.{name_of};

    ghost output = { λ fault. Some (name_of fault) };

    fn fmt<W: fmt::Write>(&self, f: &mut fmt::Formatter<W>) -> fmt::Result {
        f.write_str(self.name())
    }
}

impl Error for InputFault {}

impl From<AllocError> for InputFault {
    ghost use Rattle.std.specs.Prelude.{◌≡◌};
    ghost use Rattle.dali_input.specs.declared.fault.InputFault.TheVariants.{Memory};

    ghost from_gives = { λ _ fault. fault ≡ Memory };

    fn from(_error: AllocError) -> InputFault {
        InputFault::Memory
    }
}

impl<T: Drop> From<AllocFailed<T>> for InputFault {
    ghost use Rattle.std.specs.Prelude.{◌≡◌};
    ghost use Rattle.dali_input.specs.declared.fault.InputFault.TheVariants.{Memory};

    ghost from_gives = { λ _ fault. fault ≡ Memory };

    fn from(_failed: AllocFailed<T>) -> InputFault {
        InputFault::Memory
    }
}
