ghost use Rattle.std.specs.Prelude.{◌≡◌, Some};
ghost use Rattle.dali_frame.specs.LineFault.{name_of, number_of};

use std::error::Error;
use std::fmt;

/// Why a line is no answer (profile).
#[derive(Clone, Copy, Debug, PartialEq, Eq)]
pub enum LineFault {
    /// 1: the line hasn't two bytes.
    Length = 1,
    /// 2: the line has two bytes that are neither `--` nor two hexadecimal digits.
    Digit = 2,
}

impl LineFault {
    /// The fault's number: 1 for `Length`, 2 for `Digit` (profile).
    pub fn number(&self) -> u8
        ensures { result ≡ number_of self.now }
    {
        *self as u8
    }
}

/// Writes the fault's name, `Length` or `Digit`.
impl fmt::Display for LineFault {
    ghost output = { λ fault. Some (name_of fault) };

    fn fmt<W: fmt::Write>(&self, f: &mut fmt::Formatter<W>) -> fmt::Result {
        f.write_str(match self {
            LineFault::Length => "Length",
            LineFault::Digit => "Digit",
        })
    }
}

impl Error for LineFault {}
