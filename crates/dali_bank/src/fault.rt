ghost use Rattle.std.specs.Prelude.{◌≡◌, ◌≤◌, length};

use std::error::Error;
use std::fmt;

/// Why a draft was refused. Of several faults the one with the lowest number is reported (profile).
#[derive(Clone, Copy, Debug, PartialEq, Eq)]
pub enum BankFault {
    /// The unit's short address is over 63.
    Unit = 1,
    /// The field doesn't take a value of this kind.
    Kind = 2,
    /// The number is out of the field's range.
    Range = 3,
    /// The digits are no GTIN.
    Gtin = 4,
    /// The text or the identification number breaks its rule.
    Text = 5,
    /// The field is set already.
    Twice = 6,
    /// The minimum voltage is over the maximum.
    Voltage = 7,
    /// No field is set.
    Empty = 8,
}

impl BankFault {
    ghost use Rattle.dali_bank.specs.Faults.{name_of, number_of};

    /// The fault's number.
    pub fn number(&self) -> u8
        ensures { result ≡ number_of self.now }
    {
        *self as u8
    }

    /// The fault's name, of at most 8 characters.
    pub fn name(&self) -> &'static str
        ensures name { result.now ≡ name_of self.now }
        ensures short { length result.now ≤ 8 }
    {
        match self {
            BankFault::Unit => "Unit",
            BankFault::Kind => "Kind",
            BankFault::Range => "Range",
            BankFault::Gtin => "Gtin",
            BankFault::Text => "Text",
            BankFault::Twice => "Twice",
            BankFault::Voltage => "Voltage",
            BankFault::Empty => "Empty",
        }
    }
}

impl fmt::Display for BankFault {
    ghost use Rattle.std.specs.Prelude.{Some};
    ghost use Rattle.dali_bank.specs.Faults.{name_of};

    ghost output = { λ fault. Some (name_of fault) };

    fn fmt<W: fmt::Write>(&self, f: &mut fmt::Formatter<W>) -> fmt::Result {
        f.write_str(self.name())
    }
}

impl Error for BankFault {}
