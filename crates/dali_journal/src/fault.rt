ghost use Rattle.std.specs.Prelude.{◌≡◌, Some};

use std::alloc::{AllocError, AllocFailed};
use std::error::Error;
use std::fmt;

/// Why there is no journal (profile). A place is that of a record's first byte. Of several faults the first record's is
/// reported, and of these the one with the lowest number; `Limit` comes before all, and then `Header`.
#[derive(Clone, Copy, Debug, PartialEq, Eq)]
pub enum JournalFault {
    /// The limit is 0 or over 100000.
    Limit,
    /// There was no memory.
    NoMemory,
    /// Here is neither a record nor, at the end, a proper prefix of one.
    Record(usize),
    /// Here is a record that the standing doesn't allow.
    Sequence(usize),
    /// Here an order begins whose number was there.
    Repeated(usize),
    /// Here an order begins past the limit.
    Full(usize),
    /// The bytes begin as the header of version 2 does, and go on otherwise or end.
    Header,
}

impl JournalFault {
    ghost use Rattle.dali_journal.specs.Faults.{number_of};

    /// The fault's number.
    pub fn number(&self) -> u8
        ensures { result ≡ number_of self.now }
    {
        match self {
            JournalFault::Limit => 1,
            JournalFault::NoMemory => 2,
            JournalFault::Record(_) => 3,
            JournalFault::Sequence(_) => 4,
            JournalFault::Repeated(_) => 5,
            JournalFault::Full(_) => 6,
            JournalFault::Header => 7,
        }
    }
}

impl fmt::Display for JournalFault {
    ghost use Rattle.dali_journal.specs.Faults.{name_of};

    ghost output = { λ fault. Some (name_of fault) };

    fn fmt<W: fmt::Write>(&self, f: &mut fmt::Formatter<W>) -> fmt::Result {
        f.write_str(match self {
            JournalFault::Limit => "Limit",
            JournalFault::NoMemory => "NoMemory",
            JournalFault::Record(_) => "Record",
            JournalFault::Sequence(_) => "Sequence",
            JournalFault::Repeated(_) => "Repeated",
            JournalFault::Full(_) => "Full",
            JournalFault::Header => "Header",
        })
    }
}

impl Error for JournalFault {}

/// There was no memory. The journal is as it was.
#[derive(Clone, Copy, Debug, PartialEq, Eq)]
pub struct NoMemory;

impl fmt::Display for NoMemory {
    ghost use Rattle.std.specs.Prelude.{codes};

    ghost output = { λ _. Some (codes "NoMemory") };

    fn fmt<W: fmt::Write>(&self, f: &mut fmt::Formatter<W>) -> fmt::Result {
        f.write_str("NoMemory")
    }
}

impl Error for NoMemory {}

impl From<AllocError> for NoMemory {
    fn from(_: AllocError) -> NoMemory {
        NoMemory
    }
}

impl<T: Drop> From<AllocFailed<T>> for NoMemory {
    fn from(_: AllocFailed<T>) -> NoMemory {
        NoMemory
    }
}
