ghost use Rattle.std.specs.Prelude.{◌≡◌};

use dali_frame::LineFault;
use dali_journal::NoMemory;
use std::alloc::AllocError;
use std::error::Error;
use std::fmt;

/// Why a run didn't come to its end (profile).
#[derive(Clone, Copy, Debug, PartialEq, Eq)]
pub enum RunFault {
    /// The limit is 0 or over 100000. Nothing was done.
    Limit = 1,
    /// There was no memory. The bus is as the events so far left it.
    NoMemory = 2,
}

impl RunFault {
    ghost use Rattle.dali_trace.specs.Faults.{run_number};

    /// The fault's number.
    pub fn number(&self) -> u8
        ensures { result ≡ run_number self.now }
    {
        *self as u8
    }
}

impl fmt::Display for RunFault {
    ghost use Rattle.std.specs.Prelude.{Some};
    ghost use Rattle.dali_trace.specs.Faults.{run_name};

    ghost output = { λ fault. Some (run_name fault) };

    fn fmt<W: fmt::Write>(&self, f: &mut fmt::Formatter<W>) -> fmt::Result {
        f.write_str(match self {
            RunFault::Limit => "Limit",
            RunFault::NoMemory => "NoMemory",
        })
    }
}

impl Error for RunFault {}

impl From<NoMemory> for RunFault {
    ghost use Rattle.dali_trace.specs.declared.fault.RunFault.TheVariants as faults;

    ghost from_gives = { λ _ fault. fault ≡ faults.NoMemory };

    fn from(_fault: NoMemory) -> RunFault {
        RunFault::NoMemory
    }
}

impl From<AllocError> for RunFault {
    ghost use Rattle.dali_trace.specs.declared.fault.RunFault.TheVariants as faults;

    ghost from_gives = { λ _ fault. fault ≡ faults.NoMemory };

    fn from(_fault: AllocError) -> RunFault {
        RunFault::NoMemory
    }
}

/// Why a drive didn't come to its end (profile). A new writer goes on, from the journal that is loaded from the
/// records' bytes.
#[derive(Clone, Copy, Debug, PartialEq, Eq)]
pub enum DriveFault {
    /// 1: the sink of the journal failed.
    Journal,
    /// 2: a stream of the link failed, the one to it or the one from it.
    Link,
    /// 3: a line of the link is no answer.
    Line(LineFault),
    /// 4: the link ended inside an answer's line, or before it.
    End,
    /// 5: there was no memory for an order's records.
    NoMemory,
    /// 6: a line of the link has more than eight bytes before its line feed.
    TooLong,
    /// 7: the sink of the replies failed.
    Out,
}

impl DriveFault {
    ghost use Rattle.dali_trace.specs.Faults.{drive_number};

    /// The fault's number, 1 to 7.
    pub fn number(&self) -> u8
        ensures { result ≡ drive_number self.now }
    {
        match self {
            DriveFault::Journal => 1,
            DriveFault::Link => 2,
            DriveFault::Line(_) => 3,
            DriveFault::End => 4,
            DriveFault::NoMemory => 5,
            DriveFault::TooLong => 6,
            DriveFault::Out => 7,
        }
    }
}

impl fmt::Display for DriveFault {
    ghost use Rattle.std.specs.Prelude.{Some};
    ghost use Rattle.dali_trace.specs.Faults.{drive_name};

    ghost output = { λ fault. Some (drive_name fault) };

    fn fmt<W: fmt::Write>(&self, f: &mut fmt::Formatter<W>) -> fmt::Result {
        f.write_str(match self {
            DriveFault::Journal => "Journal",
            DriveFault::Link => "Link",
            DriveFault::Line(_) => "Line",
            DriveFault::End => "End",
            DriveFault::NoMemory => "NoMemory",
            DriveFault::TooLong => "TooLong",
            DriveFault::Out => "Out",
        })
    }
}

impl Error for DriveFault {}
