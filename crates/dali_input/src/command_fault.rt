ghost use Rattle.std.specs.Prelude.{◌≡◌, ◌≢◌};
ghost use Rattle.dali_input.specs.CommandFaults.{exit_code, drive_status as status_of_drive};
ghost use Rattle.dali_input.specs.CommandFaults.{input_status as status_of_input, status_of};

use crate::fault::InputFault;
use crate::item::ItemFault;
use dali_gear::GearFault;
use dali_journal::JournalFault;
use dali_trace::{DriveFault, RunFault};
use std::alloc::{AllocError, AllocFailed};
use thiserror::Error;

/// How a command ended.
#[derive(Clone, Copy, PartialEq, Eq)]
pub enum Status {
    /// Done, and nothing was refused.
    Good,
    /// Something was refused, by name.
    Refused,
    /// A file or the memory failed, which was reported.
    Failed,
    /// The output could not be written, so later calls of it wrote nothing more.
    Unwritten,
}

impl Status {
    /// The exit status: 0, 1 or 2.
    pub fn code(&self) -> u8
        ensures { result ≡ exit_code self.now }
    {
        match self {
            Status::Good => 0,
            Status::Refused => 1,
            Status::Failed | Status::Unwritten => 2,
        }
    }
}

/// Why a command gave up on its input.
#[derive(Clone, Copy, Debug, PartialEq, Eq, Error)]
pub enum Fault {
    /// The input as a whole: 11 Json, 12 Document, 13 TooBig, 14 Hex, 20 Memory, 21 File.
    #[error("{0}")]
    Input(InputFault),
    /// The unit of this number of a scenario, counted from 1, can't be made: 1 Address, 2 Size, 3 Fixed.
    #[error("{1}")]
    Unit(u64, GearFault),
    /// 5: two units of a scenario are at one short address.
    #[error("SameAddress")]
    SameAddress,
    /// The order of the event of this number of a scenario, counted from 1, is refused, as an item of orders is.
    #[error("{1}")]
    Order(u64, ItemFault),
    /// The run of a scenario: 1 Limit, 2 NoMemory.
    #[error("{0}")]
    Run(RunFault),
    /// A journal: 2 NoMemory, 7 Header, or with the place of a record 3 Record, 4 Sequence, 5 Repeated, 6 Full.
    #[error("{0}")]
    Journal(JournalFault),
    /// A drive: 1 Journal, 2 Link, 3 Line, 4 End, 5 NoMemory, 6 TooLong, 7 Out.
    #[error("{0}")]
    Drive(DriveFault),
    /// 15: an older journal is none, isn't at rest, or has an order number that another one has.
    #[error("Older")]
    Older,
}

impl Fault {
    /// How the program ends at the fault.
    pub fn status(&self) -> Status
        ensures status { result ≡ status_of self.now }
        ensures unwritten { result ≡ Status.Unwritten → self.now ≡ Fault.Drive DriveFault.Out }
    {
        match self {
            Fault::Input(fault) => input_status(*fault),
            Fault::Run(RunFault::NoMemory) | Fault::Journal(JournalFault::NoMemory) => {
                Status::Failed
            }
            Fault::Unit(_, _)
            | Fault::SameAddress
            | Fault::Order(_, _)
            | Fault::Run(RunFault::Limit)
            | Fault::Journal(_)
            | Fault::Older => Status::Refused,
            Fault::Drive(fault) => drive_status(*fault),
        }
    }
}

// How the program ends at a fault of a drive. If the replies can't be written, nothing can be reported.
fn drive_status(fault: DriveFault) -> Status
    ensures status { result ≡ status_of_drive fault }
    ensures unwritten { result ≡ Status.Unwritten → fault ≡ DriveFault.Out }
{
    match fault {
        DriveFault::Line(_) | DriveFault::End | DriveFault::TooLong => Status::Refused,
        DriveFault::Journal | DriveFault::Link | DriveFault::NoMemory => Status::Failed,
        DriveFault::Out => Status::Unwritten,
    }
}

// How the program ends at a fault of a whole input.
fn input_status(fault: InputFault) -> Status
    ensures status { result ≡ status_of_input fault }
    ensures unwritten { result ≢ Status.Unwritten }
{
    match fault {
        InputFault::Json | InputFault::Document | InputFault::TooBig | InputFault::Hex => {
            Status::Refused
        }
        InputFault::Memory | InputFault::File => Status::Failed,
    }
}

impl From<InputFault> for Fault {
    ghost use Rattle.std.specs.Prelude.{◌≡◌};
    ghost use Rattle.dali_input.specs.declared.command_fault.Fault.TheVariants.{Input};

    ghost from_gives = { λ cause fault. fault ≡ Input cause };

    fn from(cause: InputFault) -> Fault {
        Fault::Input(cause)
    }
}

impl From<AllocError> for Fault {
    ghost use Rattle.std.specs.Prelude.{◌≡◌};
    ghost use Rattle.dali_input.specs.declared.fault.InputFault.TheVariants.{Memory};
    ghost use Rattle.dali_input.specs.declared.command_fault.Fault.TheVariants.{Input};

    ghost from_gives = { λ _ fault. fault ≡ Input Memory };

    fn from(_error: AllocError) -> Fault {
        Fault::Input(InputFault::Memory)
    }
}

impl<T: Drop> From<AllocFailed<T>> for Fault {
    ghost use Rattle.std.specs.Prelude.{◌≡◌};
    ghost use Rattle.dali_input.specs.declared.fault.InputFault.TheVariants.{Memory};
    ghost use Rattle.dali_input.specs.declared.command_fault.Fault.TheVariants.{Input};

    ghost from_gives = { λ _ fault. fault ≡ Input Memory };

    fn from(_failed: AllocFailed<T>) -> Fault {
        Fault::Input(InputFault::Memory)
    }
}

impl From<RunFault> for Fault {
    ghost use Rattle.std.specs.Prelude.{◌≡◌};
    ghost use Rattle.dali_input.specs.declared.command_fault.Fault.TheVariants.{Run};

    ghost from_gives = { λ cause fault. fault ≡ Run cause };

    fn from(cause: RunFault) -> Fault {
        Fault::Run(cause)
    }
}
