ghost use Rattle.std.specs.Prelude.{◌≡◌};
ghost use Rattle.dali_job.specs.LinkOptions.{asked_of, command_name, gives_none as none_given, pace_by, required_by};
ghost use Rattle.dali_job.specs.LinkOptions.{sought_by};

use dali_address::Task;
use dali_drive::Sought;
use dali_write::Pace;

/// A command over a link (profile).
#[derive(Drop)]
pub enum LinkCommand<'a> {
    /// `drive`, over orders and a journal.
    Drive(DriveTask<'a>),
    /// `read`, of the unit at a short address into a file.
    Read {
        unit: u8,
        bank: &'a str,
    },
    /// `verify`, over orders. `report` is the file, if one is wanted, that gets a line for each order with what was
    /// found.
    Verify {
        orders: &'a str,
        report: Option<&'a str>,
    },
    /// `scan`, of the units at these short addresses, or at all if none is named.
    Scan {
        addresses: Vec<u8>,
        sought: Sought,
    },
    /// `address`.
    Address(AddressCommand<'a>),
}

impl LinkCommand<'_> {
    /// Its name on the command line.
    pub(crate) fn name(&self) -> &'static str
        ensures { result.now ≡ command_name self.now }
    {
        match self {
            LinkCommand::Drive(_) => "drive",
            LinkCommand::Read { .. } => "read",
            LinkCommand::Verify { .. } => "verify",
            LinkCommand::Scan { .. } => "scan",
            LinkCommand::Address(_) => "address",
        }
    }
}

/// The orders to drive, and how.
#[derive(Drop)]
pub struct DriveTask<'a> {
    /// The name of the orders for a person: ORDERS.
    pub orders: &'a str,
    /// And the journal: JOURNAL.
    pub journal: &'a str,
    /// The older journals, whose orders get their kept replies, in the order in which they were given.
    pub older: Vec<&'a str>,
    /// The moment that is kept with each order that begins.
    pub moment: u64,
    /// The plan of its sessions.
    pub pace: Pace,
    /// The requirement on the last replies.
    pub required: Required,
    /// Whether the journal has to be there: none is made then.
    pub require_journal: bool,
    /// Whether the orders come line by line, each carried out before the next is read.
    pub follow: bool,
    /// The file, if one is wanted, that gets a line for each order at its last reply.
    pub report: Option<&'a str>,
}

/// The last replies that a drive needs to end well.
#[derive(Clone, Copy)]
pub enum Required {
    /// Anything.
    Nothing,
    /// Each is `kept 0 Done`, and there is one.
    Done,
    /// And this drive ended each order.
    DoneNow,
}

impl Required {
    /// By the two options, of which the second is the stricter one.
    pub fn of(done: bool, now: bool) -> Required
        ensures { result ≡ required_by done now }
    {
        if now {
            Required::DoneNow
        } else if done {
            Required::Done
        } else {
            Required::Nothing
        }
    }
}

/// `address`, over a link (profile).
#[derive(Drop)]
pub struct AddressCommand<'a> {
    /// Its task.
    pub asked: Asked,
    /// Those that are given, in their order; if none is named, the lowest that are free.
    pub units: Vec<u8>,
    /// The journal, if one is named, that has to be idle.
    pub journal: Option<&'a str>,
}

/// The task of `address`.
#[derive(Clone, Copy)]
pub enum Asked {
    /// To give short addresses, to give them anew, or to list them.
    Run(Task),
    /// To count units.
    Count,
}

impl Asked {
    /// By its flags: none if several are given.
    pub(crate) fn by(all: bool, list: bool, count: bool) -> Option<Asked>
        ensures { result ≡ asked_of all list count }
    {
        match (all, list, count) {
            (false, false, false) => Some(Asked::Run(Task::Give)),
            (true, false, false) => Some(Asked::Run(Task::All)),
            (false, true, false) => Some(Asked::Run(Task::List)),
            (false, false, true) => Some(Asked::Count),
            _ => None,
        }
    }

    /// Whether no short address is given: it tells of all units.
    pub(crate) fn gives_none(self) -> bool
        ensures { result ≡ none_given self }
    {
        matches!(self, Asked::Run(Task::List) | Asked::Count)
    }
}

/// The plan that is asked for: the short one, or else the checked one.
pub(crate) fn pace_of(short_plan: bool) -> Pace
    ensures { result ≡ pace_by short_plan }
{
    if short_plan {
        Pace::Short
    } else {
        Pace::Checked
    }
}

/// The locations that a scan reads: those of the GTIN and the identification number too, or else the last one alone.
pub(crate) fn sought_of(with_gtin: bool) -> Sought
    ensures { result ≡ sought_by with_gtin }
{
    if with_gtin {
        Sought::Identity
    } else {
        Sought::Last
    }
}
