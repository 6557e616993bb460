use crate::call::Call;

/// The task of a run.
#[derive(Clone, Copy, PartialEq, Eq)]
pub enum Task {
    /// Each unit without a short address gets one.
    Give,
    /// All short addresses are taken away first, and then given anew.
    All,
    /// None is given: the units that have one are reported.
    List,
    /// None is given and none is reported: units are brought out of the initialisation state.
    Close,
}

/// A random address: its high, middle and low byte.
#[derive(Clone, Copy, PartialEq, Eq)]
pub struct Random {
    pub high: u8,
    pub middle: u8,
    pub low: u8,
}

/// The lines that a run reports, in order.
#[derive(Clone, Copy, PartialEq, Eq)]
pub enum Line {
    /// A unit at this short address told this random address, twice.
    Unit { short: u8, random: Random },
    /// Somebody is at this short address, and no random address could be read there.
    Shared(u8),
}

/// How a run ended.
#[derive(Clone, Copy, PartialEq, Eq)]
pub struct Summary {
    /// How many units told the short address that they were given.
    pub given: u8,
    /// 1 if some unit has none, 0 otherwise: units without one can't be counted.
    pub missing: u8,
    /// How many short addresses were reported as shared.
    pub shared: u8,
    /// Whether units may still be in the initialisation state.
    pub open: bool,
}

/// The want of a run.
#[derive(Clone, Copy, PartialEq, Eq)]
pub enum Want {
    /// This frame is to be sent.
    Send(Call),
    /// This line is to be reported.
    Tell(Line),
    /// Nothing: it ended so.
    Ended(Summary),
    /// Nothing: this address was asked for, and a unit has it. Only queries were sent.
    Taken(u8),
}
