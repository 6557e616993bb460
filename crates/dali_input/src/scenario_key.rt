//! The keys of the objects of a scenario (profile): one name for each, for reading it and for notes on what is wrong
//! there.

/// Of a scenario: the most orders of the journal.
pub const LIMIT: &str = "limit";
/// Of a scenario: the plan of the sessions.
pub const PLAN: &str = "plan";
/// Of a scenario: the units.
pub const UNITS: &str = "units";
/// Of a scenario: the fates of frames.
pub const FATES: &str = "fates";
/// Of a scenario: the events.
pub const EVENTS: &str = "events";

/// Of a plan: each write is enabled by itself, and each byte is read back by itself.
pub const CHECKED: &str = "checked";
/// Of a plan: a unit stays enabled, and bytes are read back in rows.
pub const SHORT: &str = "short";

/// Of a unit: its short address.
pub const ADDRESS: &str = "address";
/// Of a unit: the bytes of its memory bank 1.
pub const BANK: &str = "bank";
/// Of a unit: the locations that can't be written.
pub const FIXED: &str = "fixed";
/// Of a unit: DTR0, DTR1 and DTR2.
pub const DTR: &str = "dtr";

/// Of a fate: how many frames in a row have it.
pub const TIMES: &str = "times";
/// Of a fate: the units that don't hear a frame.
pub const LOST: &str = "lost";
/// Of a fate: whether the answer is lost.
pub const ANSWER_LOST: &str = "answer_lost";
/// Of a fate: whether a unit refuses to write.
pub const REFUSE: &str = "refuse";

/// Of an event: the order that is submitted.
pub const SUBMIT: &str = "submit";
/// Of an event, beside an order: the moment at which it is submitted.
pub const MOMENT: &str = "moment";
/// Of an event: how many steps are made.
pub const STEPS: &str = "steps";
/// Of an event: how many bytes of a record reach the journal before the program stops.
pub const STOP: &str = "stop";
/// Of an event: the unit that loses its power.
pub const POWER: &str = "power";
