use crate::record::Code;
use dali_bank::Order;

/// The state that a journal has kept of the order of a number (profile).
#[derive(Drop)]
pub enum Kept {
    /// No order of this number was begun.
    Absent,
    /// The order was begun and hasn't ended.
    Unfinished(Order),
    /// The order ended so.
    Ended(Order, Code),
}

/// How far an order has come, as the definitions of journals and writers tell it (profile).
#[derive(Clone, Copy, PartialEq, Eq)]
pub enum Progress {
    /// The order was begun.
    Begun,
    /// Its unit was opened.
    Open,
    /// It ended so.
    Ended(Code),
}
