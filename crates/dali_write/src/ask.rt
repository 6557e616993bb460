use dali_frame::Frame;

/// How a session ended (profile).
#[derive(Clone, Copy, PartialEq, Eq)]
pub enum Verdict {
    /// A fresh session: the unit's bank 1 is long enough for the order, and has the content format 0003h if the order
    /// needs it.
    MayOpen,
    /// An opened session: each update was read back, the lock byte is FFh, and the unit isn't
    /// write-enabled.
    Done,
    /// A fresh session: the unit's bank 1 is too short for the order.
    Short,
    /// A fresh session: the content format isn't 0003h.
    Format,
    /// A fresh or reading session: an access failed.
    Silent,
    /// An opened session: each location of the order holds its old byte or the new one, and the unit
    /// isn't write-enabled.
    Doubt,
    /// An opened session: as `Doubt`, but the unit may still be write-enabled.
    DoubtOpen,
    /// A closing session: the unit isn't write-enabled.
    Closed,
    /// A closing session: the unit may still be write-enabled.
    NotClosed,
    /// A reading session: bank 1 was read.
    Read,
}

/// Why a session came to no good end (profile): its first access that failed and wasn't read again in smaller rows, or
/// that read another byte back.
#[derive(Clone, Copy, PartialEq, Eq)]
pub enum Cause {
    /// Each try of a read missed: of the location, or of the row of locations that begins there.
    Unread(u8),
    /// Each try of the write to the location missed.
    Unwritten(u8),
    /// At the location another byte was read back than the one that was written.
    Another(u8, u8),
}

/// The frame that a session wants, or its end (profile).
#[derive(Clone, Copy, PartialEq, Eq)]
pub enum Ask {
    /// This frame is to be sent.
    Send(Frame),
    /// Nothing: it ended so.
    Ended(Verdict),
}
