/// By which plan an order is carried out (profile). Both ask DTR1 and DTR0 back before each write, and read back all
/// that was written.
#[derive(Clone, Copy, PartialEq, Eq)]
pub enum Pace {
    /// Each write enables its unit by two frames, and each location is read by itself.
    Checked,
    /// The short plan: only the first write of a session, the one that closes a unit, and tries after a miss enable the
    /// unit and set both registers. Any other write sets DTR0 alone, and to the location just after the one before
    /// neither. The content format is read as one block, and the bytes written in rows of at most 16 neighbours. A row
    /// of more than three that fails, or tells other bytes, is read again in rows of at most two.
    Short,
}
