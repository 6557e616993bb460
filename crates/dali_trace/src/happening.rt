use crate::decimal::decimal_of;
use arrayvec::ArrayString;
use dali_bank::Order;
use dali_frame::Frame;
use dali_journal::{Code, Record};
use dali_write::Pace;
use std::fmt;

/// The answer to an order, given at once, or what is said of an order that was taken (profile).
///
/// At once the first of `Kept`, `IdReused`, `Busy`, `Full` and `Taken` is given that applies: the one
/// with the lowest number. `Kept` and `Blocked` are also said later, of an order that was taken.
#[derive(Clone, Copy, PartialEq, Eq)]
pub enum Reply {
    /// 5: the order will be carried out.
    Taken,
    /// 1: the journal has this same order, and it ended so.
    Kept(Code),
    /// 2: the journal has an order of this number for another unit or with other updates.
    IdReused,
    /// 3: an order is at work, waits, or has ended and that isn't said yet.
    Busy,
    /// 4: the journal holds as many orders as it may.
    Full,
    /// 6: the order isn't carried out, since a unit that an order before it left open couldn't be
    /// closed: that unit's short address, 0 to 63.
    Blocked(u8),
}

/// The words of a reply.
pub type ReplyText = ArrayString<40>;

impl Reply {
    ghost use Rattle.std.specs.Prelude.{◌≡◌};
    ghost use Rattle.dali_trace.specs.Replies.{reply_number, reply_text};

    /// The reply's number, 1 to 6.
    pub fn number(&self) -> u8
        ensures { result ≡ reply_number self.now }
    {
        match self {
            Reply::Kept(_) => 1,
            Reply::IdReused => 2,
            Reply::Busy => 3,
            Reply::Full => 4,
            Reply::Taken => 5,
            Reply::Blocked(_) => 6,
        }
    }

    /// The reply's words, as every line tells it: `taken`, `kept 0 Done`, `blocked 5` (profile).
    pub fn text(&self) -> ReplyText
        ensures { result.bytes ≡ reply_text self.now }
    {
        let mut text = ReplyText::new();
        match self {
            Reply::Taken => text.push_str("taken"),
            Reply::Kept(code) => {
                text.push_str("kept ");
                text.push_str(decimal_of(u64::from(code.number())).as_str());
                text.push_str(" ");
                text.push_str(code.name());
            }
            Reply::IdReused => text.push_str("reused"),
            Reply::Busy => text.push_str("busy"),
            Reply::Full => text.push_str("full"),
            Reply::Blocked(unit) => {
                text.push_str("blocked ");
                text.push_str(decimal_of(u64::from(*unit)).as_str());
            }
        }
        text
    }
}

impl fmt::Display for Reply {
    ghost use Rattle.std.specs.Prelude.{Some};
    ghost use Rattle.dali_trace.specs.Replies.{reply_text};

    ghost output = { λ reply. Some (reply_text reply) };

    fn fmt<W: fmt::Write>(&self, f: &mut fmt::Formatter<W>) -> fmt::Result {
        f.write_str(self.text().as_str())
    }
}

/// A happening (profile). A trace is a list of happenings.
#[derive(Drop)]
pub enum Happening {
    /// The order was submitted, at this moment: a number that the caller hands in.
    Asked(Order, u64),
    /// The order of this number was answered so.
    Answered(u64, Reply),
    /// The frame was sent, and this answer came back or none.
    Sent(Frame, Option<u8>),
    /// The record was kept in the journal.
    Kept(Record),
    /// The program was stopped, and began anew from its journal, by this plan.
    Stopped(Pace),
    /// The unit at this address lost its power and got it back. If there is none, as over 63, nothing changed.
    Powered(u8),
}

/// An event of a run: something to be done (profile).
#[derive(Drop)]
pub enum Event {
    /// Submit the order at this moment, and reply to it.
    Submit(Order, u64),
    /// Do the next thing that is to be done: keep one record, send one frame, or say how an order ended. If nothing is
    /// at work nothing is done.
    Step,
    /// Stop the program: of the record that is to be kept next, if there is one, the first bytes, this many at most,
    /// reach the journal. It goes on from the journal that is loaded from these bytes.
    Stop(u16),
    /// The unit at this address loses its power and gets it back. The program doesn't notice.
    Power(u8),
}

/// The next thing that a writer wants done (profile).
#[derive(Drop)]
pub enum Want {
    /// Nothing.
    Idle,
    /// Keep this record in the journal.
    Keep(Record),
    /// Send this frame, and tell the answer.
    Send(Frame),
    /// Say this of the order of this number.
    Say(u64, Reply),
}
