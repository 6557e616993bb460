ghost use Rattle.std.specs.Prelude.{◌≡◌, ◌↔◌, IsTrue};
ghost use Rattle.dali_journal.specs.Sentence.{Allows, next_standing, HasShortUnit};
ghost use Rattle.dali_journal.specs.JournalState.{bytes_due};

use crate::record::{Code, Record};
use dali_bank::Order;

/// The work that a journal's last records leave to be done (profile).
#[derive(Drop)]
pub enum Standing {
    /// Nothing: the next order may begin.
    Idle,
    /// The order was begun, and its unit isn't opened yet.
    Began(Order),
    /// The order's unit was opened.
    Opened(Order),
    /// The order ended, and its unit may still be write-enabled: it has to be closed.
    Left(u8),
}

impl Standing {
    /// The same standing again.
    pub fn copy(&self) -> Standing
        ensures { result ≡ self.now }
    {
        match self {
            Standing::Idle => Standing::Idle,
            Standing::Began(order) => Standing::Began(order.copy()),
            Standing::Opened(order) => Standing::Opened(order.copy()),
            Standing::Left(unit) => Standing::Left(*unit),
        }
    }

    /// Whether the standing allows the record next, as `Journal::append` requires.
    pub fn allows(&self, entry: &Record) -> bool
        ensures { IsTrue result ↔ Allows self.now entry.now }
    {
        match (self, entry) {
            (Standing::Idle, Record::Began(_, _)) => true,
            (Standing::Began(order), Record::Opened(unit)) => *unit == order.unit(),
            (Standing::Began(_), Record::Ended(Code::Short | Code::Format | Code::Silent)) => true,
            (Standing::Opened(_), Record::Ended(Code::Done | Code::Doubt | Code::DoubtOpen)) => {
                true
            }
            (Standing::Left(left), Record::Closed(unit)) => *unit == *left,
            _ => false,
        }
    }

    // The standing after a record that may come.
    pub(crate) fn after(self, entry: &Record) -> Standing
        ensures value { result ≡ next_standing self entry.now }
        ensures short { HasShortUnit result }
    {
        match (self, entry) {
            (_, Record::Began(order, _)) => Standing::Began(order.copy()),
            (Standing::Began(order), Record::Opened(_)) => Standing::Opened(order),
            (Standing::Opened(order), Record::Ended(Code::DoubtOpen)) => Standing::Left(
                order.unit(),
            ),
            (_, Record::Opened(_) | Record::Ended(_) | Record::Closed(_)) => Standing::Idle,
        }
    }

    // How many bytes may come before the journal is idle again.
    pub(crate) fn bytes_due(&self) -> usize
        ensures { result ≡ bytes_due self.now }
    {
        match self {
            Standing::Idle => 0,
            Standing::Left(_) => 2,
            Standing::Opened(_) => 4,
            Standing::Began(_) => 6,
        }
    }
}
