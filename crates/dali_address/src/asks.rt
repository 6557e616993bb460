// How often a query is asked.
const MOST_ASKS: u8 = 8;

/// Whether a query was answered often enough.
#[derive(Clone, Copy)]
pub(crate) enum Verdict {
    /// It isn't known yet.
    Open,
    Yes,
    No,
}

/// A query that only YES answers, asked several times in a row: so often it was asked, and so often something came.
#[derive(Clone, Copy)]
pub(crate) struct Asks {
    asked: u8,
    answered: u8,
}

impl Asks {
    pub(crate) fn new() -> Asks {
        Asks {
            asked: 0,
            answered: 0,
        }
    }

    /// Asked once more.
    pub(crate) fn after(self, answer: Option<u8>) -> Asks {
        Asks {
            asked: self.asked.saturating_add(1),
            answered: self.answered.saturating_add(u8::from(answer.is_some())),
        }
    }

    /// Whether it was answered so often at least.
    pub(crate) fn verdict(self, needed: u8) -> Verdict {
        if self.answered >= needed {
            Verdict::Yes
        } else if self.asked >= MOST_ASKS {
            Verdict::No
        } else {
            Verdict::Open
        }
    }
}
