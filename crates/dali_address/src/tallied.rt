ghost use Rattle.std.specs.Prelude.{◌≡◌, ◌<◌, List, IsTrue, ◌↔◌};
ghost use Rattle.dali_address.specs.Units.{number_of};
ghost use Rattle.dali_address.specs.Steps.{Exchange};
ghost use Rattle.dali_address.specs.Tallying.{Tally, IsCensus, sought};
ghost use Rattle.dali_address.specs.Places.{three_of};
ghost use Rattle.dali_address.specs.Standing.{MayTally, Stands, Leaves, IsNewest, IsInOrder, Follows};
ghost use Rattle.dali_address.specs.declared.call.Call.{Call};

use crate::call::Call;
use crate::sharing::{Marks, short_told};
use crate::stage::Found;

/// The state that a census keeps of its exchanges.
#[derive(Drop)]
pub(crate) struct Tallied {
    /// The search address that was put.
    pub(crate) search: Found,
    /// The answer if the newest frame was QUERY SHORT ADDRESS.
    pub(crate) asked: Option<u8>,
    /// How many such frames told no short address since a unit was counted.
    pub(crate) unanswered: u8,
    /// The random address of the unit that was counted last.
    pub(crate) newest: Option<Found>,
    pub(crate) marks: Marks,
}

impl Tallied {
    /// Whether a unit told its short address, or that it has none.
    pub(crate) fn is_told(&self) -> bool {
        match self.asked {
            Some(byte) => byte == 0xFF || short_told(byte).is_some(),
            None => false,
        }
    }

    /// Whether a unit that told its short address may be withdrawn: units are counted in rising order of their random
    /// addresses, and the one that was counted last may not have heard that it is withdrawn.
    pub(crate) fn is_in_turn(&self) -> bool
        ensures { IsTrue result → MayTally self.now Call.Withdraw }
    {
        self.asked.is_some() && self.is_at_or_above_newest()
    }

    /// One more frame, and what came back.
    pub(crate) fn hear(&mut self, call: Call, answer: Option<u8>)
        requires { MayTally self.old call }
        ensures { (told : List Exchange) (tally : Tally) → IsCensus told tally → Stands self.old tally
            → Follows told call answer self.new }
    {
        match call {
            Call::Withdraw => self.leave(),
            Call::AskShort => {
                self.asked = answer;
                if !self.is_told() {
                    self.unanswered = self.unanswered.saturating_add(1);
                }
            }
            _ => {
                self.search = put(self.search, call);
                self.asked = None;
            }
        }
    }

    // A unit that told its short address was withdrawn. It is counted, but if it was counted last.
    fn leave(&mut self)
        requires { MayTally self.old Call.Withdraw }
        ensures { Leaves self.old self.new }
    {
        if let Some(byte) = self.asked {
            if !self.is_newest() {
                self.marks.mark(byte);
                self.newest = Some(self.search);
                self.unanswered = 0;
            }
        }
        self.asked = None;
    }

    fn is_newest(&self) -> bool
        ensures { IsTrue result ↔ IsNewest self.now.newest (three_of self.now.search) }
    {
        match self.newest {
            Some(newest) => newest.number() == self.search.number(),
            None => false,
        }
    }

    fn is_at_or_above_newest(&self) -> bool
        ensures { IsTrue result ↔ IsInOrder self.now.newest (three_of self.now.search) }
    {
        match self.newest {
            Some(newest) => newest.number() <= self.search.number(),
            None => true,
        }
    }
}

impl Found {
    fn number(self) -> u32
        ensures { result ≡ number_of (three_of self) }
    {
        65536 * u32::from(self.high) + 256 * u32::from(self.middle) + u32::from(self.low)
    }
}

// The search address after a frame.
fn put(search: Found, call: Call) -> Found
    ensures { three_of result ≡ sought (three_of search) call }
{
    match call {
        Call::SearchHigh(high) => Found { high, ..search },
        Call::SearchMiddle(middle) => Found { middle, ..search },
        Call::SearchLow(low) => Found { low, ..search },
        _ => search,
    }
}
