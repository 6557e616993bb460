ghost use Rattle.std.specs.Prelude.{◌≡◌, ◌∷◌, ℕ, List, Option};
ghost use Rattle.dali_address.specs.Rights.{LeavesSearch};
ghost use Rattle.dali_address.specs.declared.call.Call.{Call};
ghost use Rattle.dali_address.specs.Steps.{Exchange};
ghost use Rattle.dali_address.specs.Searching.{HasSearch};

use crate::call::Call;
use crate::stage::Found;

/// Which bytes of a search address were put, one right after the other.
#[derive(Clone, Copy)]
pub(crate) enum Search {
    Nothing,
    /// The high byte.
    High(u8),
    /// The high and the middle byte.
    Middle(u8, u8),
    /// All three, and none since.
    Whole(Found),
}

impl Search {
    /// After one more frame.
    pub(crate) fn after(self, call: &Call) -> Search
        ensures { (told : List Exchange) (answer : Option ℕ) → HasSearch self told
            → HasSearch result (record { call = call.now; answer = answer } ∷ told) }
    {
        match *call {
            Call::SearchHigh(high) => Search::High(high),
            Call::SearchMiddle(middle) => self.with_middle(middle),
            Call::SearchLow(low) => self.with_low(low),
            _ => self.kept(),
        }
    }

    fn with_middle(self, middle: u8) -> Search
        ensures { (told : List Exchange) (answer : Option ℕ) → HasSearch self told
            → HasSearch result (record { call = Call.SearchMiddle middle; answer = answer } ∷ told) }
    {
        match self {
            Search::High(high) => Search::Middle(high, middle),
            _ => Search::Nothing,
        }
    }

    fn with_low(self, low: u8) -> Search
        ensures { (told : List Exchange) (answer : Option ℕ) → HasSearch self told
            → HasSearch result (record { call = Call.SearchLow low; answer = answer } ∷ told) }
    {
        match self {
            Search::Middle(high, middle) => Search::Whole(Found { high, middle, low }),
            _ => Search::Nothing,
        }
    }

    // After a frame that puts none.
    fn kept(self) -> Search
        ensures { (told : List Exchange) (exchange : Exchange) → LeavesSearch exchange.call → HasSearch self told
            → HasSearch result (exchange ∷ told) }
    {
        match self {
            Search::Whole(found) => Search::Whole(found),
            _ => Search::Nothing,
        }
    }
}
