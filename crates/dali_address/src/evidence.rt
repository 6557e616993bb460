ghost use Rattle.std.specs.Prelude.{◌≡◌, ◌≢◌, ◌∷◌, ◌<◌, ℕ, [], List, Some, IsTrue, IfSome, false};
ghost use Rattle.std.specs.List.{slice_index_or};
ghost use Rattle.dali_address.specs.Calls.{short_byte};
ghost use Rattle.dali_address.specs.Steps.{Exchange};
ghost use Rattle.dali_address.specs.Rights.{MayGive, MayTake, IsSought, IsTerminated, IsClosed};
ghost use Rattle.dali_address.specs.Rights.{IsReadBack, IsTaken, WasPresent};
ghost use Rattle.dali_address.specs.Places.{three_of, three_of_random};
ghost use Rattle.dali_address.specs.Census.{highest};
ghost use Rattle.dali_address.specs.Evidences.{Stands, HasAsked, HasTold, HasPresent};
ghost use Rattle.dali_address.specs.declared.call.Call.{Call};

use crate::call::Call;
use crate::ending::Ending;
use crate::reading::{Named, Reading};
use crate::search::Search;
use crate::stage::Found;
use crate::task::Random;
use crate::vacancy::Vacancy;

/// Which short addresses units told that they have, by the byte that tells it, since one was taken away.
#[derive(Drop)]
pub(crate) struct Told {
    bytes: [bool; 256],
}

impl Told {
    fn none() -> Told
        ensures { HasTold result [] }
    {
        Told {
            bytes: [false; 256],
        }
    }

    fn hear(&mut self, call: &Call, answer: Option<u8>)
        ensures { (told : List Exchange) → HasTold self.old told
            → HasTold self.new (record { call = call.now; answer = answer } ∷ told) }
    {
        match *call {
            Call::Remove => self.bytes = [false; 256],
            Call::AskShort => self.answered(answer),
            _ => {}
        }
    }

    fn answered(&mut self, answer: Option<u8>)
        ensures { (told : List Exchange) → HasTold self.old told
            → HasTold self.new (record { call = Call.AskShort; answer = answer } ∷ told) }
    {
        if let Some(byte) = answer {
            self.bytes[usize::from(byte)] = true;
        }
    }
}

/// The state that a run keeps of its exchanges. On it rests each frame that gives or takes a short address, each line
/// and the end.
#[derive(Drop)]
pub(crate) struct Evidence {
    pub(crate) search: Search,
    /// The answer, if QUERY SHORT ADDRESS went last.
    pub(crate) asked: Option<u8>,
    pub(crate) vacancy: Vacancy,
    pub(crate) place: Option<u8>,
    pub(crate) told: Told,
    pub(crate) ending: Ending,
    pub(crate) reading: Reading,
    pub(crate) earlier: Option<Named>,
    /// The short address at which a unit last answered.
    pub(crate) present: Option<u8>,
    /// Whether nothing but this was asked.
    pub(crate) is_asking: bool,
}

impl Evidence {
    /// No exchange yet.
    pub(crate) fn new() -> Evidence
        ensures { Stands result [] }
    {
        Evidence {
            search: Search::Nothing,
            asked: None,
            vacancy: Vacancy::Unknown,
            place: None,
            told: Told::none(),
            ending: Ending::Nothing,
            reading: Reading::Nothing,
            earlier: None,
            present: None,
            is_asking: true,
        }
    }

    /// One more frame, and what came back.
    pub(crate) fn hear(&mut self, call: &Call, answer: Option<u8>)
        ensures { (told : List Exchange) → Stands self.old told
            → Stands self.new (record { call = call.now; answer = answer } ∷ told) }
    {
        self.search = self.search.after(call);
        self.asked = asked(call, answer);
        self.place = self.vacancy.place(self.place, call);
        self.vacancy = self.vacancy.after(call, answer);
        self.told.hear(call, answer);
        self.ending = self.ending.after(call, answer);
        self.earlier = self.reading.earlier(self.earlier);
        self.reading = self.reading.after(call, answer);
        self.present = present(self.present, call, answer);
        self.is_asking = self.is_asking && matches!(call, Call::AskPresent(_));
    }

    /// Whether the short address may be given to the unit that is searched for.
    pub(crate) fn may_give(&self, short: u8) -> bool
        ensures { (told : List Exchange) → short < 64 → Stands self.now told → IsTrue result → MayGive short told }
    {
        match self.drawn() {
            Some(_) => self.told_just_now(0xFF) && self.keeps_free(short) && self.is_untold(short),
            None => false,
        }
    }

    /// Whether the unit that is searched for may lose its short address, which is this one.
    pub(crate) fn may_take(&self, short: u8) -> bool
        ensures { (told : List Exchange) → short < 64 → Stands self.now told → IsTrue result → MayTake told }
    {
        match self.drawn() {
            Some(_) => self.told_just_now(byte_of(short)),
            None => false,
        }
    }

    // The search address that was put whole, if units draw it.
    fn drawn(&self) -> Option<Found>
        ensures { (told : List Exchange) → Stands self.now told → IfSome result (λ found.
            IsSought (three_of found) told × (three_of found ≢ highest)) }
    {
        match self.search {
            Search::Whole(found) if !found.is_undrawn() => Some(found),
            _ => None,
        }
    }

    // Whether QUERY SHORT ADDRESS went last, and this came back.
    fn told_just_now(&self, byte: u8) -> bool
        ensures { IsTrue result → self.now.asked ≡ Some byte }
    {
        match self.asked {
            Some(answer) => answer == byte,
            None => false,
        }
    }

    // Whether the short address was free at the search address at hand.
    fn keeps_free(&self, short: u8) -> bool
        ensures { IsTrue result → self.now.place ≡ Some short }
    {
        match self.place {
            Some(place) => place == short,
            None => false,
        }
    }

    // Whether no unit told that it has the short address, since one was taken away.
    fn is_untold(&self, short: u8) -> bool
        ensures { short < 64 → IsTrue result → slice_index_or self.now.told.bytes (short_byte short) false ≡ false }
    {
        !self.told.bytes[usize::from(byte_of(short))]
    }

    /// Whether TERMINATE went last, twice.
    pub(crate) fn has_terminated(&self) -> bool
        ensures { (told : List Exchange) → Stands self.now told → IsTrue result → IsTerminated told }
    {
        matches!(&self.ending, Ending::Twice)
    }

    /// Whether no unit is left in the initialisation state, as far as that can be known.
    pub(crate) fn is_closed(&self) -> bool
        ensures { (told : List Exchange) → Stands self.now told → IsTrue result → IsClosed told }
    {
        match (self.ending, self.search) {
            (Ending::Checked, Search::Whole(found)) => found.is_undrawn(),
            _ => false,
        }
    }

    /// The random address that was read at the short address last, and earlier too.
    pub(crate) fn read_back(&self, short: u8) -> Option<Random>
        ensures { (told : List Exchange) → Stands self.now told → IfSome result (λ random.
            IsReadBack short (three_of_random random) told) }
    {
        match (self.reading, self.earlier) {
            (Reading::Whole(named), Some(earlier)) if named == earlier && named.short == short =>
                Some(named.random),
            _ => None,
        }
    }

    /// The short address at which a unit answered, if nothing else was asked.
    pub(crate) fn taken(&self) -> Option<u8>
        ensures { (told : List Exchange) (short : ℕ) → Stands self.now told → result ≡ Some short
            → IsTaken short told }
    {
        if self.is_asking { self.present } else { None }
    }

    /// Whether a unit answered at the short address, and none at another one later.
    pub(crate) fn is_present(&self, short: u8) -> bool
        ensures { (told : List Exchange) → Stands self.now told → IsTrue result → WasPresent short told }
    {
        match self.present {
            Some(present) => present == short,
            None => false,
        }
    }
}

// The byte that tells a short address, 0 to 63.
pub(crate) fn byte_of(short: u8) -> u8
    ensures { short < 64 → result ≡ short_byte short }
{
    short.saturating_mul(2).saturating_add(1)
}

// The answer, if the frame is QUERY SHORT ADDRESS.
fn asked(call: &Call, answer: Option<u8>) -> Option<u8>
    ensures { (told : List Exchange) → HasAsked result (record { call = call.now; answer = answer } ∷ told) }
{
    match *call {
        Call::AskShort => answer,
        _ => None,
    }
}

// The short address at which a unit last answered.
fn present(present: Option<u8>, call: &Call, answer: Option<u8>) -> Option<u8>
    ensures { (told : List Exchange) → HasPresent present told
        → HasPresent result (record { call = call.now; answer = answer } ∷ told) }
{
    match *call {
        Call::AskPresent(short) if answer.is_some() => Some(short),
        _ => present,
    }
}
