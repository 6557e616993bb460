ghost use Rattle.std.specs.Prelude.{◌≡◌, ◌∷◌, ℕ, List, Option, None, Some};
ghost use Rattle.dali_address.specs.Rights.{IsIdle};
ghost use Rattle.dali_address.specs.Steps.{Exchange};
ghost use Rattle.dali_address.specs.Vacancies.{HasVacancy, HasPlace};
ghost use Rattle.dali_address.specs.declared.call.Call.{Call};
ghost use Rattle.dali_address.specs.declared.vacancy.Vacancy.{Vacancy};

use crate::call::Call;

/// How often it must stay silent at a short address before it is given (profile).
pub(crate) const SILENT_ASKS: u8 = 8;

/// The knowledge of a free short address.
#[derive(Clone, Copy)]
pub(crate) enum Vacancy {
    Unknown,
    /// At this address it stayed silent so often, in a row, just before.
    Silent(u8, u8),
    /// At this address it stayed silent often enough, and since then none was given.
    Free(u8),
}

impl Vacancy {
    /// After one more frame, and what came back.
    pub(crate) fn after(self, call: &Call, answer: Option<u8>) -> Vacancy
        ensures { (told : List Exchange) → HasVacancy self told
            → HasVacancy result (record { call = call.now; answer = answer } ∷ told) }
    {
        match *call {
            Call::AskPresent(short) => self.asked(short, answer),
            Call::Program(_) | Call::Remove => Vacancy::Unknown,
            _ => self.idle(),
        }
    }

    fn asked(self, short: u8, answer: Option<u8>) -> Vacancy
        ensures { (told : List Exchange) → HasVacancy self told
            → HasVacancy result (record { call = Call.AskPresent short; answer = answer } ∷ told) }
    {
        match answer {
            Some(_) => Vacancy::Unknown,
            None => self.silent(short),
        }
    }

    fn silent(self, short: u8) -> Vacancy
        ensures { (told : List Exchange) → HasVacancy self told
            → HasVacancy result (record { call = Call.AskPresent short; answer = None } ∷ told) }
    {
        match self {
            Vacancy::Silent(at, count) if at == short && count < SILENT_ASKS => Vacancy::Silent(
                short,
                count + 1,
            ),
            _ => Vacancy::Silent(short, 1),
        }
    }

    // After a frame that asks nobody whether it is there, and gives and takes no address.
    fn idle(self) -> Vacancy
        ensures { (told : List Exchange) (exchange : Exchange) → IsIdle exchange.call → HasVacancy self told
            → HasVacancy result (exchange ∷ told) }
    {
        match self {
            Vacancy::Silent(short, count) if count == SILENT_ASKS => Vacancy::Free(short),
            Vacancy::Free(short) => Vacancy::Free(short),
            _ => Vacancy::Unknown,
        }
    }

    /// The address that may be given at the search address at hand, after one more frame. This is what was known before
    /// the frame.
    pub(crate) fn place(self, place: Option<u8>, call: &Call) -> Option<u8>
        ensures { (told : List Exchange) (answer : Option ℕ) → HasVacancy self told → HasPlace place told
            → HasPlace result (record { call = call.now; answer = answer } ∷ told) }
    {
        match *call {
            Call::SearchLow(_) => self.free(),
            Call::SearchHigh(_) | Call::SearchMiddle(_) | Call::Remove => None,
            Call::Program(short) => place.filter(|at| *at == short),
            _ => place,
        }
    }

    fn free(self) -> Option<u8>
        ensures { (short : ℕ) → result ≡ Some short → self ≡ Vacancy.Free short }
    {
        match self {
            Vacancy::Free(short) => Some(short),
            _ => None,
        }
    }
}
