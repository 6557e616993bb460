ghost use Rattle.std.specs.Prelude.{◌≡◌, ◌∷◌, ℕ, List, Option, None};
ghost use Rattle.dali_address.specs.Steps.{Exchange};
ghost use Rattle.dali_address.specs.Endings.{HasEnding};
ghost use Rattle.dali_address.specs.declared.call.Call.{Call};

use crate::call::Call;

/// How far the initialisation state was ended, and that was checked.
#[derive(Clone, Copy)]
pub(crate) enum Ending {
    Nothing,
    /// TERMINATE went last.
    Once,
    /// Twice.
    Twice,
    /// And then COMPARE, which stayed silent.
    Silent,
    /// Twice.
    Checked,
}

impl Ending {
    /// After one more frame, and what came back.
    pub(crate) fn after(self, call: &Call, answer: Option<u8>) -> Ending
        ensures { (told : List Exchange) → HasEnding self told
            → HasEnding result (record { call = call.now; answer = answer } ∷ told) }
    {
        match *call {
            Call::Terminate => self.terminated(),
            Call::Compare => self.compared(answer),
            _ => Ending::Nothing,
        }
    }

    fn compared(self, answer: Option<u8>) -> Ending
        ensures { (told : List Exchange) → HasEnding self told
            → HasEnding result (record { call = Call.Compare; answer = answer } ∷ told) }
    {
        match answer {
            None => self.silent(),
            Some(_) => Ending::Nothing,
        }
    }

    fn terminated(self) -> Ending
        ensures { (told : List Exchange) (answer : Option ℕ) → HasEnding self told
            → HasEnding result (record { call = Call.Terminate; answer = answer } ∷ told) }
    {
        match self {
            Ending::Once | Ending::Twice => Ending::Twice,
            _ => Ending::Once,
        }
    }

    fn silent(self) -> Ending
        ensures { (told : List Exchange) → HasEnding self told
            → HasEnding result (record { call = Call.Compare; answer = None } ∷ told) }
    {
        match self {
            Ending::Twice => Ending::Silent,
            Ending::Silent => Ending::Checked,
            _ => Ending::Nothing,
        }
    }
}
