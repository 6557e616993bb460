ghost use Rattle.std.specs.Prelude.{◌≡◌, ◌∷◌, ℕ, List, Option, None, Some};
ghost use Rattle.dali_address.specs.Steps.{Exchange};
ghost use Rattle.dali_address.specs.Readings.{HasReading, HasEarlier};
ghost use Rattle.dali_address.specs.declared.call.Call.{Call};
ghost use Rattle.dali_address.specs.declared.reading.Reading.{Reading};
ghost use Rattle.dali_address.specs.declared.reading.Named.{Named};

use crate::call::Call;
use crate::task::Random;

/// A short address, and the random address that was read there.
#[derive(Clone, Copy, PartialEq, Eq)]
pub(crate) struct Named {
    pub(crate) short: u8,
    pub(crate) random: Random,
}

/// Which bytes of a random address were read at a short address, one right after the other.
#[derive(Clone, Copy)]
pub(crate) enum Reading {
    Nothing,
    /// At this short address the high byte.
    High(u8, u8),
    /// The high and the middle byte.
    Middle(u8, u8, u8),
    /// All three.
    Whole(Named),
}

impl Reading {
    /// After one more frame, and what came back.
    pub(crate) fn after(self, call: &Call, answer: Option<u8>) -> Reading
        ensures { (told : List Exchange) → HasReading self told
            → HasReading result (record { call = call.now; answer = answer } ∷ told) }
    {
        let Some(byte) = answer else {
            return Reading::Nothing;
        };
        match *call {
            Call::AskRandomHigh(short) => Reading::High(short, byte),
            Call::AskRandomMiddle(short) => self.with_middle(short, byte),
            Call::AskRandomLow(short) => self.with_low(short, byte),
            _ => Reading::Nothing,
        }
    }

    fn with_middle(self, short: u8, middle: u8) -> Reading
        ensures { (told : List Exchange) → HasReading self told
            → HasReading result (record { call = Call.AskRandomMiddle short; answer = Some middle } ∷ told) }
    {
        match self {
            Reading::High(at, high) if at == short => Reading::Middle(short, high, middle),
            _ => Reading::Nothing,
        }
    }

    fn with_low(self, short: u8, low: u8) -> Reading
        ensures { (told : List Exchange) → HasReading self told
            → HasReading result (record { call = Call.AskRandomLow short; answer = Some low } ∷ told) }
    {
        match self {
            Reading::Middle(at, high, middle) if at == short => Reading::Whole(Named {
                short,
                random: Random { high, middle, low },
            }),
            _ => Reading::Nothing,
        }
    }

    /// A reading that was whole before the newest frame, after one more frame.
    pub(crate) fn earlier(self, earlier: Option<Named>) -> Option<Named>
        ensures { (told : List Exchange) (exchange : Exchange) → HasReading self told → HasEarlier earlier told
            → HasEarlier result (exchange ∷ told) }
    {
        match self {
            Reading::Whole(named) => Some(named),
            _ => earlier,
        }
    }
}
