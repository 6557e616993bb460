ghost use Rattle.std.specs.Prelude.{◌≡◌, ◌<◌, ◌≤◌, IsTrue, ◌↔◌};
ghost use Rattle.dali_address.specs.Census.{highest};
ghost use Rattle.dali_address.specs.Places.{three_of};

/// The byte of the search address at hand.
#[derive(Clone, Copy)]
pub(crate) enum Digit {
    High,
    Middle,
    Low,
}

/// The part found so far of a random address: its high, middle and low byte.
#[derive(Clone, Copy)]
pub(crate) struct Found {
    pub(crate) high: u8,
    pub(crate) middle: u8,
    pub(crate) low: u8,
}

impl Found {
    // The byte that was found.
    pub(crate) fn byte(self, digit: Digit) -> u8 {
        match digit {
            Digit::High => self.high,
            Digit::Middle => self.middle,
            Digit::Low => self.low,
        }
    }

    // With a byte that was found.
    pub(crate) fn with(self, digit: Digit, byte: u8) -> Found {
        match digit {
            Digit::High => Found { high: byte, ..self },
            Digit::Middle => Found {
                middle: byte,
                ..self
            },
            Digit::Low => Found { low: byte, ..self },
        }
    }

    // Whether no unit has drawn it: it is what a unit has that never drew one.
    pub(crate) fn is_undrawn(self) -> bool
        ensures { IsTrue result ↔ (three_of self ≡ highest) }
    {
        self.high == 0xFF && self.middle == 0xFF && self.low == 0xFF
    }
}

// The byte in the middle, or below it: at least the low one and below the high one, if they differ.
pub(crate) fn between(low: u8, high: u8) -> u8
    ensures least { low ≤ result }
    ensures most { low < high → result < high }
{
    if low < high {
        low + (high - low) / 2
    } else {
        low
    }
}
