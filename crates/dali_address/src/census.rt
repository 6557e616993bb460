ghost use Rattle.std.specs.Prelude.{◌≡◌, ◌∷◌, ◌<◌, [], List};
ghost use Rattle.dali_address.specs.Calls.{IsCall};
ghost use Rattle.dali_address.specs.Keeps.{GivesNone};
ghost use Rattle.dali_address.specs.Steps.{Exchange};
ghost use Rattle.dali_address.specs.declared.call.Call.{Call};
ghost use Rattle.dali_address.specs.declared.census.CensusEnd.{CensusEnd};

use crate::call::Call;
use crate::sharing::{Marks, Sharing};
use crate::stage::{Digit, Found};
use crate::tallied::Tallied;
use crate::walk::{Walk, opened};

// A census ends before the initialisation state does: 16,000 frames of 49 ms are 13.1 minutes, and it lasts 13.5 at
// least.
const MOST_FRAMES: u16 = 16_000;

/// How a census ended.
#[derive(Clone, Copy, PartialEq, Eq)]
pub enum CensusEnd {
    /// So many units were counted, each told a short address, and no two the same; then none was left.
    Apart(u8),
    /// Units told one short address, or that they have none; then none was left.
    Shared(Sharing),
    /// It says nothing of the units: no short address was answered eight times at the random address that the search
    /// found, a unit was found after one with a higher random address, or it took more frames than the initialisation
    /// state lasts.
    Unclear,
}

/// The want of a census.
#[derive(Clone, Copy)]
pub enum CensusWant {
    /// This frame is to be sent.
    Send(Call),
    /// Nothing: it ended so.
    Ended(CensusEnd),
}

/// A census (profile) of all units: it brings each into the initialisation state and lets it draw a random address,
/// finds the lowest, asks the short address there and withdraws the unit, until none compares any more.
///
/// It leaves the units in the initialisation state.
#[derive(Drop)]
pub struct Census {
    care: u8,
    walk: Walk,
    found: Found,
    kept: Tallied,
    // how many frames it may still send, except for one
    left: u16,
}

impl Census {
    ghost use Rattle.dali_address.specs.Counting.{Told, IsWanted, HasEnded, care_of, left_of};

    /// A census. It believes that no unit is there after `care` asks.
    pub fn new(care: u8) -> Census
        ensures care { care_of result ≡ care }
        ensures told { Told [] result }
        ensures left { left_of result ≡ 16001 }
    {
        let highest = Found {
            high: 0xFF,
            middle: 0xFF,
            low: 0xFF,
        };
        Census {
            care,
            walk: Walk::Open(0),
            found: highest,
            kept: Tallied {
                search: highest,
                asked: None,
                unanswered: 0,
                newest: None,
                marks: Marks::new(),
            },
            left: MOST_FRAMES,
        }
    }

    /// The frame that the census wants to send, or how it ended.
    pub fn want(&self) -> CensusWant
        ensures call { (call : Call) → result ≡ CensusWant.Send call → IsCall call }
        ensures gives { (call : Call) → result ≡ CensusWant.Send call → GivesNone call }
        ensures sends { (call : Call) → result ≡ CensusWant.Send call → IsWanted self.now call }
        ensures ends { (end : CensusEnd) → result ≡ CensusWant.Ended end → HasEnded end self.now }
    {
        match self.walk.call(self.found, &self.kept) {
            Ok(call) => CensusWant::Send(call),
            Err(true) => CensusWant::Ended(self.kept.marks.end()),
            Err(false) => CensusWant::Ended(CensusEnd::Unclear),
        }
    }

    /// Tells the census what came back after the frame that it wanted.
    pub fn heard(&mut self, call: Call, answer: Option<u8>)
        requires { IsWanted self.old call }
        ensures care { care_of self.new ≡ care_of self.old }
        ensures told { (told : List Exchange) → Told told self.old
            → Told (record { call = call; answer = answer } ∷ told) self.new }
        ensures falls { left_of self.new < left_of self.old }
    {
        if self.left == 0 {
            self.walk = Walk::Lost;
            return;
        }
        self.left -= 1;
        if let Walk::Open(number) = self.walk {
            self.walk = opened(number);
        } else {
            self.kept.hear(call, answer);
            self.found = self.found.settled(self.walk);
            self.walk = self.walk.after(self.care, &self.kept, answer);
        }
    }
}

impl Found {
    // With a byte that was settled.
    fn settled(self, walk: Walk) -> Found {
        match walk {
            Walk::Settle(Digit::High, high) => Found { high, ..self },
            Walk::Settle(Digit::Middle, middle) => Found { middle, ..self },
            Walk::Settle(Digit::Low, low) => Found { low, ..self },
            _ => self,
        }
    }
}
