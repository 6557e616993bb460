ghost use Rattle.std.specs.Prelude.{◌≡◌, ◌≤◌, slice_get, IfSome};
ghost use Rattle.dali_frame.specs.Frame.{IsProper};
ghost use Rattle.dali_write.specs.Requests.{block_requests};

use crate::access::{request, selection};
use crate::request::{Request, Wish};
use dali_frame::Frame;

/// So many locations of memory bank 1 in a row (profile).
///
/// A *block read* selects the first location as a checked read does, reads `count` times, and asks both registers back:
/// DTR0 has moved on by that many, and DTR1 is 01h still. That of one location is the checked read.
#[derive(Clone, Copy, PartialEq, Eq)]
pub struct Block {
    /// The first location.
    pub location: u8,
    /// How many locations: 1 to 16, the last one FEh at most.
    pub count: u8,
}

impl Block {
    /// The frame of a try of the block read that has a number, counted from 0, with the answer that it wants. None
    /// after the last one.
    #[tactic(auto, using(crate::proofs::PlaceLemmas::place_behind))]
    pub fn request(self, unit: u8, number: usize) -> Option<Request>
        ensures request { result ≡ slice_get (block_requests unit self) number }
        ensures proper { unit ≤ 63 → IfSome result (λ request. IsProper request.frame) }
    {
        let behind = 4 + usize::from(self.count);
        if number < 4 {
            selection(unit, self.location).get(number).copied()
        } else if number < behind {
            Some(request(Frame::Read(unit), Wish::Anything))
        } else if number == behind {
            let place = self.location.saturating_add(self.count);
            Some(request(Frame::AskDtr0(unit), Wish::Exactly(place)))
        } else if number == behind + 1 {
            Some(request(Frame::AskDtr1(unit), Wish::Exactly(1)))
        } else {
            None
        }
    }
}
