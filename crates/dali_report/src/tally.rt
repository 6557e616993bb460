// How many frames were sent, and how many of them missed: another answer came than was wished, or none.
ghost use Rattle.std.specs.Prelude.{◌≡◌, ◌∷◌, [], List};
ghost use Rattle.dali_write.specs.Exchanges.{Exchange};
ghost use Rattle.dali_write.specs.Misses.{location_after, wish_of as wish_for, is_missed as misses};
ghost use Rattle.dali_report.specs.Tallies.{IsTally};

use dali_frame::Frame;
use dali_write::Wish;

/// The frames since the last reply before.
#[derive(Clone, Copy)]
pub(crate) struct Tally {
    pub(crate) frames: u64,
    pub(crate) misses: u64,
    /// The value that DTR0 should have.
    pub(crate) location: u8,
}

impl Tally {
    /// Of no frames.
    pub(crate) fn new() -> Tally
        ensures { IsTally [] result }
    {
        Tally {
            frames: 0,
            misses: 0,
            location: 0,
        }
    }

    /// One more frame was sent, with this answer or none.
    pub(crate) fn add(&mut self, frame: &Frame, answer: Option<u8>)
        ensures { (told : List Exchange) → IsTally told self.old
            → IsTally (record { frame = frame.now; answer = answer } ∷ told) self.new }
    {
        self.frames = self.frames.saturating_add(1);
        if is_missed(wish_of(frame, self.location), answer) {
            self.misses = self.misses.saturating_add(1);
        }
        self.location = next_location(frame, self.location);
    }
}

// The value that DTR0 should have after a frame.
fn next_location(frame: &Frame, location: u8) -> u8
    ensures { result ≡ location_after frame.now location }
{
    match *frame {
        Frame::Dtr0(set) => set,
        Frame::Read(_) | Frame::Write(_) => location.saturating_add(1),
        _ => location,
    }
}

// The answer that a frame asks for, if DTR0 should have this value.
fn wish_of(frame: &Frame, location: u8) -> Wish
    ensures { result ≡ wish_for frame.now location }
{
    match *frame {
        Frame::AskDtr1(_) => Wish::Exactly(1),
        Frame::AskDtr0(_) => Wish::Exactly(location),
        Frame::Read(_) => Wish::Anything,
        Frame::Write(byte) => Wish::Exactly(byte),
        _ => Wish::Nothing,
    }
}

// Whether another answer came, or none.
fn is_missed(wish: Wish, answer: Option<u8>) -> bool
    ensures { result ≡ misses wish answer }
{
    match wish {
        Wish::Nothing => false,
        Wish::Exactly(byte) => answer != Some(byte),
        Wish::Anything => answer.is_none(),
    }
}
