ghost use Rattle.std.specs.Prelude.{◌≡◌, ◌↔◌, IsTrue};
ghost use Rattle.dali_write.specs.Requests.{Meets};

use dali_frame::Frame;

/// The answer that a frame of a try wants (profile).
#[derive(Clone, Copy, PartialEq, Eq)]
pub enum Wish {
    /// None: one that comes is passed over.
    Nothing,
    /// This byte.
    Exactly(u8),
    /// Some byte.
    Anything,
}

impl Wish {
    /// Whether the answer is as wished.
    pub fn is_met(&self, answer: Option<u8>) -> bool
        ensures { IsTrue result ↔ Meets self.now answer }
    {
        match self {
            Wish::Nothing => true,
            Wish::Exactly(byte) => answer == Some(*byte),
            Wish::Anything => answer.is_some(),
        }
    }
}

/// A frame of a try, with the answer that it wants (profile).
#[derive(Clone, Copy, PartialEq, Eq)]
pub struct Request {
    /// The frame.
    pub frame: Frame,
    /// The answer without which the try misses.
    pub wish: Wish,
}
