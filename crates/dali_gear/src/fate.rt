ghost use Rattle.std.specs.Prelude.{◌≡◌, ◌<◌, ◌==◌};
ghost use Rattle.dali_gear.specs.Fate.{is_lost};

/// The fate of one frame on the simulated bus (profile). By default it goes through whole.
#[derive(Clone, Copy, Default, PartialEq, Eq)]
pub struct Fate {
    /// Bit `a` says that the unit at the short address `a` doesn't hear the frame.
    pub lost: u64,
    /// No answer comes back.
    pub answer_lost: bool,
    /// A unit that hears a write stores nothing and doesn't answer.
    pub refuse: bool,
}

impl Fate {
    // Whether the unit at a short address doesn't hear the frame.
    pub(crate) fn is_lost(&self, address: u8) -> bool
        requires { address < 64 }
        ensures { result ≡ is_lost self.now address }
    {
        (self.lost >> address) & 1 == 1
    }
}
