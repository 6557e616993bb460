ghost use Rattle.std.specs.Prelude.{◌≡◌};
ghost use Rattle.dali_journal.specs.Spelling.{version_number};
ghost use Rattle.dali_journal.specs.Decoding.{head_length};

/// How a journal's bytes are written (profile).
#[derive(Clone, Copy, PartialEq, Eq)]
pub enum Version {
    /// No header, and no moments: each is 0.
    One,
    /// The header, and in each `Began` its moment.
    Two,
}

// The first bytes of a journal of version 2: "DB1", and the version.
pub(crate) const HEADER: [u8; 4] = [0x44, 0x42, 0x31, 0x02];

impl Version {
    /// The version's number.
    pub fn number(&self) -> u8
        ensures { result ≡ version_number self.now }
    {
        match self {
            Version::One => 1,
            Version::Two => 2,
        }
    }

    // How many bytes a `Began` has in front of its updates: a letter, the order's number, in version 2 the moment,
    // the unit and how many updates follow.
    pub(crate) fn began_head_len(self) -> usize
        ensures { result ≡ head_length self }
    {
        match self {
            Version::One => 11,
            Version::Two => 19,
        }
    }
}
