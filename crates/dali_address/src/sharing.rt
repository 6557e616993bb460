ghost use Rattle.std.specs.Prelude.{◌≡◌, [], ◌<◌, ◌||◌, MatchOption};
ghost use Rattle.dali_address.specs.Calls.{short_byte};
ghost use Rattle.dali_address.specs.Marking.{IsNoShort, AreMarks, MarksShort, CountsShort, MarksMissing};
ghost use Rattle.dali_address.specs.Marking.{MarksByte, IsSaidBy};

use crate::census::CensusEnd;

/// The result of a census if the units aren't apart.
#[derive(Clone, Copy, PartialEq, Eq)]
pub struct Sharing {
    /// Whether the short address was answered twice, for each of 0 to 63.
    pub addresses: [bool; 64],
    /// Whether a unit told that it has none.
    pub has_missing: bool,
}

/// The answers about short addresses: which, which of them twice, and as long as each was answered once by a unit, how
/// many.
#[derive(Drop)]
pub(crate) struct Marks {
    pub(crate) seen: [bool; 64],
    pub(crate) sharing: Sharing,
    pub(crate) count: u8,
    pub(crate) is_apart: bool,
}

impl Marks {
    /// No answer yet.
    pub(crate) fn new() -> Marks
        ensures { AreMarks result [] }
    {
        Marks {
            seen: [false; 64],
            sharing: Sharing {
                addresses: [false; 64],
                has_missing: false,
            },
            count: 0,
            is_apart: true,
        }
    }

    /// The result if no unit is left.
    pub(crate) fn end(&self) -> CensusEnd
        ensures { IsSaidBy self.now result }
    {
        if self.is_apart {
            CensusEnd::Apart(self.count)
        } else {
            CensusEnd::Shared(self.sharing)
        }
    }

    /// One more unit, which answered this to QUERY SHORT ADDRESS.
    pub(crate) fn mark(&mut self, byte: u8)
        ensures { MarksByte self.old byte self.new }
    {
        match short_told(byte) {
            Some(short) => self.mark_short(short),
            None => self.mark_missing(),
        }
    }

    fn mark_short(&mut self, short: u8)
        requires { short < 64 }
        ensures { MarksShort self.old short self.new }
    {
        let index = usize::from(short);
        let was = self.seen[index];
        self.sharing.addresses[index] = either(was, self.sharing.addresses[index]);
        self.seen[index] = true;
        self.count_one(was);
    }

    // A short address was answered, maybe not for the first time.
    fn count_one(&mut self, was: bool)
        ensures { CountsShort self.old was self.new }
    {
        if !was && self.is_apart && self.count < 64 {
            self.count += 1;
        } else {
            self.is_apart = false;
        }
    }

    fn mark_missing(&mut self)
        ensures { MarksMissing self.old self.new }
    {
        self.sharing.has_missing = true;
        self.is_apart = false;
    }
}

fn either(one: bool, other: bool) -> bool
    ensures { result ≡ (one || other) }
{
    one || other
}

/// The short address that an answer to QUERY SHORT ADDRESS spells: 0AAAAAA1b.
pub(crate) fn short_told(byte: u8) -> Option<u8>
    ensures { MatchOption result (IsNoShort byte) (λ short. (short < 64) × (byte ≡ short_byte short)) }
{
    if byte < 0x80 && byte % 2 == 1 {
        Some(byte / 2)
    } else {
        None
    }
}
