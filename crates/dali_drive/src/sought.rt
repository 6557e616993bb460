ghost use Rattle.std.specs.Prelude.{◌≡◌};
ghost use Rattle.dali_read.specs.Places.{course_of};
ghost use Rattle.dali_drive.specs.Surveys.{sought_course};

use dali_read::Places;

/// The locations that a scan reads of each unit (profile).
#[derive(Clone, Copy, PartialEq, Eq)]
pub enum Sought {
    /// The last location of its memory bank 1.
    Last,
    /// And, if its bank reaches them, its GTIN and its identification number.
    Identity,
}

impl Sought {
    // Which locations of a unit are read.
    pub(crate) fn places(self) -> Places<'static>
        ensures { course_of result ≡ sought_course self }
    {
        match self {
            Sought::Last => Places::Last,
            Sought::Identity => Places::Identity,
        }
    }
}
