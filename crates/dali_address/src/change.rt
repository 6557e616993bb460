ghost use Rattle.std.specs.Prelude.{◌≡◌, ◌<◌, List, IsTrue};
ghost use Rattle.dali_address.specs.Changes.{FitsChange, short_of, call_of};
ghost use Rattle.dali_address.specs.Evidences.{Stands};
ghost use Rattle.dali_address.specs.Rights.{IsRight, MayFollow};
ghost use Rattle.dali_address.specs.Steps.{Exchange};
ghost use Rattle.dali_address.specs.declared.task.Task.{Task};

use crate::call::Call;
use crate::evidence::{Evidence, byte_of};

/// The change that a round makes.
#[derive(Clone, Copy)]
pub(crate) enum Change {
    /// A unit without a short address gets this one.
    Give(u8),
    /// A unit at this short address loses it.
    Take(u8),
}

impl Change {
    /// The frame that brings the units that it may concern into the initialisation state.
    pub(crate) fn initialise(self) -> Call
        ensures { (task : Task) (told : List Exchange) → FitsChange task self
            → MayFollow task told result }
    {
        match self {
            Change::Give(_) => Call::InitialiseMissing,
            Change::Take(short) => Call::InitialiseAt(short),
        }
    }

    /// The frame that changes the unit that is searched for.
    pub(crate) fn call(self) -> Call
        ensures { result ≡ call_of self }
    {
        match self {
            Change::Give(short) => Call::Program(short),
            Change::Take(_) => Call::Remove,
        }
    }

    /// Whether that unit may be changed: asked just before, it told that it is one of those.
    pub(crate) fn is_due(self, evidence: &Evidence) -> bool
        ensures { (told : List Exchange) → short_of self < 64 → Stands evidence.now told → IsTrue result
            → IsRight (call_of self) told }
    {
        match self {
            Change::Give(short) => evidence.may_give(short),
            Change::Take(short) => evidence.may_take(short),
        }
    }

    /// The unit's answer about its short address once it is changed.
    pub(crate) fn changed(self) -> u8 {
        match self {
            Change::Give(short) => byte_of(short),
            Change::Take(_) => 0xFF,
        }
    }
}
