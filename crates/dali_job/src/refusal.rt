ghost use Rattle.std.specs.Prelude.{◌≡◌};
ghost use Rattle.dali_job.specs.LinkOptions.{named_twice as first_repeated};

/// Why a command line is refused that `clap` takes (profile).
#[derive(Clone, Copy)]
pub enum Refusal {
    /// `check` names older journals, and no journal to ask.
    OlderAlone,
    /// `address` is asked for several things: to give anew, to list, to count.
    SeveralAsked,
    /// `address` names units, and gives no short address.
    UnitsUnasked,
    /// `scan` or `address` names this unit twice: it is the first that was named before.
    NamedTwice(u8),
}

/// The first of the units that was named before.
pub(crate) fn named_twice(units: &[u8]) -> Option<u8>
    ensures { result ≡ first_repeated units.now }
{
    for (index, unit) in units.iter().enumerate() {
        if units[..index].contains(unit) {
            return Some(*unit);
        }
    }
    None
}
