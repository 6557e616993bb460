//! Laws of the giving of addresses. Each is the contract of a function that does nothing.

ghost use Rattle.dali_address.specs.Counting.{CensusIsTrue, ChecksCount, EndStays};
ghost use Rattle.dali_address.specs.Keeps.{AddressesStay, MemoriesStay, ShortsStay};
ghost use Rattle.dali_address.specs.Said.{NamesAreTrue};

/// Whatever is lost and whatever comes back: a unit that has a short address and isn't in the
/// initialisation state keeps its addresses, along each chain of frames that brings none at its address into it.
pub fn addresses_stay()
    ensures { AddressesStay }
{}

/// Whatever is lost: a unit that isn't write-enabled keeps its memory, lock bytes apart, and doesn't become
/// write-enabled.
pub fn memories_stay()
    ensures { MemoriesStay }
{}

/// Whatever is lost, and whoever answers at once: what three reads of a random address tell is so.
pub fn names_are_true()
    ensures { NamesAreTrue }
{}

/// If nothing was lost in a census, and no two units drew one random address, what its end says of the units is so.
pub fn census_is_true()
    ensures { CensusIsTrue }
{}

/// A census believes that no unit is left only after as many silent asks as it takes care for.
pub fn checks_count()
    ensures { ChecksCount }
{}

/// The result of a census stays true, whatever is lost, along frames that give no short address and take none away.
pub fn end_stays()
    ensures { EndStays }
{}

/// Whatever is lost, and whichever units are in the initialisation state: along frames that give no short address and
/// take none away, as those of a census, each unit keeps its short address.
pub fn shorts_stay()
    ensures { ShortsStay }
{}
