//! Laws of the world of units. Each is the contract of a function that does nothing.

ghost use Rattle.std.specs.Prelude.{List, map};
ghost use Rattle.dali_bus.specs.Carry.{BusEvent, WorldStep};
ghost use Rattle.dali_bus.specs.Chain.{IsChain};
ghost use Rattle.dali_bus.specs.Unenabled.{UnenabledMemoryStays};

use crate::bus::Bus;

/// If no unit is write-enabled at first, no ENABLE WRITE MEMORY is carried to a unit and no word outside the frame
/// table is sent, no byte of any memory ever changes, except for the lock bytes of units that lose power.
pub fn unenabled_memory_stays()
    ensures { UnenabledMemoryStays }
{}

/// Each happening on a bus is one that its units may make: each chain of its states is a chain of the worlds that they
/// show.
pub fn chains_of_a_bus_are_chains_of_its_worlds<B: Bus>()
    ensures { (first : B) (past : List BusEvent) (last : B) (states : List B) → IsChain B.step first past last states
        → IsChain WorldStep (B.world first) past (B.world last) (map B.world states) }
{}
