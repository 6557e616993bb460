ghost use Rattle.std.specs.Prelude.{ℕ, Option};
ghost use Rattle.dali_address.specs.Keeps.{HasShort};
ghost use Rattle.dali_address.specs.Counting.{HasTaken};

use crate::bus::AddressBus;
use crate::census::{Census, CensusEnd, CensusWant};

/// Carries a census over a bus to its end. It leaves the units in the initialisation state.
///
/// Whatever is lost: each unit keeps its short address, or has none as before. If nothing is lost, and no two units
/// draw one random address, its result is true of the units. It believes that no unit is left after `care` silent asks.
pub fn serve_census<B: AddressBus>(bus: &mut B, care: u8) -> CensusEnd
    ensures taken { HasTaken care result (B.units bus.old) (B.units bus.new) }
    ensures stay { (short : Option ℕ) (number : ℕ) → HasShort short number (B.units bus.old)
        → HasShort short number (B.units bus.new) }
{
    let mut census = Census::new(care);
    loop {
        match census.want() {
            CensusWant::Send(call) => {
                let answer = bus.carry(&call);
                census.heard(call, answer);
            }
            CensusWant::Ended(end) => return end,
        }
    }
}
