ghost use Rattle.std.specs.Prelude.{◌≡◌};
ghost use Rattle.dali_address.specs.Calls.{IsCall};

use crate::call::Call;
use crate::task::Line;

/// A bus with control gear, as the giving of addresses sees it. It may lose a frame, to any of its
/// units, or what comes back.
pub trait AddressBus {
    ghost use Rattle.dali_address.specs.Units.{Units};
    ghost use Rattle.dali_address.specs.Steps.{Step};

    /// The units that a state of the bus shows.
    ghost units: { Self → Units };

    /// Sends a frame, and tells what came back.
    fn carry(&mut self, call: &Call) -> Option<u8>
        requires { IsCall call.now }
        ensures { Step (units self.old) (record { call = call.now; answer = result }) (units self.new) };
}

/// A bus, and a receiver of the lines about units found there.
pub trait AddressDesk: AddressBus {
    ghost use Rattle.dali_address.specs.Runs.{IsTrueLine};

    /// Tells a line. It is so at this moment.
    fn tell(&mut self, line: &Line)
        requires { IsTrueLine line.now (Self.units self.old) }
        ensures { Self.units self.new ≡ Self.units self.old };
}
