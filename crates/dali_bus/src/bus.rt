use dali_frame::Frame;

/// A bus with control gear.
///
/// It may lose a frame, to any of its units, or an answer. It alters none, and no unit comes or goes; one may lose its
/// power and get it back. Otherwise it may do anything that its units could do (IEC 62386-102: memory access).
pub trait Bus {
    ghost use Rattle.dali_frame.specs.Frame.{IsProper};
    ghost use Rattle.dali_bus.specs.World.{World};
    ghost use Rattle.dali_bus.specs.Carry.{BusEvent, Carried, Powered, WorldStep};

    /// The units that a state of the bus shows.
    ghost world: { Self → World };

    /// A step of this bus: from the old state this may happen and lead to the new one.
    ghost step: { Self → BusEvent → Self → Type 0 };

    /// Sends a frame, which has to be proper, and answers the backward frame that came back.
    fn carry(&mut self, frame: &Frame) -> Option<u8>
        requires { IsProper frame.now }
        ensures { step self.old (Carried frame.now result) self.new };

    /// The unit at this address loses its power and gets it back (IEC 62386-102: power-up). If there is none, as over
    /// 63, nothing changes.
    fn power(&mut self, address: u8)
        ensures { step self.old (Powered address) self.new };

    /// Each step of this bus is one that its units may make.
    ghost allowed: { (old : Self) (event : BusEvent) (new : Self) → step old event new
        → WorldStep (world old) event (world new) };
}
