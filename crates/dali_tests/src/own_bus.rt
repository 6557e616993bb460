ghost use Rattle.dali_frame.specs.declared.forward.Frame.{Frame};
ghost use Rattle.dali_bus.specs.Carry.{Carry};
ghost use Rattle.dali_write.specs.LoneUnit.{lone_unit};

use dali_frame::Frame;
use dali_gear::Bus;

// A bus that owes nothing to the simulated one. Its unit, at 9, has a bank 0 and a bank 1, each with location 00h
// alone; it hears DTR0 and DTR1, the queries of both and the read, and no other frame, and never answers where there
// is no place. Its steps are all that a bus may do to that unit.
#[derive(Drop)]
pub(crate) struct TestBus {
    pub(crate) dtr1: u8,
    pub(crate) dtr0: u8,
}

impl TestBus {
    // The unit is asked for the byte that its registers name.
    fn read(&mut self) -> Option<u8>
        ensures { Carry (lone_unit self.old.dtr1 self.old.dtr0) (Frame.Read 9) result
            (lone_unit self.new.dtr1 self.new.dtr0) }
    {
        match (self.dtr1, self.dtr0) {
            (0, 0) => {
                self.dtr0 = 1;
                Some(0x02)
            }
            (1, 0) => {
                self.dtr0 = 1;
                Some(0x77)
            }
            _ => None,
        }
    }
}

impl Bus for TestBus {
    ghost use Rattle.dali_bus.specs.Carry.{WorldStep};
    ghost use Rattle.dali_write.specs.LoneUnit.{lone_unit};

    ghost world = { λ bus. lone_unit bus.dtr1 bus.dtr0 };

    ghost step = { λ old event new. WorldStep (lone_unit old.dtr1 old.dtr0) event (lone_unit new.dtr1 new.dtr0) };

    ghost allowed = { λ old event new step. step };

    fn carry(&mut self, frame: &Frame) -> Option<u8> {
        match *frame {
            Frame::Dtr0(byte) => {
                self.dtr0 = byte;
                None
            }
            Frame::Dtr1(byte) => {
                self.dtr1 = byte;
                None
            }
            Frame::AskDtr0(to) if to == 9 => Some(self.dtr0),
            Frame::AskDtr1(to) if to == 9 => Some(self.dtr1),
            Frame::Read(to) if to == 9 => self.read(),
            _ => None,
        }
    }

    fn power(&mut self, address: u8) {
        if address == 9 {
            self.dtr1 = 0;
            self.dtr0 = 0;
        }
    }
}
