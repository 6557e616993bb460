use dali_frame::Frame;
use dali_gear::{Bus, Fate, SimBus, Unit, laws};
use dali_shared_tests::expect_that;
use std::alloc::Global;
use std::test::Fail;

const WHOLE: Fate = Fate {
    lost: 0,
    answer_lost: false,
    refuse: false,
};

// It is lost to unit 5.
const LOST: Fate = Fate {
    lost: 1 << 5,
    answer_lost: false,
    refuse: false,
};

const ANSWER_LOST: Fate = Fate {
    lost: 0,
    answer_lost: true,
    refuse: false,
};

const REFUSED: Fate = Fate {
    lost: 0,
    answer_lost: false,
    refuse: true,
};

static FATES: [Fate; 9] = [
    LOST,
    ANSWER_LOST,
    REFUSED,
    WHOLE,
    WHOLE,
    WHOLE,
    WHOLE,
    WHOLE,
    REFUSED,
];

// A bus with blank units at 5 and 6, and these fates.
fn bus_of(alloc: Global) -> Result<SimBus, Fail> {
    let mut units = Vec::new(alloc);
    for address in [5, 6] {
        let unit = Unit::blank(alloc, address)?;
        units.push(unit)?;
    }
    let fates = FATES.to_vec(alloc)?;
    Ok(SimBus::new(units, fates)?)
}

// Whether each unit has this byte at 02h of bank 1.
fn hold(bus: &SimBus, wanted: u8) -> bool {
    for unit in bus.units() {
        if unit.bank1().get(2) != Some(&wanted) {
            return false;
        }
    }
    true
}

// Frames, their answers, how many fates are left, and what each unit holds at 02h after a frame.
static CARRIED: [(Frame, Option<u8>, usize, u8); 13] = [
    (Frame::Dtr0(0x07), None, 8, 0xFF),
    (Frame::AskDtr0(6), None, 7, 0xFF),
    (Frame::AskDtr0(6), Some(0x07), 6, 0xFF),
    (Frame::AskDtr0(5), Some(0x00), 5, 0xFF),
    (Frame::Enable(5), None, 4, 0xFF),
    (Frame::Enable(5), None, 3, 0xFF),
    (Frame::Dtr1(0x01), None, 2, 0xFF),
    (Frame::Dtr0(0x02), None, 1, 0xFF),
    (Frame::Write(0x55), None, 0, 0xFF),
    (Frame::Enable(6), None, 0, 0xFF),
    (Frame::Enable(6), None, 0, 0xFF),
    (Frame::Dtr0(0x02), None, 0, 0xFF),
    (Frame::Write(0x55), None, 0, 0x55),
];

// The last frame is answered by both units, so that no answer comes back.
#[test]
fn fates_lose_frames_and_answers(rt: HostRuntime) -> Result<(), Fail> {
    let mut bus = bus_of(rt.alloc())?;
    for (frame, answer, fates_left, held) in &CARRIED {
        expect_that(frame.is_proper(), "a proper frame")?;
        expect_that(bus.carry(frame) == *answer, "the answer to each frame")?;
        let is_right = bus.fates_left() == *fates_left && hold(&bus, *held);
        expect_that(is_right, "the fates left, and the byte at 02h")?;
    }
    Ok(())
}

#[test]
fn laws_hold(_rt: HostRuntime) {
    laws::unenabled_memory_stays();
    laws::chains_of_a_bus_are_chains_of_its_worlds::<SimBus>();
}
