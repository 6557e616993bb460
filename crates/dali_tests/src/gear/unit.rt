use dali_bank::BLANK;
use dali_frame::Frame;
use dali_gear::{GearFault, Unit};
use dali_shared_tests::expect_that;
use std::alloc::Global;
use std::test::Fail;

// Bank 1 of 17 bytes, without the fields after the content format.
const SHORT_BANK: [u8; 17] = [
    0x10, 0xFF, 0xFF, 0xFF, 0xFF, 0xFF, 0xFF, 0xFF, 0xFF, 0xFF, 0xFF, 0xFF, 0xFF, 0xFF, 0xFF, 0xFF,
    0xFF,
];

// `./test` runs this one again and again, with each allocation refused in turn.
#[test]
fn units_are_made(rt: HostRuntime) -> Result<(), Fail> {
    let blank = Unit::blank(rt.alloc(), 5)?;
    let short = Unit::with_bank1(rt.alloc(), 6, &SHORT_BANK, &[0x03, 0x10])?;
    expect_that(
        blank.bank1().len() == 120 && short.bank1().len() == 17,
        "120 and 17 bytes of bank 1",
    )
}

// Frames to unit 5, of which location 05h is fixed: their answers, and then DTR0 and whether the unit is enabled.
static HEARD: [(Frame, Option<u8>, u8, bool); 41] = [
    // a broken pair doesn't enable it
    (Frame::Enable(5), None, 0x00, false),
    (Frame::Dtr0(0x02), None, 0x02, false),
    (Frame::Enable(5), None, 0x02, false),
    (Frame::Write(0x55), None, 0x02, false),
    (Frame::Enable(5), None, 0x02, false),
    (Frame::Enable(5), None, 0x02, true),
    // once unlocked it stores, but at its fixed location and at 00h
    (Frame::Dtr1(0x01), None, 0x02, true),
    (Frame::Write(0x55), Some(0x55), 0x03, true),
    (Frame::Write(0xAA), Some(0xAA), 0x04, true),
    (Frame::Write(0x11), Some(0x11), 0x05, true),
    (Frame::Write(0x22), None, 0x06, true),
    (Frame::WriteSilent(0x33), None, 0x07, true),
    (Frame::Dtr0(0x00), None, 0x00, true),
    (Frame::Write(0x00), None, 0x01, true),
    // bank 2 has a lock of its own, and there is no bank 3
    (Frame::Dtr1(0x02), None, 0x01, true),
    (Frame::Dtr0(0x03), None, 0x03, true),
    (Frame::Write(0x11), None, 0x04, true),
    (Frame::Dtr0(0x02), None, 0x02, true),
    (Frame::Write(0x55), Some(0x55), 0x03, true),
    (Frame::Write(0x22), Some(0x22), 0x04, true),
    (Frame::Dtr1(0x03), None, 0x04, true),
    (Frame::Write(0x33), None, 0x04, true),
    (Frame::Read(5), None, 0x04, false),
    (Frame::AskDtr0(5), Some(0x04), 0x04, false),
    (Frame::AskDtr1(5), Some(0x03), 0x04, false),
    (Frame::Dtr2(0x07), None, 0x04, false),
    (Frame::AskDtr2(5), Some(0x07), 0x04, false),
    (Frame::AskDtr2(6), None, 0x04, false),
    // another frame ends its write enable
    (Frame::Enable(5), None, 0x04, false),
    (Frame::Enable(5), None, 0x04, true),
    (Frame::Other(0xFEFE), None, 0x04, false),
    // DTR0 stays at its end
    (Frame::Dtr1(0x01), None, 0x04, false),
    (Frame::Dtr0(0xFF), None, 0xFF, false),
    (Frame::Enable(5), None, 0xFF, false),
    (Frame::Enable(5), None, 0xFF, true),
    (Frame::Write(0x00), None, 0xFF, true),
    (Frame::Read(5), None, 0xFF, false),
    // a read of a byte that it stored
    (Frame::Dtr0(0x03), None, 0x03, false),
    (Frame::Read(6), None, 0x03, false),
    (Frame::Read(5), Some(0xAA), 0x04, false),
    (Frame::AskDtr0(5), Some(0x04), 0x04, false),
];

fn judge_heard(unit: &mut Unit) -> Result<(), Fail> {
    for (frame, answer, dtr0, is_enabled) in &HEARD {
        expect_that(unit.hear(frame) == *answer, "the answer to each frame")?;
        let is_right = unit.dtrs().0 == *dtr0 && unit.is_enabled() == *is_enabled;
        expect_that(is_right, "DTR0 and write enable after each frame")?;
    }
    Ok(())
}

// Whether the banks hold what was stored, and this lock byte.
fn hold(unit: &Unit, lock: u8) -> bool {
    unit.bank1()
        .starts_with(&[0x77, 0xFF, lock, 0xAA, 0x11, 0xFF, 0x33, 0xFF])
        && unit.bank2().starts_with(&[0x0F, 0xFF, lock, 0x22, 0xFF])
}

fn unit_of(alloc: Global) -> Result<Unit, GearFault> {
    Unit::with_bank1(alloc, 5, &BLANK, &[0x05])
}

// The stored bytes stay when the power goes, and the lock bytes don't.
#[test]
fn a_unit_hears_and_loses_its_power(rt: HostRuntime) -> Result<(), Fail> {
    let mut unit = unit_of(rt.alloc())?;
    judge_heard(&mut unit)?;
    let is_stored = hold(&unit, 0x55);
    unit.power_up();
    let is_off = unit.dtrs() == (0x00, 0x00, 0x00) && !unit.is_enabled();
    expect_that(
        is_stored && is_off && hold(&unit, 0xFF),
        "the bytes and registers",
    )
}
