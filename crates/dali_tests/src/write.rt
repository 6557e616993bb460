use dali_gear::{Bus, SimBus, Unit};
use dali_shared_tests::expect_that;
use dali_write::{Ask, Session, Verdict};
use std::alloc::Global;
use std::test::Fail;

// Bank 1 of 17 bytes.
static SHORT_BANK: [u8; 17] = [
    0x10, 0xFF, 0xFF, 0xFF, 0xFF, 0xFF, 0xFF, 0xFF, 0xFF, 0xFF, 0xFF, 0xFF, 0xFF, 0xFF, 0xFF, 0xFF,
    0xFF,
];

// A bus with unit 5, which has this bank.
fn bus_of(alloc: Global, bank: &[u8]) -> Result<SimBus, Fail> {
    let mut units = Vec::new(alloc);
    let unit = Unit::with_bank1(alloc, 5, bank, &[])?;
    units.push(unit)?;
    Ok(SimBus::new(units, Vec::new(alloc))?)
}

// Carries a session on to its end, and tells how many frames it took and how it ended.
fn finish<B: Bus>(bus: &mut B, session: &mut Session) -> (u32, Option<Verdict>) {
    for frames in 0..15_000u32 {
        match session.want() {
            Ask::Send(frame) => {
                let answer = bus.carry(&frame);
                session.heard(answer);
            }
            Ask::Ended(verdict) => return (frames, Some(verdict)),
        }
    }
    (15_000, None)
}

// Reads a bank in `frames` frames.
fn judge_reading(alloc: Global, bank: &[u8], frames: u32) -> Result<(), Fail> {
    let mut bus = bus_of(alloc, bank)?;
    let mut session = Session::reading(5);
    let (taken, verdict) = finish(&mut bus, &mut session);
    let is_read = taken == frames && verdict == Some(Verdict::Read);
    expect_that(is_read && session.bytes() == bank, "the bytes of a bank")
}

// No command reads a whole bank by one session.
#[test]
fn banks_are_read(rt: HostRuntime) -> Result<(), Fail> {
    let mut bank = [0xA5; 255];
    bank[0] = 0xFE;
    judge_reading(rt.alloc(), &SHORT_BANK, 119)?;
    judge_reading(rt.alloc(), &bank, 1785)
}
