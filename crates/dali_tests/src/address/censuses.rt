use crate::address::bench::SimUnit;
use dali_address::{Call, Census, CensusEnd, CensusWant};
use dali_shared_tests::expect_that;
use std::test::Fail;

// The answer that comes back of all answers to a frame: several at once are YES or nothing.
fn answered(units: &mut [SimUnit], call: &Call) -> Option<u8> {
    let mut back = None;
    let mut count = 0u32;
    for unit in units.iter_mut() {
        if let Some(byte) = unit.hear(call) {
            back = Some(byte);
            count = count.saturating_add(1);
        }
    }
    if count < 2 || matches!(call, Call::Compare) {
        back
    } else {
        None
    }
}

// Carries a census to its end, and tells how many frames it took. The frame of this number is lost.
fn count(units: &mut [SimUnit], care: u8, lost: u32) -> (u32, Option<CensusEnd>) {
    let mut census = Census::new(care);
    for frames in 0..16_002u32 {
        match census.want() {
            CensusWant::Send(call) => {
                let answer = if frames == lost {
                    None
                } else {
                    answered(units, &call)
                };
                census.heard(call, answer);
            }
            CensusWant::Ended(end) => return (frames, Some(end)),
        }
    }
    (16_002, None)
}

#[test]
fn units_are_told_apart() -> Result<(), Fail> {
    let mut none: [SimUnit; 0] = [];
    let (frames, end) = count(&mut none, 1, 99_999);
    expect_that(end == Some(CensusEnd::Apart(0)), "nobody is there")?;
    expect_that(frames == 14, "the opening and a check")?;
    let mut two = [
        SimUnit::new(Some(7), [0x12, 0x34, 0x57]),
        SimUnit::new(Some(8), [0x12, 0x34, 0x56]),
    ];
    let (frames, end) = count(&mut two, 1, 99_999);
    expect_that(end == Some(CensusEnd::Apart(2)), "two are apart")?;
    expect_that(frames == 134, "so many frames")
}

#[test]
fn who_shares_is_named() -> Result<(), Fail> {
    let mut units = [
        SimUnit::new(Some(7), [0x12, 0x34, 0x57]),
        SimUnit::new(Some(63), [0x12, 0x34, 0x58]),
        SimUnit::new(Some(7), [0xFF, 0x34, 0x56]),
        SimUnit::new(Some(8), [0x00, 0x00, 0x00]),
    ];
    match count(&mut units, 1, 99_999).1 {
        Some(CensusEnd::Shared(sharing)) => {
            let is_named = sharing.addresses[7] && !sharing.addresses[8];
            expect_that(is_named && !sharing.addresses[63], "7 alone is shared")?;
            expect_that(!sharing.has_missing, "each has one")?;
        }
        _ => expect_that(false, "7 is shared")?,
    }
    let mut units = [
        SimUnit::new(None, [0x12, 0x34, 0x57]),
        SimUnit::new(Some(7), [0x00, 0x34, 0x56]),
    ];
    match count(&mut units, 1, 99_999).1 {
        Some(CensusEnd::Shared(sharing)) => {
            expect_that(sharing.has_missing, "one has none")?;
            expect_that(!sharing.addresses[7], "nobody shares")
        }
        _ => expect_that(false, "one has none"),
    }
}

#[test]
fn each_lost_frame_is_survived() -> Result<(), Fail> {
    for lost in 0..238u32 {
        let mut units = [
            SimUnit::new(Some(7), [0x12, 0x34, 0x57]),
            SimUnit::new(Some(8), [0x12, 0x34, 0x56]),
        ];
        let (_frames, end) = count(&mut units, 2, lost);
        expect_that(end == Some(CensusEnd::Apart(2)), "two are apart")?;
    }
    Ok(())
}

#[test]
fn a_full_bus_is_counted() -> Result<(), Fail> {
    let mut units = [SimUnit::new(None, [0x00, 0x00, 0x00]); 64];
    let mut short = 0u8;
    for unit in units.iter_mut() {
        *unit = SimUnit::new(Some(short), [short.wrapping_mul(77), 0x55, short]);
        short = short.wrapping_add(1);
    }
    let (frames, end) = count(&mut units, 4, 99_999);
    expect_that(end == Some(CensusEnd::Apart(64)), "64 are apart")?;
    expect_that(frames < 16_000, "in time")?;
    units[63].short = Some(0);
    match count(&mut units, 4, 99_999).1 {
        Some(CensusEnd::Shared(sharing)) => {
            expect_that(
                sharing.addresses[0] && !sharing.addresses[63],
                "0 is shared",
            )
        }
        _ => expect_that(false, "0 is shared"),
    }
}
