// An order that left its unit open, which was closed, and one that is done: their journal in both versions, each of its
// fronts, and each of its bytes replaced.
use dali_journal::{Journal, Standing, Version};
use dali_shared_tests::expect_that;
use std::alloc::Global;
use std::test::Fail;

// The moments are 0.
static LEFT: [u8; 76] = [
    0x44, 0x42, 0x31, 0x02, 0x42, 0, 0, 0, 0, 0, 0, 0, 1, 0, 0, 0, 0, 0, 0, 0, 0, 5, 6, 0x03, 0x03,
    0x04, 0xA4, 0x05, 0xCE, 0x06, 0xEF, 0x07, 0xAD, 0x08, 0xAB, 0x4F, 0x05, 0x45, 0x05, 0x43, 0x05,
    0x42, 0, 0, 0, 0, 0, 0, 0, 2, 0, 0, 0, 0, 0, 0, 0, 0, 6, 6, 0x03, 0x03, 0x04, 0xA4, 0x05, 0xCE,
    0x06, 0xEF, 0x07, 0xAD, 0x08, 0xAB, 0x4F, 0x06, 0x45, 0x00,
];

static OLD_LEFT: [u8; 56] = [
    0x42, 0, 0, 0, 0, 0, 0, 0, 1, 5, 6, 0x03, 0x03, 0x04, 0xA4, 0x05, 0xCE, 0x06, 0xEF, 0x07, 0xAD,
    0x08, 0xAB, 0x4F, 0x05, 0x45, 0x05, 0x43, 0x05, 0x42, 0, 0, 0, 0, 0, 0, 0, 2, 6, 6, 0x03, 0x03,
    0x04, 0xA4, 0x05, 0xCE, 0x06, 0xEF, 0x07, 0xAD, 0x08, 0xAB, 0x4F, 0x06, 0x45, 0x00,
];

// The state at the end of each record: how many bytes count in version 1 and in version 2, how many orders were begun,
// and the first letter of the standing.
static STANDS: [(usize, usize, u32, u8); 8] = [
    (0, 4, 0, b'I'),
    (23, 35, 1, b'B'),
    (25, 37, 1, b'O'),
    (27, 39, 1, b'L'),
    (29, 41, 1, b'I'),
    (52, 72, 2, b'B'),
    (54, 74, 2, b'O'),
    (56, 76, 2, b'I'),
];

// The state when the first `len` bytes of a version are there.
fn right_of(version: Version, len: usize) -> (usize, usize, u32, u8) {
    let mut right = (0, 4, 0, b'I');
    for &(old, new, orders, letter) in &STANDS {
        let counts = match version {
            Version::One => old,
            Version::Two => new,
        };
        if counts <= len {
            right = (counts, new, orders, letter);
        }
    }
    right
}

// The first letter of the standing.
fn letter_of(standing: &Standing) -> u8 {
    match standing {
        Standing::Idle => b'I',
        Standing::Began(_) => b'B',
        Standing::Opened(_) => b'O',
        Standing::Left(_) => b'L',
    }
}

// Loads the first bytes of a version and judges the journal, and what is written of it.
fn judge_front(alloc: Global, version: Version, front: &[u8]) -> Result<(), Fail> {
    let (counts, new, orders, letter) = right_of(version, front.len());
    let (journal, counted, found) = Journal::load(alloc, 10, front)?;
    let is_right = found == version && counted == counts && journal.orders() == orders;
    let again = journal.to_bytes(alloc)?;
    let is_written = again.len() == new && LEFT.starts_with(&again);
    expect_that(
        is_right && is_written && letter_of(&journal.standing()) == letter,
        "the records that are whole",
    )
}

// One to three bytes of version 2 are no whole header, as examples/journal.cases shows.
#[test]
fn each_front_loads(rt: HostRuntime) -> Result<(), Fail> {
    judge_front(rt.alloc(), Version::Two, &[])?;
    for len in 1..=56usize {
        judge_front(rt.alloc(), Version::One, &OLD_LEFT[..len])?;
    }
    for len in 4..=76usize {
        judge_front(rt.alloc(), Version::Two, &LEFT[..len])?;
    }
    Ok(())
}

// How many load of the journals with one byte replaced, for each byte and each value, and how many have each fault, by
// its number. A program that shares nothing with this one counted both.
static LOADS: [u32; 8] = [11_516, 0, 0, 6_833, 340, 2, 0, 765];

static OLD_LOADS: [u32; 8] = [7_416, 0, 0, 6_577, 340, 2, 0, 1];

// The number of the fault of the bytes with one of them replaced, 0 if they are a journal.
fn fault_of(alloc: Global, bytes: &[u8], place: usize, value: u8) -> Result<u8, Fail> {
    let mut replaced = bytes.to_vec(alloc)?;
    if let Some(byte) = replaced.get_mut(place) {
        *byte = value;
    }
    match Journal::load(alloc, 10, &replaced) {
        Ok(_) => Ok(0),
        Err(fault) => Ok(fault.number()),
    }
}

// How many load with one byte replaced, and how many have each fault.
fn loads_of(alloc: Global, bytes: &[u8]) -> Result<[u32; 8], Fail> {
    let mut loads = [0u32; 8];
    for place in 0..bytes.len() {
        for value in 0..=255u8 {
            let number = fault_of(alloc, bytes, place, value)?;
            if let Some(count) = loads.get_mut(usize::from(number)) {
                *count = count.wrapping_add(1);
            }
        }
    }
    Ok(loads)
}

#[test]
fn each_byte_replaced(rt: HostRuntime) -> Result<(), Fail> {
    expect_that(
        loads_of(rt.alloc(), &LEFT)? == LOADS,
        "the counts of version 2",
    )?;
    expect_that(
        loads_of(rt.alloc(), &OLD_LEFT)? == OLD_LOADS,
        "the counts of version 1",
    )
}
