use crate::address::bench::{Bench, NONE_LOST, SimUnit, ended};
use dali_address::{Line, Random, Task, Want};
use dali_shared_tests::expect_that;
use std::test::Fail;

fn unit(short: u8, random: [u8; 3]) -> Option<Line> {
    let [high, middle, low] = random;
    Some(Line::Unit {
        short,
        random: Random { high, middle, low },
    })
}

#[test]
fn one_unit_gets_an_address() -> Result<(), Fail> {
    let mut units = [SimUnit::new(None, [0x12, 0x34, 0x57])];
    let mut bench = Bench::new(&mut units);
    let end = bench.go(Task::Give, &[], NONE_LOST, NONE_LOST);
    expect_that(end == ended(1, 0, 0), "given 1 missing 0 shared 0")?;
    expect_that(bench.frames == 117, "117 frames")?;
    expect_that(bench.line(0) == unit(0, [0x12, 0x34, 0x57]), "its line")?;
    expect_that(bench.count == 1, "no other line")?;
    expect_that(units[0].short == Some(0) && !units[0].is_on, "it has it")
}

#[test]
fn ten_units_get_addresses() -> Result<(), Fail> {
    let mut units = [SimUnit::new(None, [0, 0, 0]); 10];
    for (number, it) in (0u8..).zip(units.iter_mut()) {
        it.drawn = [number.wrapping_mul(77), 0x34, number];
    }
    let mut bench = Bench::new(&mut units);
    let end = bench.go(Task::Give, &[], NONE_LOST, NONE_LOST);
    expect_that(end == ended(10, 0, 0), "given 10 missing 0 shared 0")?;
    expect_that(bench.frames == 918, "918 frames")?;
    expect_that(bench.count == 10, "a line for each")?;
    for one in 0..10usize {
        for two in 0..one {
            expect_that(units[one].short != units[two].short, "each has its own")?;
        }
    }
    Ok(())
}

#[test]
fn named_addresses_are_given_in_order() -> Result<(), Fail> {
    let mut units = [
        SimUnit::new(None, [0x12, 0x34, 0x57]),
        SimUnit::new(None, [0x12, 0x34, 0x56]),
        SimUnit::new(None, [0x99, 0x34, 0x56]),
    ];
    let mut bench = Bench::new(&mut units);
    let end = bench.go(Task::Give, &[63, 5], NONE_LOST, NONE_LOST);
    expect_that(end == ended(3, 0, 0), "given 3 missing 0 shared 0")?;
    expect_that(
        units[1].short == Some(63) && units[0].short == Some(5) && units[2].short == Some(0),
        "in order, then the lowest",
    )
}

#[test]
fn a_taken_address_is_refused() -> Result<(), Fail> {
    let mut units = [
        SimUnit::new(None, [0x12, 0x34, 0x57]),
        SimUnit::new(Some(7), [0x12, 0x34, 0x56]),
    ];
    let mut bench = Bench::new(&mut units);
    let end = bench.go(Task::Give, &[3, 7], NONE_LOST, NONE_LOST);
    expect_that(end == Want::Taken(7), "7 is taken")?;
    expect_that(bench.frames == 10 && bench.count == 0, "only asked")?;
    expect_that(units[0].short.is_none(), "none was given")
}

#[test]
fn sixty_five_units_are_one_too_many() -> Result<(), Fail> {
    let mut units = [SimUnit::new(None, [0, 0, 0]); 65];
    for (number, it) in (0u8..).zip(units.iter_mut()) {
        it.drawn = [number.wrapping_mul(77), number, 0xFE];
    }
    let mut bench = Bench::new(&mut units);
    let end = bench.go(Task::Give, &[], NONE_LOST, NONE_LOST);
    expect_that(end == ended(64, 1, 0), "given 64 missing 1 shared 0")?;
    expect_that(bench.count == 64, "a line for each that has one")?;
    expect_that(
        bench.line(63).is_some() && bench.line(64).is_none(),
        "63 is the last",
    )
}

fn two_at_seven() -> [SimUnit; 2] {
    let mut units = [
        SimUnit::new(Some(7), [0x12, 0x34, 0x57]),
        SimUnit::new(Some(7), [0x80, 0x34, 0x56]),
    ];
    for it in units.iter_mut() {
        it.random = it.drawn;
    }
    units
}

#[test]
fn a_shared_address_is_told() -> Result<(), Fail> {
    let mut units = two_at_seven();
    let mut bench = Bench::new(&mut units);
    let end = bench.go(Task::List, &[], NONE_LOST, NONE_LOST);
    expect_that(end == ended(0, 0, 1), "given 0 missing 0 shared 1")?;
    expect_that(
        bench.line(0) == Some(Line::Shared(7)) && bench.count == 1,
        "shared 7",
    )?;
    expect_that(
        units[0].short == Some(7) && units[1].short == Some(7),
        "they keep it",
    )
}

#[test]
fn all_are_given_anew() -> Result<(), Fail> {
    let mut units = two_at_seven();
    let mut bench = Bench::new(&mut units);
    let end = bench.go(Task::All, &[7], NONE_LOST, NONE_LOST);
    expect_that(end == ended(2, 0, 0), "given 2 missing 0 shared 0")?;
    expect_that(
        bench.line(0) == unit(0, [0x80, 0x34, 0x56]),
        "the greater has 0",
    )?;
    expect_that(
        bench.line(1) == unit(7, [0x12, 0x34, 0x57]),
        "the lower has 7",
    )?;
    expect_that(bench.count == 2, "no other line")
}

// It draws FFFFFFh, as a unit has that heard no RANDOMISE.
#[test]
fn what_nobody_draws_is_refused() -> Result<(), Fail> {
    let mut units = [SimUnit::new(None, [0xFF, 0xFF, 0xFF])];
    let mut bench = Bench::new(&mut units);
    let end = bench.go(Task::Give, &[], NONE_LOST, NONE_LOST);
    expect_that(end == ended(0, 1, 0), "given 0 missing 1 shared 0")?;
    expect_that(
        bench.count == 0 && units[0].short.is_none(),
        "none was given",
    )
}

// A unit that is in the initialisation state whatever it hears.
#[test]
fn what_compares_on_is_open() -> Result<(), Fail> {
    let mut run = dali_address::Addressing::new(Task::List, &[]);
    for _step in 0..10_000u32 {
        match run.want() {
            Want::Send(call) => run.heard(matches!(call, dali_address::Call::Compare).then_some(
                0xFF,
            )),
            _ => break,
        }
    }
    expect_that(matches!(run.want(), Want::Ended(end) if end.open), "open")
}
