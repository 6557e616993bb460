use crate::address::bench::{Bench, NONE_LOST, SimUnit, ended};
use dali_address::{Task, Want};
use dali_shared_tests::expect_that;
use std::test::Fail;

fn one_new() -> [SimUnit; 2] {
    let mut units = [
        SimUnit::new(None, [0x12, 0x34, 0x57]),
        SimUnit::new(Some(3), [0x80, 0x00, 0x00]),
    ];
    units[1].random = [0x80, 0x00, 0x00];
    units
}

#[test]
fn each_lost_frame_is_survived() -> Result<(), Fail> {
    for lost in 0..130u32 {
        let mut units = one_new();
        let mut bench = Bench::new(&mut units);
        let end = bench.go(Task::Give, &[], lost, NONE_LOST);
        expect_that(
            matches!(end, Want::Ended(it) if it.missing == 0 && !it.open),
            "it came to its end",
        )?;
        expect_that(bench.count == 1, "one line")?;
        expect_that(
            units[0].short.is_some() && units[1].short == Some(3),
            "given, and the other keeps its own",
        )?;
    }
    Ok(())
}

#[test]
fn each_kill_is_survived() -> Result<(), Fail> {
    for kill in 0..130u32 {
        let mut units = one_new();
        let mut first = Bench::new(&mut units);
        let _killed = first.go(Task::Give, &[], NONE_LOST, kill);
        let mut second = Bench::new(&mut units);
        let end = second.go(Task::List, &[], NONE_LOST, NONE_LOST);
        let is_given = units[0].short == Some(0);
        expect_that(
            end == ended(0, u8::from(!is_given), 0),
            "it is told who has none",
        )?;
        expect_that(units[1].short == Some(3), "the other keeps its own")?;
    }
    Ok(())
}
