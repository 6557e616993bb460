use crate::writer::case::{Case, Deed, PLAIN, bus_of, run_case};
use dali_engine::{Happening, Reply};
use dali_gear::SimBus;
use dali_journal::Code;
use dali_shared_tests::{ENOUGH, GTIN, expect_at};
use std::alloc::Global;
use std::test::Fail;

// Whether the last of a run is that order 1 is done or in doubt.
fn is_done_or_in_doubt(trace: &[Happening]) -> bool {
    matches!(
        trace.last(),
        Some(Happening::Answered(1, Reply::Kept(Code::Done)))
            | Some(Happening::Answered(1, Reply::Kept(Code::Doubt)))
    )
}

// Whether each unit is locked and not write-enabled.
fn are_locked(bus: &SimBus) -> bool {
    for unit in bus.units() {
        if unit.is_enabled() || unit.bank1().get(2) != Some(&0xFF) {
            return false;
        }
    }
    true
}

// A GTIN, with the unit's power lost after this many steps: it ends as Done or in doubt, with the unit locked.
fn judge_at(alloc: Global, steps: usize) -> Result<(), Fail> {
    let deeds = [
        Deed::Submit(1, 5, &GTIN),
        Deed::Steps(steps),
        Deed::Power(5),
        Deed::Steps(ENOUGH),
    ];
    let case = Case {
        deeds: &deeds,
        ..PLAIN
    };
    let mut bus = bus_of(alloc, &case)?;
    let outcome = run_case(alloc, &mut bus, &case)?;
    let is_right = is_done_or_in_doubt(&outcome.trace) && are_locked(&bus);
    expect_at(steps, is_right, "Done or doubt, and a locked unit")
}

// After each of the steps before it is said, in turn, and before the first. With the unit's power lost no contract says
// that no order leaves its unit open.
#[test]
fn a_loss_of_power_after_each_step(rt: HostRuntime) -> Result<(), Fail> {
    for steps in 0..=115usize {
        judge_at(rt.alloc(), steps)?;
    }
    Ok(())
}
