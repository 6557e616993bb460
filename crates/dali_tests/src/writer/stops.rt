use crate::writer::case::{Case, Deed, PLAIN, bus_of, run_case};
use dali_shared_tests::{GTIN, expect_that};
use std::test::Fail;

static CUT: Case<'static> = Case {
    deeds: &[
        Deed::Submit(1, 5, &GTIN),
        Deed::Steps(8),
        Deed::Stop(1),
        Deed::Steps(116),
        Deed::Stop(2),
    ],
    ..PLAIN
};

// `./test` runs this one again and again, with each allocation refused in turn: a run that ends for want of memory
// leaves the bus as the events so far leave it, which is proved.
#[test]
fn a_refused_run_leaves_the_bus_there(rt: HostRuntime) -> Result<(), Fail> {
    let mut bus = bus_of(rt.alloc(), &CUT)?;
    let fates = bus.fates_left();
    let _outcome = run_case(rt.alloc(), &mut bus, &CUT)?;
    let sent = fates.saturating_sub(bus.fates_left());
    expect_that(sent == 119, "seven frames sent again")
}
