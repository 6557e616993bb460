use crate::own_bus::TestBus;
use crate::writer::case::{Deed, answers_of, events_of};
use dali_engine::{Reply, run};
use dali_journal::Code;
use dali_shared_tests::{ENOUGH, GTIN, expect_that};
use std::test::Fail;

static DEEDS: [Deed<'static>; 4] = [
    Deed::Submit(1, 9, &GTIN),
    Deed::Steps(5),
    Deed::Power(9),
    Deed::Steps(ENOUGH),
];

// Power is lost before the read, so that it is answered by bank 0, and DTR0 moves on as it should: the last question
// alone shows it. Bank 0 of the unit ends at 02h, before the GTIN's last location, and bank 1 doesn't: a read of six
// frames would keep a wrong Short. The unit hears no write, so that the order ends in doubt: 14 frames, eight tries of
// a checked write twice, and eight reads of the lock byte, which it doesn't have.
#[test]
fn power_lost_before_a_read_of_a_unit_with_bank_0(rt: HostRuntime) -> Result<(), Fail> {
    let events = events_of(rt.alloc(), &DEEDS)?;
    let mut bus = TestBus {
        dtr1: 0x00,
        dtr0: 0x00,
    };
    let outcome = run(rt.alloc(), &mut bus, 10, &events)?;
    let answers = answers_of(rt.alloc(), &outcome.trace)?;
    let frames = 14 + 8 * 7 + 8 * 7 + 8 * 5;
    let is_in_doubt = answers.last() == Some(&(1, Reply::Kept(Code::DoubtOpen), frames));
    expect_that(is_in_doubt, "an order that ends in doubt")
}
