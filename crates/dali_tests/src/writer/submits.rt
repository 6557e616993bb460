// Orders that are submitted where memory is refused.
use crate::writer::case::{PLAIN, bus_of};
use dali_bank::Order;
use dali_engine::{Reply, Want, Writer};
use dali_gear::{Bus, SimBus};
use dali_journal::{Code, Journal, NoMemory, Record};
use dali_shared_tests::{ENOUGH, GTIN, expect_that};
use std::test::Fail;

// 65 53 F1 09 in hexadecimal digits.
const MOMENT: u64 = 1_700_000_009;

// Submits an order, and once more where memory is refused. The last reply, and whether it was.
fn submit_till_taken(writer: &mut Writer, order: &Order) -> Result<(Reply, bool), NoMemory> {
    if let Ok(reply) = writer.submit(order.copy(), MOMENT) {
        return Ok((reply, false));
    }
    let reply = writer.submit(order.copy(), MOMENT)?;
    Ok((reply, true))
}

// Whether the record of an order's begin is wanted.
fn begins(writer: &Writer) -> bool {
    matches!(writer.want(), Want::Keep(Record::Began(_, MOMENT)))
}

// `./test` runs this one again and again, with each allocation refused in turn. An order that was refused is taken
// when it comes again.
#[test]
fn a_refused_order_is_taken_when_it_comes_again(rt: HostRuntime) -> Result<(), Fail> {
    let mut writer = Writer::new(Journal::new(rt.alloc(), 2)?);
    let order = Order::from_pairs(1, 5, &GTIN).ok_or("an order")?;
    let (reply, was_refused) = submit_till_taken(&mut writer, &order)?;
    expect_that(
        matches!(reply, Reply::Taken) && begins(&writer),
        "an order that is taken, and the record of its begin",
    )?;
    if was_refused {
        return Err(NoMemory.into());
    }
    Ok(())
}

// Keeps the record or sends the frame that the writer wants, if it wants one, or gives what it says.
fn serve(bus: &mut SimBus, writer: &mut Writer) -> Option<(u64, Reply)> {
    match writer.want() {
        Want::Keep(_) => writer.kept(),
        Want::Send(frame) => {
            let answer = bus.carry(&frame);
            writer.heard(answer);
        }
        Want::Say(id, reply) => return Some((id, reply)),
        Want::Idle => {}
    }
    None
}

// Does what the writer wants until it says something.
fn said_by_hand(bus: &mut SimBus, writer: &mut Writer) -> Option<(u64, Reply)> {
    for _ in 0..ENOUGH {
        let said = serve(bus, writer);
        if said.is_some() {
            return said;
        }
    }
    None
}

// `./test` runs this one again and again, with each allocation refused in turn. Once the order is taken no memory is
// asked for up to its saying, so whichever is refused is one before that.
#[test]
fn a_taken_order_comes_to_its_saying(rt: HostRuntime) -> Result<(), Fail> {
    let mut bus = bus_of(rt.alloc(), &PLAIN)?;
    let mut writer = Writer::new(Journal::new(rt.alloc(), 2)?);
    let order = Order::from_pairs(1, 5, &GTIN).ok_or("an order")?;
    let reply = writer.submit(order, MOMENT)?;
    let said = said_by_hand(&mut bus, &mut writer);
    expect_that(
        matches!(reply, Reply::Taken) && matches!(said, Some((1, Reply::Kept(Code::Done)))),
        "an order that is done",
    )
}
