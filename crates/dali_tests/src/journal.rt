ghost use Rattle.std.specs.Prelude.{◌≡◌, [], OnOk, IfOk};
ghost use Rattle.dali_journal.specs.JournalState.{HasRoom};

mod left_unit;
mod loading;
mod reading;

use dali_bank::Order;
use dali_journal::{Code, Journal, JournalFault, NoMemory, Record};
use dali_shared_tests::{GTIN, expect_that};
use std::alloc::Global;
use std::test::Fail;

// The beginning of a journal of version 2.
static HEADER: [u8; 4] = [0x44, 0x42, 0x31, 0x02];

// The moment of order 1, 65 53 F1 00 in hexadecimal digits, and that of order 2.
const MOMENT: u64 = 1_700_000_000;

const LATER: u64 = 1_700_000_009;

// The bytes of order 1 for unit 5 with this GTIN.
static BEGAN: [u8; 31] = [
    0x42, 0, 0, 0, 0, 0, 0, 0, 1, 0, 0, 0, 0, 0x65, 0x53, 0xF1, 0x00, 5, 6, 0x03, 0x03, 0x04, 0xA4,
    0x05, 0xCE, 0x06, 0xEF, 0x07, 0xAD, 0x08, 0xAB,
];

// The bytes of order 2 for unit 6 with this GTIN.
static NEXT: [u8; 31] = [
    0x42, 0, 0, 0, 0, 0, 0, 0, 2, 0, 0, 0, 0, 0x65, 0x53, 0xF1, 0x09, 6, 6, 0x03, 0x03, 0x04, 0xA4,
    0x05, 0xCE, 0x06, 0xEF, 0x07, 0xAD, 0x08, 0xAB,
];

// A journal of version 1 in which the first order is silent and the second one has begun.
static OLD_BOTH: [u8; 48] = [
    0x42, 0, 0, 0, 0, 0, 0, 0, 1, 5, 6, 0x03, 0x03, 0x04, 0xA4, 0x05, 0xCE, 0x06, 0xEF, 0x07, 0xAD,
    0x08, 0xAB, 0x45, 0x03, 0x42, 0, 0, 0, 0, 0, 0, 0, 2, 6, 6, 0x03, 0x03, 0x04, 0xA4, 0x05, 0xCE,
    0x06, 0xEF, 0x07, 0xAD, 0x08, 0xAB,
];

// An order of this number for this unit with this GTIN.
fn order_of(id: u64, unit: u8) -> Result<Order, Fail>
    ensures { IfOk result (λ order. order.id ≡ id) }
{
    Ok(Order::from_pairs(id, unit, &GTIN).ok_or("an order")?)
}

// Makes room, at the second call if the first is refused, and tells whether it was.
fn reserve_again(journal: &mut Journal, order: &Order) -> Result<bool, NoMemory>
    ensures records { journal.new.records ≡ journal.old.records }
    ensures limit { journal.new.limit ≡ journal.old.limit }
    ensures room { OnOk result (HasRoom journal.new order.now) }
{
    match journal.reserve(order) {
        Ok(()) => Ok(false),
        Err(_) => {
            journal.reserve(order)?;
            Ok(true)
        }
    }
}

// The journal's bytes, at the second call if the first is refused, and whether it was.
fn bytes_again(alloc: Global, journal: &Journal) -> Result<(Vec<u8>, bool), NoMemory> {
    match journal.to_bytes(alloc) {
        Ok(bytes) => Ok((bytes, false)),
        Err(_) => Ok((journal.to_bytes(alloc)?, true)),
    }
}

// How many of these bytes are loaded, at the second call if there is no memory at the first, and whether there was
// none.
fn load_again(alloc: Global, bytes: &[u8]) -> Result<(usize, bool), JournalFault> {
    match Journal::load(alloc, 2, bytes) {
        Ok((_, len, _)) => Ok((len, false)),
        Err(JournalFault::NoMemory) => {
            let (_, len, _) = Journal::load(alloc, 2, bytes)?;
            Ok((len, true))
        }
        Err(fault) => Err(fault),
    }
}

// Begins and ends the first order, makes room for the next one and begins it. It tells whether memory was refused.
fn begin_both(journal: &mut Journal, order: &Order, next: Order) -> Result<bool, NoMemory>
    requires { (journal.old.records ≡ []) × (journal.old.limit ≡ 2) × (order.now.id ≡ 1) × (next.id ≡ 2) }
{
    let first = reserve_again(journal, order)?;
    journal.append(Record::Began(order.copy(), MOMENT));
    journal.append(Record::Ended(Code::Silent));
    let second = reserve_again(journal, &next)?;
    journal.append(Record::Began(next, LATER));
    Ok(first || second)
}

// `./test` runs this one again and again, with each allocation refused in turn. A refused call changes nothing, and is
// done when it is called again.
// nothing, and is done when it is called again.
#[test]
fn a_refused_growth_changes_nothing(rt: HostRuntime) -> Result<(), Fail> {
    let order = order_of(1, 5)?;
    let next = order_of(2, 6)?;
    let mut journal = Journal::new(rt.alloc(), 2)?;
    let in_growth = begin_both(&mut journal, &order, next)?;
    let (bytes, in_writing) = bytes_again(rt.alloc(), &journal)?;
    let (counted, in_loading) = load_again(rt.alloc(), &bytes)?;
    let (old_counted, in_old) = load_again(rt.alloc(), &OLD_BOTH)?;
    expect_that(counted == 68 && old_counted == 48, "both orders")?;
    if in_growth || in_writing || in_loading || in_old {
        return Err(NoMemory.into());
    }
    Ok(())
}
