// An order for a unit that isn't there, over streams of std and over a store in memory. The contract of a drive says
// what it does over others.
use dali_bank::Order;
use dali_journal::{Journal, Standing};
use dali_shared_tests::{GTIN, expect_that};
use dali_writer::{
    MemoryStore, Pace, StdSink, StdSource, StoreDesk, Terms, Writer, drive, drive_stored,
};
use std::alloc::Global;
use std::io;
use std::io::{ErrorKind, Write};
use std::test::Fail;

// The journal's file then: the header, and the GTIN as order 1 for unit 9, of the moment 0, which ended as 3 Silent.
static FILE: [u8; 37] = [
    0x44, 0x42, 0x31, 0x02, 0x42, 0x00, 0x00, 0x00, 0x00, 0x00, 0x00, 0x00, 0x01, 0x00, 0x00, 0x00,
    0x00, 0x00, 0x00, 0x00, 0x00, 0x09, 0x06, 0x03, 0x03, 0x04, 0xA4, 0x05, 0xCE, 0x06, 0xEF, 0x07,
    0xAD, 0x08, 0xAB, 0x45, 0x03,
];

// The sixteen frames that find no unit 9, and as many answers of no unit.
const LINK: &str = "C301\n139C\nC301\n139C\nC301\n139C\nC301\n139C\n\
    C301\n139C\nC301\n139C\nC301\n139C\nC301\n139C\n";

const SILENCE: &str = "--\n--\n--\n--\n--\n--\n--\n--\n--\n--\n--\n--\n--\n--\n--\n--\n";

const TOLD: &str = "reply 1 taken\nreply 1 kept 3 Silent\n";

const TERMS: Terms = Terms {
    orders: 10,
    bytes: 100,
    pace: Pace::Checked,
};

fn order() -> Result<Order, Fail> {
    match Order::from_pairs(1, 9, &GTIN) {
        Some(order) => Ok(order),
        None => Err("an order".into()),
    }
}

// Takes the replies, which no drive flushes: a flush of it fails.
#[derive(Drop)]
struct Unflushed {
    held: Vec<u8>,
}

impl Write for Unflushed {
    fn write(&mut self, buf: &[u8]) -> io::Result<usize> {
        self.held.extend_from_slice(buf)?;
        Ok(buf.len())
    }

    fn flush(&mut self) -> io::Result<()> {
        Err(io::Error::from(ErrorKind::StorageFull))
    }
}

// Whether the order is driven as it has to be, over readers and writers of std.
fn is_driven(alloc: Global) -> Result<bool, Fail> {
    let (journal, _, _) = Journal::load(alloc, 10, &[])?;
    let orders = [order()?];
    let mut rest = SILENCE.as_bytes();
    let (mut link, mut records) = (Vec::new(alloc), Vec::new(alloc));
    let mut told = Unflushed {
        held: Vec::new(alloc),
    };
    let mut link_in = StdSource::new(&mut rest);
    let mut link_out = StdSink::new(&mut link);
    let mut journal_out = StdSink::new(&mut records);
    let mut out = StdSink::new(&mut told);
    let driven = drive(
        Writer::new(journal),
        &orders,
        0,
        &mut link_in,
        &mut link_out,
        &mut journal_out,
        &mut out,
    );
    Ok(
        driven.is_ok()
            && rest.is_empty()
            && link.as_slice() == LINK.as_bytes()
            && records.as_slice() == &FILE[4..]
            && told.held.as_slice() == TOLD.as_bytes(),
    )
}

#[test]
fn streams_of_std(rt: HostRuntime) -> Result<(), Fail> {
    expect_that(is_driven(rt.alloc())?, "a drive over streams of std")
}

// The same if the journal is a store's, without a byte at first.
fn is_stored(alloc: Global) -> Result<bool, Fail> {
    let orders = [order()?];
    let mut link = Vec::new(alloc);
    let mut told = Unflushed {
        held: Vec::new(alloc),
    };
    let mut desk = StoreDesk {
        link_in: StdSource::new(SILENCE.as_bytes()),
        link_out: StdSink::new(&mut link),
        journal: MemoryStore::new(alloc, Vec::new(alloc)),
        older: None,
        out: StdSink::new(&mut told),
    };
    let driven = drive_stored(alloc, TERMS, &orders, 0, &mut desk);
    let is_kept = desk.journal.bytes() == FILE.as_slice();
    drop(desk);
    Ok(
        driven.is_ok()
            && is_kept
            && link.as_slice() == LINK.as_bytes()
            && told.held.as_slice() == TOLD.as_bytes(),
    )
}

#[test]
fn a_store_in_memory(rt: HostRuntime) -> Result<(), Fail> {
    expect_that(is_stored(rt.alloc())?, "a drive over a store in memory")
}

// Whether the order is answered by an older journal that has ended it: no frame is sent, and the store has no record.
fn is_answered_by_older(alloc: Global) -> Result<bool, Fail> {
    let (older, _, _) = Journal::load(alloc, 10, &FILE)?;
    let Standing::Idle = older.standing() else {
        return Ok(false);
    };
    let orders = [order()?];
    let mut link = Vec::new(alloc);
    let mut told = Unflushed {
        held: Vec::new(alloc),
    };
    let mut desk = StoreDesk {
        link_in: StdSource::new(SILENCE.as_bytes()),
        link_out: StdSink::new(&mut link),
        journal: MemoryStore::new(alloc, Vec::new(alloc)),
        older: Some(older),
        out: StdSink::new(&mut told),
    };
    let driven = drive_stored(alloc, TERMS, &orders, 0, &mut desk);
    let is_bare = desk.journal.bytes() == &FILE[..4];
    drop(desk);
    Ok(
        driven.is_ok()
            && is_bare
            && link.is_empty()
            && told.held.as_slice() == b"reply 1 kept 3 Silent\n".as_slice(),
    )
}

#[test]
fn a_store_after_an_older_journal(rt: HostRuntime) -> Result<(), Fail> {
    expect_that(
        is_answered_by_older(rt.alloc())?,
        "a drive after an older journal",
    )
}
