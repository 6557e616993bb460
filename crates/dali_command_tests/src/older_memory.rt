// Two older journals in memory that are one journal together, and two of which one can't be used.
use crate::drive_files::SILENT;
use dali_input::Fault;
use dali_link_commands::older::joined_older;
use dali_shared_tests::expect_that;
use dali_store::MemoryStore;
use std::alloc::Global;
use std::test::Fail;

// A silent order of number 0.
const SILENT_0: [u8; 37] = [
    0x44, 0x42, 0x31, 0x02, 0x42, 0, 0, 0, 0, 0, 0, 0, 0, 0, 0, 0, 0, 0, 0, 0, 0, 9, 6, 3, 3, 4,
    0xA4, 5, 0xCE, 6, 0xEF, 7, 0xAD, 8, 0xAB, 0x45, 3,
];

// A journal after that of order 1: how many orders they have as one, or the words for which of them can't be used.
struct Two<'a> {
    second: &'a [u8],
    orders: u32,
    unusable: Option<&'a str>,
}

static TWO: [Two<'static>; 2] = [
    Two {
        second: &SILENT_0,
        orders: 2,
        unusable: None,
    },
    Two {
        second: b"DB1\x02B",
        orders: 0,
        unusable: Some("the older journal's end is cut: second: drive it once more"),
    },
];

// A store of these bytes.
fn store_of(alloc: Global, bytes: &[u8]) -> Result<MemoryStore, Fail> {
    Ok(MemoryStore::new(alloc, bytes.to_vec(alloc)?))
}

// Whether two journals have this many orders as one, or that one of them can't be used.
fn are_as_told(alloc: Global, two: &Two<'_>) -> Result<bool, Fail> {
    let mut stores = [
        store_of(alloc, SILENT.as_slice())?,
        store_of(alloc, two.second)?,
    ];
    Ok(
        match joined_older(alloc, &["first", "second"], &mut stores) {
            Ok(Some(journal)) => two.unusable.is_none() && journal.orders() == two.orders,
            Ok(None) => false,
            Err(problem) => problem.fault == Fault::Older
                && problem.words.as_deref() == two.unusable,
        },
    )
}

#[test]
fn two_older_journals(rt: HostRuntime) -> Result<(), Fail> {
    for two in &TWO {
        expect_that(
            are_as_told(rt.alloc(), two)?,
            "two journals, or which of them can't be used",
        )?;
    }
    Ok(())
}
