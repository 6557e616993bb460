use super::{BEGAN, HEADER, NEXT, OLD_BOTH};
use dali_journal::{Journal, Version};
use dali_shared_tests::expect_that;
use std::alloc::Global;
use std::test::Fail;

// A line is a case: the most orders of a journal, its bytes in hexadecimal digits, with BEGAN and NEXT for those of an
// order of version 2 and OLD_BOTH for those of a journal of version 1; and what they load as: the version and the
// length that counts, or why there is no journal. Others are in examples/journal.cases, with the most orders there.
//
// No bytes are of version 2, and all that begin with 44h have to begin with the whole header. A cut record isn't tested
// against the standing, the numbers or the limit. The first fault is reported, and of one record the first of its
// faults. No unit has the address 64, an order has 1 to 115 updates, and 115 updates from 05h on don't fit.
const CASES: &str = "0: Limit
1: Two 0
100000: Two 0
100001: Limit
0 44: Limit
1 44: Header
100000 44: Header
100001 44: Limit
10 HEADER 42: Two 4
10 HEADER HEADER: Record(4)
10 HEADER BEGAN HEADER: Record(35)
10 HEADER 42 00 00 00 00 00 00 00 01 05 06 03 03 04 A4 05 CE 06 EF 07 AD 08 AB: Record(4)
10 BEGAN: Record(0)
10 OLD_BOTH 44: Record(48)
1 OLD_BOTH: Full(25)
2 OLD_BOTH 4F 06 45 00: One 52
2 OLD_BOTH 4F 05: Sequence(48)
2 OLD_BOTH 42 00: One 48
2 OLD_BOTH 43: One 48
1 HEADER BEGAN 45 03 NEXT: Full(37)
2 HEADER BEGAN 45 03 NEXT: Two 68
1 HEADER BEGAN 45 03 42 00 00: Two 37
1 HEADER BEGAN 45 03 BEGAN: Repeated(37)
1 HEADER BEGAN 42 00: Two 35
1 HEADER BEGAN BEGAN: Sequence(35)
1 HEADER BEGAN 4F 40: Record(35)
1 HEADER BEGAN 45 03 41 NEXT: Record(37)
1 HEADER BEGAN 45 03 NEXT 41: Full(37)
1 HEADER BEGAN 45 03 BEGAN NEXT: Repeated(37)
1 HEADER BEGAN 45 03 43 05 41: Sequence(37)
10 HEADER 42 00 00 00 00 00 00 00 01 00 00 00 00 65 53 F1 00 40: Record(4)
10 HEADER 42 00 00 00 00 00 00 00 01 00 00 00 00 65 53 F1 00 05 00: Record(4)
10 HEADER 42 00 00 00 00 00 00 00 01 00 00 00 00 65 53 F1 00 05 73: Two 4
10 HEADER 42 00 00 00 00 00 00 00 01 00 00 00 00 65 53 F1 00 05 74: Record(4)
10 HEADER 42 00 00 00 00 00 00 00 01 00 00 00 00 65 53 F1 00 05 73 05: Record(4)
10 42 00 00 00 00 00 00 00 01 05 73: One 0
10 42 00 00 00 00 00 00 00 01 05 73 05: Record(0)";

// The bytes of these words.
fn bytes_of(alloc: Global, text: &str) -> Result<Vec<u8>, Fail> {
    let mut bytes = Vec::new(alloc);
    for word in text.split_whitespace() {
        match word {
            "HEADER" => bytes.extend_from_slice(&HEADER)?,
            "BEGAN" => bytes.extend_from_slice(&BEGAN)?,
            "NEXT" => bytes.extend_from_slice(&NEXT)?,
            "OLD_BOTH" => bytes.extend_from_slice(&OLD_BOTH)?,
            digits => bytes.push(u8::from_str_radix(digits, 16)?)?,
        }
    }
    Ok(bytes)
}

// How these words load in a journal for at most `limit` orders.
fn load(alloc: Global, limit: u32, text: &str) -> Result<String, Fail> {
    let bytes = bytes_of(alloc, text)?;
    Ok(match Journal::load(alloc, limit, &bytes) {
        Ok((_, len, Version::One)) => format!(in alloc; "One {len}")?,
        Ok((_, len, Version::Two)) => format!(in alloc; "Two {len}")?,
        Err(fault) => format!(in alloc; "{fault:?}")?,
    })
}

// Tries a case.
fn load_case(alloc: Global, case: &str) -> Result<(), Fail> {
    let (words, expected) = case.split_once(": ").ok_or("a case")?;
    let (limit, text) = words.split_once(' ').unwrap_or((words, ""));
    let loaded = load(alloc, limit.parse()?, text)?;
    expect_that(loaded.as_str() == expected, case)
}

#[test]
fn what_bytes_load_as(rt: HostRuntime) -> Result<(), Fail> {
    for case in CASES.split('\n') {
        load_case(rt.alloc(), case)?;
    }
    Ok(())
}
