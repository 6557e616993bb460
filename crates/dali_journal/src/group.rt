// Whole groups of a journal's bytes of version 2, each an order that began and ended: nearly all of a long journal.
ghost use Rattle.std.specs.Prelude.{◌++◌, IsTrue, IfSome, IfOk, IfErr};
ghost use Rattle.dali_journal.specs.declared.version.Version.TheVariants.{One, Two};
ghost use Rattle.dali_journal.specs.Spelling.{header};
ghost use Rattle.dali_journal.specs.JournalState.{HoldsOrders};
ghost use Rattle.dali_journal.specs.Loading.{IsLoadFault};
ghost use Rattle.dali_journal.specs.GroupAhead.{AreUpdatesAbove, HasUpdates, HasBegan, HasEnd, HasGroup, IsFront};

use crate::fault::JournalFault;
use crate::index::IndexEntry;
use crate::record::Code;
use crate::version::{HEADER, Version};
use indexmap::IndexMap;
use std::alloc::Global;

// The least bytes of a group: a Began with one update, and an Ended.
const LEAST_BYTES: usize = 23;

// The whole groups in front of a journal's bytes: how many bytes they take, how many orders they are, and the index of
// these.
#[derive(Drop)]
pub(crate) struct Groups {
    pub(crate) len: usize,
    pub(crate) orders: u32,
    pub(crate) index: IndexMap<u64, IndexEntry>,
}

// The group of an order: its number, how it ended, and how many bytes it takes.
#[derive(Clone, Copy)]
pub(crate) struct Group {
    pub(crate) id: u64,
    pub(crate) code: Code,
    pub(crate) len: usize,
}

// The Began of an order: its number, its unit, and how many bytes it takes.
#[derive(Clone, Copy)]
struct Head {
    id: u64,
    unit: u8,
    len: usize,
}

// The whole groups in front of the bytes after a header, up to the limit.
//
// Repeated if a number comes twice; NoMemory.
pub(crate) fn groups_ahead(alloc: Global, limit: u32, bytes: &[u8]) -> Result<Groups, JournalFault>
    requires { HoldsOrders limit }
    ensures ok { IfOk result (λ groups. IsFront limit bytes.now groups.len groups.orders groups.index.entries) }
    ensures err { IfErr result (λ fault. IsLoadFault HoldsOrders limit (header Two ++ bytes.now) fault) }
{
    let most = (bytes.len() / LEAST_BYTES).min(limit as usize);
    let Ok(mut index) = IndexMap::with_capacity(alloc, most) else {
        return Err(JournalFault::NoMemory);
    };
    let mut orders = 0;
    let mut at = 0;
    while orders < limit {
        let Some(group) = group_ahead(&bytes[at..]) else {
            break;
        };
        match index.insert(group.id, IndexEntry::Ended(at, group.code)) {
            Ok(None) => {}
            Ok(Some(_)) => return Err(JournalFault::Repeated(HEADER.len() + at)),
            Err(_) => return Err(JournalFault::NoMemory),
        }
        orders += 1;
        at += group.len;
    }
    Ok(Groups {
        len: at,
        orders,
        index,
    })
}

// The whole group in front of the bytes. None if there is none.
fn group_ahead(bytes: &[u8]) -> Option<Group>
    ensures { IfSome result (λ group. HasGroup Two group.id group.code group.len bytes.now) }
{
    let Some(head) = head_ahead(bytes) else {
        return None;
    };
    match end_ahead(head.unit, &bytes[head.len..]) {
        Some((code, len)) => Some(Group {
            id: head.id,
            code,
            len: head.len + len,
        }),
        None => None,
    }
}

// The same of bytes of version 1.
pub(crate) fn old_group_ahead(bytes: &[u8]) -> Option<Group>
    ensures { IfSome result (λ group. HasGroup One group.id group.code group.len bytes.now) }
{
    let Some(head) = old_head_ahead(bytes) else {
        return None;
    };
    match end_ahead(head.unit, &bytes[head.len..]) {
        Some((code, len)) => Some(Group {
            id: head.id,
            code,
            len: head.len + len,
        }),
        None => None,
    }
}

// The Began in front of the bytes.
fn head_ahead(bytes: &[u8]) -> Option<Head>
    ensures { IfSome result (λ head. HasBegan Two head.id head.unit head.len bytes.now) }
{
    let Some((letter, rest)) = bytes.split_first() else {
        return None;
    };
    if *letter != b'B' {
        return None;
    }
    let Some((number, rest)) = rest.split_first_chunk::<8>() else {
        return None;
    };
    let Some((_moment, rest)) = rest.split_first_chunk::<8>() else {
        return None;
    };
    let Some(([unit, count], rest)) = rest.split_first_chunk::<2>() else {
        return None;
    };
    if *unit > 63 || *count < 1 || !has_updates(rest, *count) {
        return None;
    }
    Some(Head {
        id: u64::from_be_bytes(*number),
        unit: *unit,
        len: Version::Two.began_head_len() + 2 * *count as usize,
    })
}

// The same of bytes of version 1, which have no moment.
fn old_head_ahead(bytes: &[u8]) -> Option<Head>
    ensures { IfSome result (λ head. HasBegan One head.id head.unit head.len bytes.now) }
{
    let Some((letter, rest)) = bytes.split_first() else {
        return None;
    };
    if *letter != b'B' {
        return None;
    }
    let Some((number, rest)) = rest.split_first_chunk::<8>() else {
        return None;
    };
    let Some(([unit, count], rest)) = rest.split_first_chunk::<2>() else {
        return None;
    };
    if *unit > 63 || *count < 1 || !has_updates(rest, *count) {
        return None;
    }
    Some(Head {
        id: u64::from_be_bytes(*number),
        unit: *unit,
        len: Version::One.began_head_len() + 2 * *count as usize,
    })
}

// Whether this many updates of an order are in front of the bytes.
fn has_updates(bytes: &[u8], count: u8) -> bool
    ensures { IsTrue result → HasUpdates count 0 bytes.now }
{
    let most = 2 * count as usize;
    bytes.len() >= most && are_updates(&bytes[..most])
}

// Whether the bytes are updates of an order, each a location and its byte.
//
// Since locations rise, the lowest and the highest that an order may write need no test of each.
fn are_updates(bytes: &[u8]) -> bool
    ensures { IsTrue result → AreUpdatesAbove 0x02 bytes.now }
{
    let mut rest = bytes;
    let mut low = 0x02;
    while let Some(([location, _byte], after)) = rest.split_first_chunk::<2>() {
        if *location <= low || *location == 0x11 || *location == 0x12 {
            return false;
        }
        low = *location;
        rest = after;
    }
    low <= 0x77
}

// How the order of a unit ends whose other records are in front of the bytes, and how many bytes they take.
fn end_ahead(unit: u8, bytes: &[u8]) -> Option<(Code, usize)>
    ensures { IfSome result (λ end. HasEnd unit end.0 end.1 bytes.now) }
{
    match bytes {
        [b'E', 1, ..] => Some((Code::Short, 2)),
        [b'E', 2, ..] => Some((Code::Format, 2)),
        [b'E', 3, ..] => Some((Code::Silent, 2)),
        [b'O', opened, b'E', 0, ..] if *opened == unit => Some((Code::Done, 4)),
        [b'O', opened, b'E', 4, ..] if *opened == unit => Some((Code::Doubt, 4)),
        [b'O', opened, b'E', 5, b'C', closed, ..] if *opened == unit && *closed == unit => {
            Some((Code::DoubtOpen, 6))
        }
        _ => None,
    }
}
