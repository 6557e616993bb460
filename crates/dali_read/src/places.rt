ghost use Rattle.std.specs.Prelude.{◌≡◌, ◌+◌, ◌≤◌, drop, length, min, IfSome};
ghost use Rattle.dali_bank.specs.Order.{AreUpdates};
ghost use Rattle.dali_write.specs.Blocks.{Fits};
ghost use Rattle.dali_read.specs.Places.{course_of, bank_course, identity_course, order_course, row_of, in_a_row};

use dali_bank::Order;
use dali_write::{Block, greatest_location};

// The most locations of a block.
const MOST_LOCATIONS: u8 = 16;

// The location that names the last one.
const FIRST: Block = Block {
    location: 0x00,
    count: 1,
};

// The GTIN and the identification number.
const IDENTITY: Block = Block {
    location: 0x03,
    count: 14,
};

// The content format.
const FORMAT: Block = Block {
    location: 0x11,
    count: 2,
};

/// Which locations of a unit's memory bank 1 are to be read (profile).
#[derive(Clone, Copy)]
pub enum Places<'a> {
    /// 00h alone, which names the last location.
    Last,
    /// 00h, and all up to the location that it names, at most up to FEh.
    Bank,
    /// 00h, and if that names 10h or a location after it, the GTIN and the identification number, 03h to 10h.
    Identity,
    /// 00h; 11h and 12h if the order writes from 13h on; and, if these suit it, each location that it writes.
    Order(&'a Order),
}

impl Places<'_> {
    /// The next block to read, if these bytes were read before: none at the end.
    pub fn next(&self, bytes: &[u8]) -> Option<Block>
        ensures next { result ≡ course_of self.now bytes.now }
        ensures fits { IfSome result Fits }
        ensures few { IfSome result (λ block. length bytes.now + block.count ≤ 255) }
    {
        match self {
            Places::Last => bytes.is_empty().then_some(FIRST),
            Places::Bank => bank_block(bytes),
            Places::Identity => identity_block(bytes),
            Places::Order(order) => order_block(order.updates(), bytes),
        }
    }
}

// The next block of a whole bank.
fn bank_block(bytes: &[u8]) -> Option<Block>
    ensures next { result ≡ bank_course bytes.now }
    ensures fits { IfSome result Fits }
    ensures few { IfSome result (λ block. length bytes.now + block.count ≤ 255) }
{
    let [last, more @ ..] = bytes else {
        return Some(FIRST);
    };
    let end = (*last).min(0xFE);
    if more.len() >= usize::from(end) {
        return None;
    }
    let read = more.len() as u8;
    Some(Block {
        location: read + 1,
        count: (end - read).min(MOST_LOCATIONS),
    })
}

// The next block of a unit's identity.
fn identity_block(bytes: &[u8]) -> Option<Block>
    ensures next { result ≡ identity_course bytes.now }
    ensures fits { IfSome result Fits }
    ensures few { IfSome result (λ block. length bytes.now + block.count ≤ 255) }
{
    match bytes {
        [] => Some(FIRST),
        [last] if *last >= 0x10 => Some(IDENTITY),
        _ => None,
    }
}

// The next block of an order of these updates.
fn order_block(updates: &[(u8, u8)], bytes: &[u8]) -> Option<Block>
    requires { AreUpdates updates.now }
    ensures next { result ≡ order_course updates.now bytes.now }
    ensures fits { IfSome result Fits }
    ensures few { IfSome result (λ block. length bytes.now + block.count ≤ 255) }
{
    let [last, more @ ..] = bytes else {
        return Some(FIRST);
    };
    let greatest = greatest_location(updates);
    if *last < greatest {
        return None;
    }
    if greatest < 0x13 {
        return row_block(updates, more.len());
    }
    match more {
        [] => Some(FORMAT),
        [_] => Some(Block {
            location: 0x12,
            count: 1,
        }),
        [0x00, 0x03, found @ ..] => row_block(updates, found.len()),
        _ => None,
    }
}

// The locations of the updates from this one on that are in a row.
fn row_block(updates: &[(u8, u8)], from: usize) -> Option<Block>
    requires { AreUpdates updates.now }
    ensures next { result ≡ row_of (drop from updates.now) }
    ensures fits { IfSome result Fits }
    ensures few { IfSome result (λ block. from + block.count ≤ length updates.now) }
{
    let rest = updates.get(from..)?;
    let &(location, _) = rest.first()?;
    Some(Block {
        location,
        count: row_length(location, MOST_LOCATIONS, rest),
    })
}

// How many of the updates, at most `most`, are in a row from the location on.
fn row_length(location: u8, most: u8, updates: &[(u8, u8)]) -> u8
    requires { location + most ≤ 255 }
    ensures value { result ≡ min (in_a_row location updates.now) most }
    ensures few { result ≤ length updates.now }
{
    match updates {
        [(next, _), more @ ..] if most > 0 && *next == location => {
            1 + row_length(location + 1, most - 1, more)
        }
        _ => 0,
    }
}
