ghost use Rattle.std.specs.Prelude.{◌≡◌, ◌≤◌, length, None};
ghost use Rattle.dali_read.specs.Places.{order_course};
ghost use Rattle.dali_read.specs.Findings.{IsFound, IsFirstOther, told_bytes as told};

use dali_bank::Order;
use dali_write::greatest_location;

/// How memory bank 1 of an order's unit compares with the order (profile).
#[derive(Clone, Copy, PartialEq, Eq)]
pub enum Finding {
    /// Each location that the order writes holds the order's byte.
    Same,
    /// This location, the first one that the order writes and that doesn't hold the order's byte, holds this one.
    Other(u8, u8),
    /// The bank is too short for the order.
    Short,
    /// The content format isn't 0003h, and the order writes from 13h on.
    Format,
}

/// The finding that the bytes read for the order show, in the blocks of `Places::Order`, to the end.
#[tactic(auto, using(crate::proofs::FindingLemmas::found_plain, crate::proofs::FindingLemmas::found_formatted))]
pub fn compare(order: &Order, bytes: &[u8]) -> Finding
    requires { order_course order.now.updates bytes.now ≡ None }
    ensures { IsFound order.now.updates bytes.now result }
{
    let updates = order.updates();
    let greatest = greatest_location(updates);
    match bytes {
        [last, ..] if *last < greatest => Finding::Short,
        #[tactic(auto, using(crate::proofs::FindingLemmas::enough_plain))]
        [_, bytes @ ..] if greatest < 0x13 => first_other(updates, bytes),
        #[tactic(auto, using(crate::proofs::FindingLemmas::enough_formatted))]
        [_, 0x00, 0x03, bytes @ ..] => first_other(updates, bytes),
        _ => Finding::Format,
    }
}

/// The bytes of the locations that the order writes, one after the other as far as they were read, of all bytes that
/// were read for it in the blocks of `Places::Order`.
pub fn told_bytes<'a>(order: &Order, bytes: &'a [u8]) -> &'a [u8]
    ensures { result.now ≡ told order.now.updates bytes.now }
{
    match bytes {
        [_, told @ ..] if greatest_location(order.updates()) < 0x13 => told,
        [_, _, _, told @ ..] => told,
        _ => &[],
    }
}

// Whether the first bytes are those of the updates, and else the first other one.
fn first_other(updates: &[(u8, u8)], bytes: &[u8]) -> Finding
    requires { length updates.now ≤ length bytes.now }
    ensures { IsFirstOther updates.now bytes.now result }
{
    let [(location, own), updates @ ..] = updates else {
        return Finding::Same;
    };
    let [byte, bytes @ ..] = bytes else {
        return Finding::Same;
    };
    if byte == own {
        first_other(updates, bytes)
    } else {
        Finding::Other(*location, *byte)
    }
}
