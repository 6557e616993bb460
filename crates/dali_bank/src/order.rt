ghost use Rattle.std.specs.Prelude.{◌≡◌, ◌≤◌, ◌<◌, ◌↔◌, length, IsTrue, IsSome, IfSome};
ghost use Rattle.std.specs.List.{AllByRecursion};
ghost use Rattle.dali_bank.specs.Order.{IsWritable, RisesAbove, is_writable};

use arrayvec::ArrayVec;
use std::marker::Model;

/// The most updates of an order: the bytes of all fields.
pub const MOST_UPDATES: usize = 115;

/// The updates of an order, each a location of memory bank 1 and its byte.
pub(crate) type Updates = ArrayVec<(u8, u8), MOST_UPDATES>;

/// A numbered list of updates for the memory bank 1 of one unit.
///
/// The unit's short address is at most 63. There are 1 to 115 updates, each a location and a byte,
/// at rising locations in 03h to 10h or 13h to 77h.
#[derive(Drop)]
pub struct Order {
    id: u64,
    unit: u8,
    updates: Updates,
}

impl Model for Order {
    ghost use Rattle.std.specs.Prelude.{◌≤◌};
    ghost use Rattle.dali_bank.specs.Order.{Contents, AreUpdates};

    ghost Value = { Contents };

    ghost view = { λ o. record { id = o.id; unit = o.unit; updates = o.updates.items } };

    ghost invariant = { λ o. (o.unit ≤ 63) × AreUpdates o.updates.items };
}

impl Order {
    ghost use Rattle.dali_bank.specs.Order.{AreUpdates};

    // An order of these updates.
    pub(crate) fn new(id: u64, unit: u8, updates: Updates) -> Order
        requires unit { unit ≤ 63 }
        requires updates { AreUpdates updates.items }
        ensures { result ≡ record { id = id; unit = unit; updates = updates.items } }
    {
        Order { id, unit, updates }
    }

    /// The order of these parts, each pair a location and a byte.
    ///
    /// None if they make no order: if the short address is over 63, there aren't 1 to 115 pairs, or their locations
    /// don't rise or one isn't in 03h to 10h or 13h to 77h.
    pub fn from_pairs(id: u64, unit: u8, pairs: &[(u8, u8)]) -> Option<Order>
        ensures made { IsSome result ↔ ((unit ≤ 63) × AreUpdates pairs.now) }
        ensures parts { IfSome result (λ order. order ≡ record { id = id; unit = unit; updates = pairs.now }) }
    {
        if unit > 63 || pairs.is_empty() || pairs.len() > MOST_UPDATES {
            return None;
        }
        if !rise_in_places(0, pairs) {
            return None;
        }
        Some(Order::new(id, unit, updates_from(pairs)))
    }

    /// The same order again.
    pub fn copy(&self) -> Order
        ensures value { result ≡ self.now }
        ensures valid { AreUpdates result.updates }
    {
        Order::new(self.id, self.unit, updates_from(self.updates.as_slice()))
    }

    /// Whether both orders have the same number, unit and updates.
    pub fn same(&self, other: &Order) -> bool
        ensures { IsTrue result ↔ (self.now ≡ other.now) }
    {
        self.id == other.id
            && self.unit == other.unit
            && are_same(self.updates.as_slice(), other.updates.as_slice())
    }

    /// The order's number.
    pub fn id(&self) -> u64
        ensures { result ≡ self.now.id }
    {
        self.id
    }

    /// The short address of the order's unit, 0 to 63.
    pub fn unit(&self) -> u8
        ensures value { result ≡ self.now.unit }
        ensures short { result ≤ 63 }
    {
        self.unit
    }

    /// Locations and bytes, by rising location.
    pub fn updates(&self) -> &[(u8, u8)]
        ensures value { result.now ≡ self.now.updates }
        ensures valid { AreUpdates result.now }
    {
        self.updates.as_slice()
    }
}

// Whether both lists have the same pairs.
fn are_same(pairs: &[(u8, u8)], others: &[(u8, u8)]) -> bool
    ensures { IsTrue result ↔ (pairs.now ≡ others.now) }
{
    pairs == others
}

// Updates of these pairs.
fn updates_from(pairs: &[(u8, u8)]) -> Updates
    requires { length pairs.now ≤ 115 }
    ensures { result.items ≡ pairs.now }
{
    let mut updates = Updates::new();
    let _ = updates.try_extend_from_slice(pairs);
    updates
}

// Whether the locations rise from above the bound on, all in places that an order may write.
fn rise_in_places(bound: u8, pairs: &[(u8, u8)]) -> bool
    ensures { IsTrue result ↔ (RisesAbove bound pairs.now × AllByRecursion (λ update. IsWritable update.0) pairs.now) }
{
    match pairs {
        [] => true,
        [(location, _byte), rest @ ..] => {
            bound < *location && is_writable(*location) && rise_in_places(*location, rest)
        }
    }
}

/// Whether an order may write at the location: all fields of content format 0003h lie there (IEC 62386-251, fields).
pub fn is_writable(location: u8) -> bool
    ensures decided { result ≡ is_writable location }
    ensures held { IsTrue result ↔ IsWritable location }
{
    matches!(location, 0x03..=0x10 | 0x13..=0x77)
}
