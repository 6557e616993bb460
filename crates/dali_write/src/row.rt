ghost use Rattle.std.specs.Prelude.{◌≡◌, ◌∷◌, ◌≤◌, ℕ, length, drop, take, map};
ghost use Rattle.std.specs.Str.{bytes_eq};
ghost use Rattle.dali_bus.specs.Hears.{up};
ghost use Rattle.dali_write.specs.Plans.{rows_of, read_backs};
ghost use Rattle.dali_write.specs.Causes.{another, is_wanted};

use crate::ask::Cause;

/// How many of the updates after a location are in one row with it, if a row has at most `most` locations.
pub(crate) fn others_in_row(most: usize, location: u8, behind: &[(u8, u8)]) -> usize
    requires { most ≤ 16 }
    ensures rows { (byte : ℕ) → rows_of most ((location, byte) ∷ behind.now)
        ≡ (location, byte ∷ map (λ update. update.1) (take result behind.now)) ∷ rows_of most (drop result behind.now) }
    ensures few { result ≤ 15 }
    ensures within { result ≤ length behind.now }
{
    match behind {
        [(next, _), more @ ..] if *next == next_to(location) => {
            let others = 1 + others_in_row(most, *next, more);
            if others < most { others } else { 0 }
        }
        _ => 0,
    }
}

/// Whether these bytes were read: this one, and those of the first `others` updates.
pub(crate) fn holds(read: &[u8], byte: u8, others: usize, behind: &[(u8, u8)]) -> bool
    ensures { result ≡ bytes_eq read.now (byte ∷ map (λ update. update.1) (take others behind.now)) }
{
    match read {
        [first, more @ ..] if *first == byte => match behind {
            [(_, next), behind @ ..] if others > 0 => holds(more, *next, others - 1, behind),
            _ => more.is_empty(),
        },
        _ => false,
    }
}

/// The first of these bytes, read from a location on, that isn't the one that has to be there after the writes of these
/// updates; if each is, the last one.
pub(crate) fn another(updates: &[(u8, u8)], location: u8, read: &[u8]) -> Cause
    ensures { result ≡ another (read_backs updates.now) location read.now }
{
    match read {
        [] => Cause::Another(location, 0x00),
        [byte] => Cause::Another(location, *byte),
        [byte, more @ ..] => {
            if is_written(updates, location, *byte) {
                another(updates, next_to(location), more)
            } else {
                Cause::Another(location, *byte)
            }
        }
    }
}

// Whether the byte has to be at the location after the writes of these updates: the lock byte is FFh.
fn is_written(updates: &[(u8, u8)], location: u8, byte: u8) -> bool
    ensures { result ≡ is_wanted (read_backs updates.now) location byte }
{
    if location == 0x02 {
        byte == 0xFF
    } else {
        is_update(updates, location, byte)
    }
}

// Whether the first of these updates at a location has this byte.
fn is_update(updates: &[(u8, u8)], location: u8, byte: u8) -> bool
    ensures { result ≡ is_wanted updates.now location byte }
{
    match updates {
        [] => false,
        [(at, own), more @ ..] => {
            if *at == location {
                *own == byte
            } else {
                is_update(more, location, byte)
            }
        }
    }
}

/// The location that DTR0 holds after a read or a write of this location.
#[tactic(auto, using(crate::proofs::PlaceLemmas::up_is))]
pub(crate) fn next_to(location: u8) -> u8
    ensures { result ≡ up location }
{
    location.saturating_add(1)
}
