// How many frames an order takes where nothing is lost, by the counts of docs/SESSIONS.md and docs/READING.md. They are
// for a person: nothing hangs on them.
use dali_bank::Order;
use dali_write::Pace;

// The lock byte comes before all updates, and is read back with them.
const LOCK: u8 = 0x02;

// An order that writes here or above asks for the content format first.
const BEHIND_FORMAT: u8 = 0x13;

// The most locations that are read in a row.
const MOST_IN_ROW: u64 = 16;

/// To close a unit that was left.
pub(crate) const CLOSING: u64 = 14;

/// Of an order that is done.
pub(crate) fn drive_frames(order: &Order, pace: Pace) -> u64 {
    let updates = order.updates();
    let count = updates.len() as u64;
    let rows = rows_from(Some(LOCK), updates, MOST_IN_ROW);
    let runs = rows_from(Some(LOCK), updates, u64::MAX);
    match (pace, has_format(updates)) {
        (Pace::Checked, false) => frames(14, count, 0, 28),
        (Pace::Checked, true) => frames(14, count, 0, 42),
        (Pace::Short, false) => frames(4, count, rows, runs.saturating_add(18)),
        (Pace::Short, true) => frames(4, count, rows, runs.saturating_add(26)),
    }
}

/// Of an order with which a unit is compared.
pub(crate) fn verify_frames(order: &Order) -> u64 {
    let updates = order.updates();
    let count = updates.len() as u64;
    let rows = rows_from(None, updates, MOST_IN_ROW);
    if has_format(updates) {
        frames(1, count, rows, 15)
    } else {
        frames(1, count, rows, 7)
    }
}

// So many for each update, six for each row, and the rest.
fn frames(each: u64, updates: u64, rows: u64, rest: u64) -> u64 {
    let of_updates = updates.saturating_mul(each);
    let of_rows = rows.saturating_mul(6);
    of_updates.saturating_add(of_rows).saturating_add(rest)
}

// Whether the last of the updates, which rise by location, is past the content format.
fn has_format(updates: &[(u8, u8)]) -> bool {
    match updates {
        [.., (location, _)] => *location >= BEHIND_FORMAT,
        [] => false,
    }
}

// How many rows of at most `most` neighbours there are, the first of which begins before the updates if a location is
// named.
fn rows_from(first: Option<u8>, updates: &[(u8, u8)], most: u64) -> u64 {
    let mut before = first;
    let mut rows = u64::from(first.is_some());
    let mut length = rows;
    for &(location, _) in updates {
        if before == location.checked_sub(1) && length > 0 && length < most {
            length = length.saturating_add(1);
        } else {
            rows = rows.saturating_add(1);
            length = 1;
        }
        before = Some(location);
    }
    rows
}
