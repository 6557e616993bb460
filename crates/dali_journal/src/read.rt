ghost use Rattle.std.specs.Prelude.{◌≡◌, ◌≤◌};
ghost use Rattle.dali_journal.specs.declared.version.Version.TheVariants.{One, Two};
ghost use Rattle.dali_journal.specs.Reading.{IsRead};
ghost use Rattle.dali_journal.specs.Decoding.{piece_of, code_numbered, order_piece, numbered_piece};
ghost use Rattle.dali_journal.specs.Decoding.{timed_piece, counted_piece, pairs_of, fits, places_above};

use crate::record::{Code, Record};
use crate::version::Version;
use arrayvec::ArrayVec;
use dali_bank::{MOST_UPDATES, Order, is_writable};

/// The piece that some bytes begin with (profile).
#[derive(Drop)]
pub enum Piece {
    /// A record, with its length.
    Whole(Record, usize),
    /// The bytes are a proper prefix of some record's, as the empty list is.
    Cut,
    /// Neither a record nor a proper prefix of one.
    Bad,
}

// The pairs that the bytes after a count begin with.
#[derive(Drop)]
pub(crate) enum Pairs {
    Whole(ArrayVec<(u8, u8), MOST_UPDATES>),
    Cut,
    Bad,
}

impl Record {
    /// The piece that the bytes begin with in version 2 (profile): a whole record with its length, 2 to 249, or a cut
    /// one, or neither.
    ///
    /// A cut record is all of the bytes, and can be filled up to a whole one: each location of a cut
    /// `Began` leaves as many writable locations above it as are still to come.
    pub fn read(bytes: &[u8]) -> Piece
        ensures { IsRead Two bytes.now result }
    {
        Record::read_in(Version::Two, bytes)
    }

    /// The same of version 1 (profile), in which a `Began` has no moment, and 2 to 241 bytes: it is 0.
    pub fn read_old(bytes: &[u8]) -> Piece
        ensures { IsRead One bytes.now result }
    {
        Record::read_in(Version::One, bytes)
    }

    // The piece that the bytes begin with in a version.
    pub(crate) fn read_in(version: Version, bytes: &[u8]) -> Piece
        ensures { IsRead version bytes.now result }
    {
        piece_of(version, bytes)
    }
}

// The piece that the bytes begin with, byte by byte.
fn piece_of(version: Version, bytes: &[u8]) -> Piece
    ensures { result ≡ piece_of version bytes.now }
{
    match bytes {
        [] | [b'O' | b'E' | b'C'] => Piece::Cut,
        [b'B', rest @ ..] => read_order(version, rest),
        [b'O', unit, ..] if *unit <= 63 => Piece::Whole(Record::Opened(*unit), 2),
        [b'E', number, ..] if *number <= 5 => Piece::Whole(
            Record::Ended(code_numbered(*number)),
            2,
        ),
        [b'C', unit, ..] if *unit <= 63 => Piece::Whole(Record::Closed(*unit), 2),
        _ => Piece::Bad,
    }
}

// The code of a number of at most 5.
fn code_numbered(number: u8) -> Code
    ensures { result ≡ code_numbered number }
{
    match number {
        0 => Code::Done,
        1 => Code::Short,
        2 => Code::Format,
        3 => Code::Silent,
        4 => Code::Doubt,
        _ => Code::DoubtOpen,
    }
}

// The piece of a `Began` from its bytes after the letter.
fn read_order(version: Version, bytes: &[u8]) -> Piece
    ensures { result ≡ order_piece version bytes.now }
{
    match bytes.split_first_chunk::<8>() {
        None => Piece::Cut,
        Some((number, rest)) => read_numbered(version, u64::from_be_bytes(*number), rest),
    }
}

// The piece of a `Began` from its bytes after the order's number.
fn read_numbered(version: Version, id: u64, bytes: &[u8]) -> Piece
    ensures { result ≡ numbered_piece version id bytes.now }
{
    match version {
        Version::One => read_timed(version, id, 0, bytes),
        Version::Two => match bytes.split_first_chunk::<8>() {
            None => Piece::Cut,
            Some((moment, rest)) => read_timed(version, id, u64::from_be_bytes(*moment), rest),
        },
    }
}

// The piece of a `Began` from its bytes after the order's number and moment.
fn read_timed(version: Version, id: u64, moment: u64, bytes: &[u8]) -> Piece
    ensures { result ≡ timed_piece version id moment bytes.now }
{
    match bytes {
        [] => Piece::Cut,
        [unit, rest @ ..] if *unit <= 63 => read_counted(version, id, moment, *unit, rest),
        _ => Piece::Bad,
    }
}

// The piece of a `Began` from its bytes after the unit.
fn read_counted(version: Version, id: u64, moment: u64, unit: u8, bytes: &[u8]) -> Piece
    requires { unit ≤ 63 }
    ensures { result ≡ counted_piece version id moment unit bytes.now }
{
    let Some((count, rest)) = bytes.split_first() else {
        return Piece::Cut;
    };
    let count = *count;
    if count < 1 || count > 115 {
        return Piece::Bad;
    }
    match read_pairs(rest, count) {
        Pairs::Cut => Piece::Cut,
        Pairs::Bad => Piece::Bad,
        Pairs::Whole(pairs) => match Order::from_pairs(id, unit, &pairs) {
            Some(order) => {
                let len = version.began_head_len() + 2 * count as usize;
                Piece::Whole(Record::Began(order, moment), len)
            }
            None => Piece::Bad,
        },
    }
}

// The pairs that the bytes after the count begin with.
fn read_pairs(bytes: &[u8], count: u8) -> Pairs
    requires { count ≤ 115 }
    ensures { result ≡ pairs_of count 0 bytes.now }
{
    let mut pairs = ArrayVec::new();
    let mut low = 0;
    let mut rest = bytes;
    let mut to_come = count;
    while to_come > 0 {
        to_come -= 1;
        let Some((location, after)) = rest.split_first() else {
            return Pairs::Cut;
        };
        if !fits(to_come, low, *location) {
            return Pairs::Bad;
        }
        let Some((byte, after)) = after.split_first() else {
            return Pairs::Cut;
        };
        pairs.push((*location, *byte));
        low = *location;
        rest = after;
    }
    Pairs::Whole(pairs)
}

// Whether a location may follow another, with this many more after it.
fn fits(to_come: u8, low: u8, location: u8) -> bool
    ensures { result ≡ fits to_come low location }
{
    is_writable(location) && low < location && to_come <= places_above(location)
}

// How many locations above one an order may write.
fn places_above(location: u8) -> u8
    ensures { result ≡ places_above location }
{
    0x10u8.saturating_sub(location.max(0x02)) + 0x77u8.saturating_sub(location.max(0x12))
}
