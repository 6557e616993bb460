ghost use Rattle.std.specs.Prelude.{◌≡◌, ◌+◌, ◌*◌, ◌≤◌, ◌++◌, ◌∷◌, [], length};
ghost use Rattle.arrayvec.specs.ArrayVec.{array_vec_len};
ghost use Rattle.dali_journal.specs.declared.record.Record.TheVariants.{Began};
ghost use Rattle.dali_journal.specs.declared.version.Version.TheVariants.{Two};
ghost use Rattle.dali_journal.specs.Spelling.{spelling, order_spelling, pairs_spelling, code_number, code_name};
ghost use Rattle.dali_journal.specs.Spelling.{NamesShortUnit, IsRecord};

use arrayvec::ArrayVec;
use dali_bank::Order;
use std::fmt;

/// The most bytes of a record: those of an order with 115 updates.
pub(crate) const MOST_BYTES: usize = 249;

/// How an order ended (profile).
#[derive(Clone, Copy, PartialEq, Eq)]
pub enum Code {
    /// Each update's location was read back and held its byte, and the unit was closed.
    Done = 0,
    /// The unit's bank 1 is too short. Nothing was written.
    Short = 1,
    /// The content format isn't 0003h. Nothing was written.
    Format = 2,
    /// A checked read failed in each of its eight tries. Nothing was written.
    Silent = 3,
    /// Each location holds its old byte or the new one, and the unit was closed.
    Doubt = 4,
    /// As `Doubt`, but the unit may still be write-enabled.
    DoubtOpen = 5,
}

impl Code {
    /// The code's number in the journal's bytes, 0 to 5.
    pub fn number(&self) -> u8
        ensures { result ≡ code_number self.now }
    {
        *self as u8
    }

    /// The code's name, at most nine bytes.
    pub fn name(&self) -> &'static str
        ensures name { result.now ≡ code_name self.now }
        ensures short { length result.now ≤ 9 }
    {
        match self {
            Code::Done => "Done",
            Code::Short => "Short",
            Code::Format => "Format",
            Code::Silent => "Silent",
            Code::Doubt => "Doubt",
            Code::DoubtOpen => "DoubtOpen",
        }
    }
}

impl fmt::Display for Code {
    ghost use Rattle.std.specs.Prelude.{Some};

    ghost output = { λ code. Some (code_name code) };

    fn fmt<W: fmt::Write>(&self, f: &mut fmt::Formatter<W>) -> fmt::Result {
        f.write_str(self.name())
    }
}

/// A record of the journal (profile). A unit is a short address, 0 to 63.
#[derive(Drop)]
pub enum Record {
    /// The order was begun. It had been submitted at this moment, a number that the caller hands in.
    Began(Order, u64),
    /// The order's unit may be write-enabled from here on.
    Opened(u8),
    /// The order ended so.
    Ended(Code),
    /// The unit that was left was closed.
    Closed(u8),
}

impl Record {
    /// The record's bytes in version 2, 2 to 249 (profile): a letter, and then for `Began` (B, 42h) the order's
    /// number and the moment, each in 8 bytes, the most significant first, its unit, the number of its
    /// updates and each update's location and byte; for `Opened` (O, 4Fh) and `Closed` (C, 43h) the unit;
    /// for `Ended` (E, 45h) the code's number.
    ///
    /// A record that names no unit over 63 has its numbers in their ranges: the types tell the rest.
    pub fn bytes(&self) -> ArrayVec<u8, MOST_BYTES>
        ensures spelled { result.items ≡ spelling Two self.now }
        ensures in_range { NamesShortUnit self.now → IsRecord Two self.now }
    {
        match self {
            Record::Began(order, moment) => {
                let bytes = began_bytes(order, *moment);
                tell_range(order, *moment, &bytes);
                bytes
            }
            Record::Opened(unit) => two_bytes(b'O', *unit),
            Record::Ended(code) => two_bytes(b'E', code.number()),
            Record::Closed(unit) => two_bytes(b'C', *unit),
        }
    }
}

// A letter and one byte.
fn two_bytes(letter: u8, byte: u8) -> ArrayVec<u8, MOST_BYTES>
    ensures { result.items ≡ letter ∷ byte ∷ [] }
{
    let mut bytes = ArrayVec::new();
    bytes.push(letter);
    bytes.push(byte);
    bytes
}

// The bytes of a record that begins an order.
fn began_bytes(order: &Order, moment: u64) -> ArrayVec<u8, MOST_BYTES>
    ensures { result.items ≡ 0x42 ∷ order_spelling Two order.now moment }
{
    let updates = order.updates();
    let mut bytes = ArrayVec::new();
    bytes.push(b'B');
    let _ = bytes.try_extend_from_slice(&order.id().to_be_bytes());
    let _ = bytes.try_extend_from_slice(&moment.to_be_bytes());
    bytes.push(order.unit());
    bytes.push(updates.len() as u8);
    push_pairs(&mut bytes, updates);
    bytes
}

// The numbers of an order that these bytes spell are in their ranges. It does nothing.
fn tell_range(order: &Order, moment: u64, bytes: &[u8])
    requires { bytes.now ≡ spelling Two (Began order.now moment) }
    ensures { IsRecord Two (Began order.now moment) }
{
    let _id = order.id();
    let _unit = order.unit();
    let _updates = order.updates();
}

// Puts each location and its byte at the end.
fn push_pairs(bytes: &mut ArrayVec<u8, MOST_BYTES>, pairs: &[(u8, u8)])
    requires { array_vec_len bytes.old + 2 * length pairs.now ≤ 249 }
    ensures { bytes.new.items ≡ bytes.old.items ++ pairs_spelling pairs.now }
{
    for &(location, byte) in pairs {
        bytes.push(location);
        bytes.push(byte);
    }
}
