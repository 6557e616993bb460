ghost use Rattle.std.specs.Prelude.{◌≡◌, ◌≤◌, slice_get, IfSome, All, true, false};
ghost use Rattle.dali_frame.specs.Frame.{IsProper};
ghost use Rattle.dali_write.specs.Requests.{select_requests, put_requests, write_requests};
ghost use Rattle.dali_write.specs.Requests.{access_requests};
ghost use Rattle.dali_write.specs.Causes.{failure};

use crate::ask::Cause;
use crate::block::Block;
use crate::request::{Request, Wish};
use crate::row::next_to;
use dali_frame::Frame;

/// An access to bank 1: a read of a block, or a checked write of a byte to a location.
#[derive(Clone, Copy)]
pub(crate) enum Access {
    ReadFrom(Block),
    WriteTo(u8, u8),
    /// To the second location, just after a write to the first: its first try takes the unit as that one left it.
    WriteOn(u8, u8, u8),
}

impl Access {
    // Why a session ends of which this access failed.
    pub(crate) fn failure(self) -> Cause
        ensures { result ≡ failure self }
    {
        match self {
            Access::ReadFrom(block) => Cause::Unread(block.location),
            Access::WriteTo(location, _) | Access::WriteOn(_, location, _) => Cause::Unwritten(
                location,
            ),
        }
    }

    // The frame of a try of this access after this many that missed that has a number, counted from 0.
    pub(crate) fn request(self, unit: u8, misses: u8, number: usize) -> Option<Request>
        ensures request { result ≡ slice_get (access_requests unit self misses) number }
        ensures proper { unit ≤ 63 → IfSome result (λ request. IsProper request.frame) }
    {
        match self {
            Access::ReadFrom(block) => block.request(unit, number),
            Access::WriteOn(before, location, byte) if misses == 0 => {
                if next_to(before) == location {
                    put(unit, location, byte).get(number).copied()
                } else {
                    put_elsewhere(unit, location, byte).get(number).copied()
                }
            }
            Access::WriteTo(location, byte) | Access::WriteOn(_, location, byte) => {
                checked_write(unit, location, byte).get(number).copied()
            }
        }
    }
}

/// The frames that select a location of memory bank 1 at a unit, and make sure of it: they set DTR1 and DTR0, and ask
/// each back (IEC 62386-102: memory access).
///
/// They are proper if the short address is at most 63.
pub fn selection(unit: u8, location: u8) -> [Request; 4]
    ensures requests { result ≡ select_requests unit location }
    ensures proper { unit ≤ 63 → All (λ request. IsProper request.frame) result }
{
    [
        request(Frame::Dtr1(1), Wish::Nothing),
        request(Frame::AskDtr1(unit), Wish::Exactly(1)),
        request(Frame::Dtr0(location), Wish::Nothing),
        request(Frame::AskDtr0(unit), Wish::Exactly(location)),
    ]
}

// The frames of a write at a unit that is enabled and has bank 1 selected, and whose DTR0 has moved to the location.
fn put(unit: u8, location: u8, byte: u8) -> [Request; 3]
    ensures requests { result ≡ put_requests true unit location byte }
    ensures proper { unit ≤ 63 → All (λ request. IsProper request.frame) result }
{
    let [_, bank_back, _, place_back] = selection(unit, location);
    let write = request(Frame::Write(byte), Wish::Exactly(byte));
    [bank_back, place_back, write]
}

// The same if DTR0 holds another location. It is set before both are asked back: so a question that is heard as a write
// writes to this location, too.
fn put_elsewhere(unit: u8, location: u8, byte: u8) -> [Request; 4]
    ensures requests { result ≡ put_requests false unit location byte }
    ensures proper { unit ≤ 63 → All (λ request. IsProper request.frame) result }
{
    let [bank_back, place_back, write] = put(unit, location, byte);
    let place = request(Frame::Dtr0(location), Wish::Nothing);
    [place, bank_back, place_back, write]
}

// The frames of a checked write.
fn checked_write(unit: u8, location: u8, byte: u8) -> [Request; 7]
    ensures requests { result ≡ write_requests unit location byte }
    ensures proper { unit ≤ 63 → All (λ request. IsProper request.frame) result }
{
    let enable = request(Frame::Enable(unit), Wish::Nothing);
    let [bank, bank_back, place, place_back] = selection(unit, location);
    let write = request(Frame::Write(byte), Wish::Exactly(byte));
    [enable, enable, bank, bank_back, place, place_back, write]
}

pub(crate) fn request(frame: Frame, wish: Wish) -> Request
    ensures { result ≡ record { frame = frame; wish = wish } }
{
    Request { frame, wish }
}
