ghost use Rattle.std.specs.Prelude.{◌≡◌, ◌≤◌, ◌+◌, ◌++◌, Some, None, IfOk, IfErr, OnOk, IfSome, IsNone, length, false};
ghost use Rattle.dali_read.specs.Places.{course_of};
ghost use Rattle.dali_drive.specs.Transcript.{link_shown};
ghost use Rattle.dali_drive.specs.Driven.{FailedAs, LinkEnds};
ghost use Rattle.dali_drive.specs.UnitRead.{CanRead, BlockTold, BlockFailed, BlockBroke, IsUnitRead, UnitReadBroke};

use crate::link::exchange;
use crate::streams::{Sink, Source};
use arrayvec::ArrayVec;
use dali_read::{Block, Places};
use dali_trace::DriveFault;
use dali_write::{Ask, Session, Verdict};

// The most bytes of a bank that can be read.
pub(crate) const MOST_OF_BANK: usize = 255;

// Keeps the bytes of a block.
fn keep_block(bytes: &mut ArrayVec<u8, MOST_OF_BANK>, more: &[u8])
    requires { length bytes.old.items + length more.now ≤ 255 }
    ensures { bytes.new.items ≡ bytes.old.items ++ more.now }
{
    let _fits = bytes.try_extend_from_slice(more);
}

// Reads a block: its bytes, or none if all tries missed.
fn read_block<I: Source, L: Sink>(
    unit: u8,
    block: Block,
    link_in: &mut I,
    link_out: &mut L,
) -> Result<Option<ArrayVec<u8, MOST_OF_BANK>>, DriveFault>
    requires ready { CanRead unit block (L.failed link_out.old) (I.failed link_in.old) }
    ensures read { IfOk result (λ outcome. IfSome outcome (λ bytes. BlockTold unit block bytes.items
        (link_shown (L.held link_out.old) (I.left link_in.old))
        (link_shown (L.held link_out.new) (I.left link_in.new)))) }
    ensures silent { IfOk result (λ outcome. IsNone outcome → BlockFailed unit block
        (link_shown (L.held link_out.old) (I.left link_in.old))
        (link_shown (L.held link_out.new) (I.left link_in.new))) }
    ensures broken { IfErr result (λ fault. BlockBroke unit block fault
        (link_shown (L.held link_out.old) (I.left link_in.old))
        (link_shown (L.held link_out.new) (I.left link_in.new))) }
    ensures ends { LinkEnds result (L.failed link_out.new) (I.failed link_in.new) false }
{
    let mut session = Session::reading_block(unit, block);
    let verdict = loop {
        match session.want() {
            Ask::Send(frame) => session.heard(exchange(&frame, link_in, link_out)?),
            Ask::Ended(verdict) => break verdict,
        }
    };
    match verdict {
        Verdict::Read => {
            let mut bytes = ArrayVec::new();
            keep_block(&mut bytes, session.bytes());
            Ok(Some(bytes))
        }
        _ => Ok(None),
    }
}

/// Reads locations of memory bank 1 of the unit at a short address, at most 63, block by block (profile): gives their
/// bytes in this order, or none where eight tries of one block missed.
///
/// The link is used as by `drive`, and nothing is written to a unit and none is write-enabled: each frame sets DTR0 or
/// DTR1, asks for one of them or reads. No stream of the link may have failed.
///
/// `Link`, `Line`, `End` and `TooLong` say what ended it. It is simply begun anew then.
pub fn read_unit<I: Source, L: Sink>(
    unit: u8,
    places: &Places,
    link_in: &mut I,
    link_out: &mut L,
) -> Result<Option<ArrayVec<u8, MOST_OF_BANK>>, DriveFault>
    requires unit { unit ≤ 63 }
    requires link_in { I.failed link_in.old ≡ false }
    requires link_out { L.failed link_out.old ≡ false }
    ensures read { IfOk result (λ outcome. IfSome outcome (λ bytes. IsUnitRead unit (course_of places.now)
        (Some bytes.items) (link_shown (L.held link_out.old) (I.left link_in.old))
        (link_shown (L.held link_out.new) (I.left link_in.new)))) }
    ensures silent { IfOk result (λ outcome. IsNone outcome → IsUnitRead unit (course_of places.now) None
        (link_shown (L.held link_out.old) (I.left link_in.old))
        (link_shown (L.held link_out.new) (I.left link_in.new))) }
    ensures broken { IfErr result (λ fault. UnitReadBroke unit (course_of places.now) fault
        (link_shown (L.held link_out.old) (I.left link_in.old))
        (link_shown (L.held link_out.new) (I.left link_in.new))) }
    ensures ok { OnOk result ((I.failed link_in.new ≡ false) × (L.failed link_out.new ≡ false)) }
    ensures err { IfErr result (λ fault. FailedAs fault false (L.failed link_out.new) (I.failed link_in.new) false) }
{
    let mut bytes = ArrayVec::new();
    while let Some(block) = places.next(&bytes) {
        let Some(more) = read_block(unit, block, link_in, link_out)? else {
            return Ok(None);
        };
        keep_block(&mut bytes, &more);
    }
    Ok(Some(bytes))
}
