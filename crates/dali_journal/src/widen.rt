// A journal's bytes of version 1, in version 2.
ghost use Rattle.std.specs.Prelude.{◌≡◌, ◌≤◌, ◌++◌, length, take, drop, IfOk, OnOk};
ghost use Rattle.std.specs.Int.{w64, to_be_bytes};
ghost use Rattle.dali_journal.specs.GroupAhead.{AreWidened};

use crate::fault::NoMemory;
use crate::group::old_group_ahead;
use std::alloc::Global;

// The place of a Began's moment: after its letter and the order's number.
const MOMENT_AT: usize = 9;

// The moment of an order that has none.
const NO_MOMENT: [u8; 8] = [0; 8];

// The whole groups in front of the bytes, in version 2, and how many bytes they took.
pub(crate) fn widened(alloc: Global, bytes: &[u8]) -> Result<(Vec<u8>, usize), NoMemory>
    ensures { IfOk result (λ wide. AreWidened bytes.now wide.1 wide.0.items) }
{
    let mut wide = Vec::new(alloc);
    let mut at = 0;
    while let Some(group) = old_group_ahead(&bytes[at..]) {
        push_widened(&mut wide, &bytes[at..at + group.len])?;
        at += group.len;
    }
    Ok((wide, at))
}

// Puts the bytes of a group after others, with a moment of 0.
fn push_widened(wide: &mut Vec<u8>, group: &[u8]) -> Result<(), NoMemory>
    requires { 9 ≤ length group.now }
    ensures { OnOk result (wide.new.items
        ≡ wide.old.items ++ (take 9 group.now ++ (to_be_bytes w64 0 ++ drop 9 group.now))) }
{
    let (head, rest) = group.split_at(MOMENT_AT);
    wide.extend_from_slice(head)?;
    wide.extend_from_slice(&NO_MOMENT)?;
    wide.extend_from_slice(rest)?;
    Ok(())
}
