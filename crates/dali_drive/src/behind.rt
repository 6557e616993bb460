// Orders that are followed with the journal of a desk.
ghost use Rattle.std.specs.Prelude.{IfOk, IfErr, OnOk};
ghost use Rattle.dali_store.specs.Stores.{LeavesOnly};
ghost use Rattle.dali_drive.specs.Behind.{IsFollowBehind, IsReadyBehind, EndsBehind};
ghost use Rattle.dali_drive.specs.Desks.{IsDurableAt};
ghost use Rattle.dali_drive.specs.Stored.{LeavesPart, StoredShows};
ghost use Rattle.dali_drive.specs.WorkedOn.{IsReady};

use crate::desk::OpenDesk;
use crate::following::{Orders, follow};
use crate::observer::Observer;
use crate::stored::StoredFault;
use dali_engine::Writer;
use dali_write::Pace;
use std::alloc::Global;

/// The terms of a drive (profile).
#[derive(Clone, Copy, PartialEq, Eq)]
pub struct Terms {
    /// The journal has at most this many orders, 1 to 100000,
    pub orders: u32,
    /// and at most this many bytes, when it is opened.
    pub bytes: usize,
    /// The plan of its sessions.
    pub pace: Pace,
}

/// Opens the journal of a desk, after its older one if it has one, and follows what a source of orders gives, as
/// `follow` does. The desk's own journal keeps its own records alone.
///
/// The older one has to be at rest. Its orders count as begun, so that each gets its kept reply, or `reused`, with no
/// frame. The desk has it no more then: whoever follows once more goes on with the writer.
pub fn follow_stored<D: OpenDesk, G: Orders, B: Observer>(
    alloc: Global,
    terms: Terms,
    orders: &mut G,
    desk: &mut D,
    observer: &mut B,
) -> Result<Writer, StoredFault>
    requires ready { IsReadyBehind (D.older desk.old) (D.look desk.old) }
    ensures followed { IfOk result (λ writer. IsFollowBehind G.gave G.over B.told (D.older desk.old) terms.orders
        terms.bytes terms.pace orders.old (D.look desk.old).streams observer.old writer orders.new
        (D.look desk.new).streams observer.new) }
    ensures ready { IfOk result (λ writer. IsReady writer (D.look desk.new)) }
    ensures broken { IfErr result (λ fault. EndsBehind G.gave B.told B.told_end (D.older desk.old) terms.orders
        terms.bytes terms.pace orders.old fault (D.look desk.old) observer.old orders.new (D.look desk.new)
        observer.new) }
    ensures settled { OnOk result (IsDurableAt (D.look desk.new)) }
    ensures err { IfErr result (λ fault. StoredShows fault (D.look desk.new).failed) }
    ensures any_moment { LeavesOnly D.moment D.left_since desk.old desk.new (LeavesPart terms.orders
        (D.look desk.old).streams.journal (D.look desk.new).streams.journal (D.look desk.old).may_leave) }
{
    let journal = match desk.open(alloc, terms.orders, terms.bytes) {
        Ok(journal) => journal,
        Err(fault) => return Err(StoredFault::Open(fault)),
    };
    let writer = Writer::with_pace(journal, terms.pace);
    match follow(writer, orders, desk, observer) {
        Ok(writer) => Ok(writer),
        Err(fault) => Err(StoredFault::Drive(fault)),
    }
}
