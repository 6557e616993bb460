// A journal is opened over a store, and orders are driven with it.
ghost use Rattle.std.specs.Prelude.{IfOk, IfErr, OnOk};
ghost use Rattle.dali_store.specs.Stores.{LeavesOnly};
ghost use Rattle.dali_drive.specs.Behind.{EndsAtFault, IsReadyBehind, IsStoredDrive};
ghost use Rattle.dali_drive.specs.Stored.{StoredShows, LeavesPart};
ghost use Rattle.dali_drive.specs.Desks.{IsDurableAt};
ghost use Rattle.dali_drive.specs.Driven.{at_moment};
ghost use Rattle.dali_drive.specs.WorkedOn.{IsReady};

use crate::behind::{Terms, follow_stored};
use crate::desk::OpenDesk;
use crate::listed::ListedOrders;
use crate::observer::Nobody;
use dali_bank::Order;
use dali_engine::Writer;
use dali_store::OpenFault;
use dali_trace::DriveFault;
use std::alloc::Global;

/// Why orders weren't all driven or followed with the journal of a store.
#[derive(Clone, Copy, Debug, PartialEq, Eq)]
pub enum StoredFault {
    /// The journal isn't opened, or can't follow the older ones, and no other stream was touched.
    Open(OpenFault),
    /// The drive broke off.
    Drive(DriveFault),
}

/// Opens the journal of a desk, after its older one if it has one, and carries out what it still asks for, and then the
/// orders, as `drive` does. The older one has to be at rest.
///
/// The store of the desk, and what a stop leaves of it, bear out what happened; except that if the store itself failed,
/// a stop may leave a first part of what was put last.
pub fn drive_stored<D: OpenDesk>(
    alloc: Global,
    terms: Terms,
    orders: &[Order],
    moment: u64,
    desk: &mut D,
) -> Result<Writer, StoredFault>
    requires ready { IsReadyBehind (D.older desk.old) (D.look desk.old) }
    ensures driven { IfOk result (λ writer. IsStoredDrive (D.older desk.old) terms.orders terms.bytes terms.pace
        (at_moment moment orders.now) (D.look desk.old).streams writer (D.look desk.new).streams) }
    ensures ready { IfOk result (λ writer. IsReady writer (D.look desk.new)) }
    ensures broken { IfErr result (λ fault. EndsAtFault (D.older desk.old) terms.orders terms.bytes terms.pace
        (at_moment moment orders.now) fault (D.look desk.old) (D.look desk.new)) }
    ensures settled { OnOk result (IsDurableAt (D.look desk.new)) }
    ensures err { IfErr result (λ fault. StoredShows fault (D.look desk.new).failed) }
    ensures any_moment { LeavesOnly D.moment D.left_since desk.old desk.new (LeavesPart terms.orders
        (D.look desk.old).streams.journal (D.look desk.new).streams.journal (D.look desk.old).may_leave) }
{
    let mut listed = ListedOrders::new(orders, moment);
    follow_stored(alloc, terms, &mut listed, desk, &mut Nobody)
}
