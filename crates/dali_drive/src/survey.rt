ghost use Rattle.std.specs.Prelude.{◌≡◌, ◌<◌, ◌↔◌, ◌≤◌, IfOk, IfErr, OnOk, Some, false, true, is_some};
ghost use Rattle.dali_read.specs.Places.{order_course};
ghost use Rattle.dali_drive.specs.Transcript.{link_shown, shown};
ghost use Rattle.dali_drive.specs.Driven.{FailedAs, LinkEnds, NoneFailed};
ghost use Rattle.dali_drive.specs.Surveys.{IsScanReport, IsOrderReport, Reported, BreaksReport, FoundOf};
ghost use Rattle.dali_drive.specs.Surveys.{IsScan, ScanBroke, sought_course};
ghost use Rattle.dali_drive.specs.Surveys.{IsVerifiedTold, VerifyBrokeTold};
ghost use Rattle.std.specs.Prelude.{None};
ghost use Rattle.std.specs.List.{AllByRecursion};

use crate::observer::FindingObserver;
use crate::reading::{MOST_OF_BANK, read_unit};
use crate::sought::Sought;
use crate::streams::{Sink, Source, put_all};
use crate::survey_lines::{finding_line, order_silent_line, units_line};
use crate::unit_lines::unit_line;
use arrayvec::ArrayVec;
use dali_bank::Order;
use dali_read::{Finding, Places, compare};
use dali_trace::DriveFault;

// Reads what is sought of a unit, and tells of one that answers. The answer is whether it does.
fn scan_unit<I: Source, L: Sink, O: Sink>(
    unit: u8,
    sought: Sought,
    link_in: &mut I,
    link_out: &mut L,
    out: &mut O,
) -> Result<bool, DriveFault>
    requires ready { (unit ≤ 63)
        × NoneFailed false (L.failed link_out.old) (I.failed link_in.old) (O.failed out.old) }
    ensures told { IfOk result (λ answers.
        Reported (IsScanReport sought) unit (λ report. answers ≡ is_some report.outcome)
        (shown None (L.held link_out.old) (I.left link_in.old) (O.held out.old))
        (shown None (L.held link_out.new) (I.left link_in.new) (O.held out.new))) }
    ensures broken { IfErr result (λ fault.
        BreaksReport (IsScanReport sought) fault unit unit (sought_course sought)
        (shown None (L.held link_out.old) (I.left link_in.old) (O.held out.old))
        (shown None (L.held link_out.new) (I.left link_in.new) (O.held out.new))) }
    ensures ends { LinkEnds result (L.failed link_out.new) (I.failed link_in.new) (O.failed out.new) }
{
    let places = sought.places();
    let Some(bytes) = read_unit(unit, &places, link_in, link_out)? else {
        return Ok(false);
    };
    if put_all(out, &unit_line(unit, &bytes)) {
        Ok(true)
    } else {
        Err(DriveFault::Out)
    }
}

/// Asks the units at these short addresses, one after the other, for the last location of their memory bank 1, and if
/// sought for their GTIN and their identification number (profile): a line `unit U last LL` to `out` for each unit that
/// answers, as it is found, followed by ` gtin G identification I` if these were read, and then
/// `units K`, which is the answer too. A unit counts as absent if eight tries of one block missed.
///
/// The link is used as by `read_unit`. No stream may have failed.
///
/// `Link`, `Line`, `End` and `TooLong` say what ended it, and `Out` that a line couldn't be written.
pub fn scan_units<I: Source, L: Sink, O: Sink>(
    addresses: &[u8],
    sought: Sought,
    link_in: &mut I,
    link_out: &mut L,
    out: &mut O,
) -> Result<usize, DriveFault>
    requires addresses { AllByRecursion (λ address. address ≤ 63) addresses.now }
    requires unfailed { NoneFailed false (L.failed link_out.old) (I.failed link_in.old) (O.failed out.old) }
    ensures scanned { IfOk result (λ units. IsScan sought addresses.now units
        (shown None (L.held link_out.old) (I.left link_in.old) (O.held out.old))
        (shown None (L.held link_out.new) (I.left link_in.new) (O.held out.new))) }
    ensures broken { IfErr result (λ fault. ScanBroke sought addresses.now fault
        (shown None (L.held link_out.old) (I.left link_in.old) (O.held out.old))
        (shown None (L.held link_out.new) (I.left link_in.new) (O.held out.new))) }
    ensures ok { OnOk result
        (NoneFailed false (L.failed link_out.new) (I.failed link_in.new) (O.failed out.new)) }
    ensures err { IfErr result (λ fault.
        FailedAs fault false (L.failed link_out.new) (I.failed link_in.new) (O.failed out.new)) }
{
    let mut units = 0;
    for &unit in addresses {
        if scan_unit(unit, sought, link_in, link_out, out)? {
            units += 1;
        }
    }
    if put_all(out, &units_line(units)) {
        Ok(units)
    } else {
        Err(DriveFault::Out)
    }
}

// The result for an order, and all bytes that were read for it: nothing of a silent unit.
#[derive(Drop)]
struct Compared {
    finding: Option<Finding>,
    bytes: ArrayVec<u8, MOST_OF_BANK>,
}

// Reads what an order writes, and tells what is found.
fn verify_order<I: Source, L: Sink, O: Sink>(
    order: &Order,
    link_in: &mut I,
    link_out: &mut L,
    out: &mut O,
) -> Result<Compared, DriveFault>
    requires unfailed { NoneFailed false (L.failed link_out.old) (I.failed link_in.old) (O.failed out.old) }
    ensures told { IfOk result (λ found. Reported IsOrderReport order.now
        (λ report. FoundOf report.item report.outcome found.finding found.bytes.items)
        (shown None (L.held link_out.old) (I.left link_in.old) (O.held out.old))
        (shown None (L.held link_out.new) (I.left link_in.new) (O.held out.new))) }
    ensures broken { IfErr result (λ fault. BreaksReport IsOrderReport fault order.now order.now.unit
        (order_course order.now.updates)
        (shown None (L.held link_out.old) (I.left link_in.old) (O.held out.old))
        (shown None (L.held link_out.new) (I.left link_in.new) (O.held out.new))) }
    ensures ends { LinkEnds result (L.failed link_out.new) (I.failed link_in.new) (O.failed out.new) }
{
    let Some(bytes) = read_unit(order.unit(), &Places::Order(order), link_in, link_out)? else {
        return if put_all(out, &order_silent_line(order)) {
            Ok(Compared {
                finding: None,
                bytes: ArrayVec::new(),
            })
        } else {
            Err(DriveFault::Out)
        };
    };
    let finding = compare(order, &bytes);
    if put_all(out, &finding_line(order, finding)) {
        Ok(Compared {
            finding: Some(finding),
            bytes,
        })
    } else {
        Err(DriveFault::Out)
    }
}

/// Reads for each of the orders, one after the other, the locations that it writes, and before them its unit's last
/// location and, if it needs that, the content format (profile). A line to `out` for each: `order N unit U same`,
/// `order N unit U other LL BB` with the first location that holds another byte than the order's, and that byte,
/// `short`, `format` or `silent`, and then the observer sees it, with all bytes that were read for the order. The
/// answer is whether all are the same.
///
/// The link is used as by `read_unit`. No stream may have failed.
///
/// `Link`, `Line`, `End` and `TooLong` say what ended it, and `Out` that a line couldn't be written.
pub fn verify_orders<I: Source, L: Sink, O: Sink, B: FindingObserver>(
    orders: &[Order],
    link_in: &mut I,
    link_out: &mut L,
    out: &mut O,
    observer: &mut B,
) -> Result<bool, DriveFault>
    requires unfailed { NoneFailed false (L.failed link_out.old) (I.failed link_in.old) (O.failed out.old) }
    ensures verified { IfOk result (λ all_same. IsVerifiedTold B.told_found orders.now all_same
        (shown None (L.held link_out.old) (I.left link_in.old) (O.held out.old)) observer.old
        (shown None (L.held link_out.new) (I.left link_in.new) (O.held out.new)) observer.new) }
    ensures broken { IfErr result (λ fault. VerifyBrokeTold B.told_found orders.now fault
        (shown None (L.held link_out.old) (I.left link_in.old) (O.held out.old)) observer.old
        (shown None (L.held link_out.new) (I.left link_in.new) (O.held out.new)) observer.new) }
    ensures ok { OnOk result
        (NoneFailed false (L.failed link_out.new) (I.failed link_in.new) (O.failed out.new)) }
    ensures err { IfErr result (λ fault.
        FailedAs fault false (L.failed link_out.new) (I.failed link_in.new) (O.failed out.new)) }
{
    let mut all_same = true;
    for order in orders {
        let found = verify_order(order, link_in, link_out, out)?;
        observer.find(order, found.finding, found.bytes.as_slice());
        all_same &= is_same(found.finding);
    }
    Ok(all_same)
}

// Whether each location that an order writes held the order's byte.
fn is_same(found: Option<Finding>) -> bool
    ensures { (result ≡ true) ↔ (found ≡ Some Finding.Same) }
{
    matches!(found, Some(Finding::Same))
}
