ghost use Rattle.std.specs.Prelude.{◌≡◌, ◌↔◌, ◌≤◌, if◌then◌else◌, false, true};
ghost use Rattle.std.specs.List.{AllByRecursion};
ghost use Rattle.dali_drive.specs.Desks.{IsUnfailed};
ghost use Rattle.dali_input.specs.Input.{ReadsAtMost, state_of};
ghost use Rattle.dali_input.specs.Orders.{orders_limit};
ghost use Rattle.dali_text.specs.Output.{has_failed, held};
ghost use Rattle.dali_link_commands.specs.Bare.{TellsBare, is_empty as no_orders};
ghost use Rattle.dali_link_commands.specs.Benches.{TellsUnwritten};
ghost use Rattle.dali_link_commands.specs.OrdersAnswers.{IsReaderAnswer};
ghost use Rattle.dali_link_commands.specs.ReadAnswers.{IsScanAnswer, IsVerifyAnswer, asked_addresses};

use crate::drive_lines::{break_words, tell_fault, tell_refused};
use crate::lines::{Bench, Lines};
use crate::problem::{Problem, failure_of};
use crate::required::tell_bare;
use dali_bank::Order;
use dali_drive::{Desk, Sink, Sought, Source, scan_units, verify_orders};
use dali_input::{Input, ORDERS_LIMIT, Status, read_input, read_orders};
use dali_report::Report;
use dali_store::Store;
use std::alloc::Global;
use std::io::{Read, Write};

// All short addresses.
static ALL_ADDRESSES: [u8; 64] = [
    0, 1, 2, 3, 4, 5, 6, 7, 8, 9, 10, 11, 12, 13, 14, 15, 16, 17, 18, 19, 20, 21, 22, 23, 24, 25,
    26, 27, 28, 29, 30, 31, 32, 33, 34, 35, 36, 37, 38, 39, 40, 41, 42, 43, 44, 45, 46, 47, 48, 49,
    50, 51, 52, 53, 54, 55, 56, 57, 58, 59, 60, 61, 62, 63,
];

/// Compares units with the orders that a reader gives, over a link, as `verify_units` does.
///
/// If an item is refused, the lines of all that are, are written, and the link isn't touched; nor is it if there are no
/// orders: 13 TooBig over 16777216 bytes, 11 Json, 12 Document, 20 Memory or 21 File.
pub fn verify_input<R: Read, I: Source, L: Sink, S: Store, W: Write, N: Write + Drop>(
    alloc: Global,
    name: &str,
    input: &mut Input<R>,
    desk: &mut Bench<I, L, S, W>,
    report: &mut Report<N>,
) -> Status
    requires unfailed { IsUnfailed (⟦<Bench<I, L, S, W> as Desk>⟧.look desk.old).failed }
    ensures verified { let look = ⟦<Bench<I, L, S, W> as Desk>⟧.look in
        IsReaderAnswer (IsVerifyAnswer N.contents report.old report.new) (report.new ≡ report.old) (look desk.old)
        result (look desk.new) (state_of R.remaining input.old) (state_of R.remaining input.new)
        × TellsUnwritten result (look desk.new) }
    ensures read { ReadsAtMost orders_limit (state_of R.remaining input.old) (state_of R.remaining input.new) }
{
    let bytes = match read_input(alloc, input, ORDERS_LIMIT) {
        Ok(bytes) => bytes,
        Err(fault) => {
            let cause = failure_of(input.cause());
            return Problem::unread(alloc, name, fault, cause).tell(&mut desk.out);
        }
    };
    match read_orders(alloc, bytes.as_slice()) {
        Ok(Ok(orders)) => verify_units(alloc, orders.as_slice(), desk, report),
        Ok(Err(refused)) => tell_refused(&mut desk.out.output, refused.as_slice()),
        Err(fault) => Problem::unread(alloc, name, fault, None).tell(&mut desk.out),
    }
}

/// Compares units with orders, over streams that haven't failed, as `verify_orders` does: a line for each order, and
/// one for the fault that ends it, 2 Link, 3 Line, 4 End or 6 TooLong; the report has a line for each order. It ends as
/// `Good` if all are the same, else as `Refused`; if there are no orders it says that nothing was done.
///
/// If `lines` fails, it is 7 Out, or a first part of the fault's line is written.
pub fn verify_units<I: Source, L: Sink, S: Store, W: Write, N: Write + Drop>(
    alloc: Global,
    orders: &[Order],
    desk: &mut Bench<I, L, S, W>,
    report: &mut Report<N>,
) -> Status
    requires unfailed { IsUnfailed (⟦<Bench<I, L, S, W> as Desk>⟧.look desk.old).failed }
    ensures answer { let look = ⟦<Bench<I, L, S, W> as Desk>⟧.look in
        IsVerifyAnswer N.contents report.old report.new orders.now (look desk.old) result (look desk.new)
        × TellsUnwritten result (look desk.new) }
{
    report.expect(orders);
    let ended = verify_orders(
        orders,
        &mut desk.link_in,
        &mut desk.link_out,
        &mut desk.out,
        report,
    );
    match ended {
        Ok(all_same) => tell_verified(&mut desk.out, orders, all_same),
        Err(fault) => {
            let words = break_words(alloc, desk, fault);
            tell_fault(alloc, &mut desk.out, fault, words)
        }
    }
}

// The status of a comparison that completed: all are the same, or one is not.
fn tell_verified<W: Write>(lines: &mut Lines<W>, orders: &[Order], all_same: bool) -> Status
    requires { has_failed lines.old.output ≡ false }
    ensures told { TellsBare (no_orders orders.now) (if all_same then Status.Good else Status.Refused) result
        (held W.contents lines.old.output) (held W.contents lines.new.output) }
    ensures unwritten { result ≡ Status.Unwritten ↔ has_failed lines.new.output ≡ true }
{
    let ended = if all_same {
        Status::Good
    } else {
        Status::Refused
    };
    tell_bare(lines, orders.is_empty(), ended)
}

/// Asks the units at these short addresses, each at most 63, or at all if none is named, over streams that haven't
/// failed, as `scan_units` does: a line for each unit that answers and one for their number, or one for the fault that
/// ends it, 2 Link, 3 Line, 4 End or 6 TooLong.
///
/// If `lines` fails, it is 7 Out, or a first part of the fault's line is written.
pub fn scan<I: Source, L: Sink, S: Store, W: Write>(
    alloc: Global,
    addresses: &[u8],
    sought: Sought,
    desk: &mut Bench<I, L, S, W>,
) -> Status
    requires short { AllByRecursion (λ address. address ≤ 63) addresses.now }
    requires unfailed { IsUnfailed (⟦<Bench<I, L, S, W> as Desk>⟧.look desk.old).failed }
    ensures answer { let look = ⟦<Bench<I, L, S, W> as Desk>⟧.look in
        IsScanAnswer sought (asked_addresses addresses.now) (look desk.old) result (look desk.new)
        × TellsUnwritten result (look desk.new) }
{
    let addresses = asked(addresses);
    match scan_units(
        addresses,
        sought,
        &mut desk.link_in,
        &mut desk.link_out,
        &mut desk.out,
    ) {
        Ok(_) => Status::Good,
        Err(fault) => {
            let words = break_words(alloc, desk, fault);
            tell_fault(alloc, &mut desk.out, fault, words)
        }
    }
}

// The short addresses that are asked where these are named.
fn asked(addresses: &[u8]) -> &[u8]
    requires { AllByRecursion (λ address. address ≤ 63) addresses.now }
    ensures addresses { result.now ≡ asked_addresses addresses.now }
    ensures short { AllByRecursion (λ address. address ≤ 63) result.now }
{
    if addresses.is_empty() {
        &ALL_ADDRESSES
    } else {
        addresses
    }
}
