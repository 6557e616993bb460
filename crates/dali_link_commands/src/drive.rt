ghost use Rattle.std.specs.Prelude.{◌≡◌};
ghost use Rattle.dali_drive.specs.Behind.{IsReadyBehind};
ghost use Rattle.dali_drive.specs.Stored.{LeavesPart};
ghost use Rattle.dali_input.specs.Input.{ReadsAtMost, state_of};
ghost use Rattle.dali_input.specs.Orders.{orders_limit};
ghost use Rattle.dali_store.specs.Stores.{LeavesOnly};
ghost use Rattle.dali_link_commands.specs.Benches.{TellsUnwritten};
ghost use Rattle.dali_link_commands.specs.BehindAnswers.{IsAnswerBehind};
ghost use Rattle.dali_link_commands.specs.OrdersAnswers.{IsReaderAnswer};
ghost use Rattle.dali_input.specs.JournalInput.{order_limit};

use crate::drive_lines::tell_refused;
use crate::follow::follow_source;
use crate::lines::Bench;
use crate::problem::{Problem, failure_of};
use dali_bank::Order;
use dali_drive::{Desk, ListedOrders, Sink, Source};
use dali_input::{Input, ORDERS_LIMIT, Status, read_input, read_orders};
use dali_job::DriveTask;
use dali_report::Report;
use dali_store::Store;
use std::alloc::Global;
use std::io::{Read, Write};

/// Carries out the orders that a reader gives over a link, with the journal of a desk, as `follow_source` does.
///
/// If an item is refused, the lines of all that are, are written, and nothing else is touched; nor is it if there are
/// no orders: 13 TooBig over 16777216 bytes, 11 Json, 12 Document, 20 Memory or 21 File.
pub fn drive_input<R: Read, I: Source, L: Sink, S: Store, W: Write, N: Write + Drop>(
    alloc: Global,
    task: &DriveTask<'_>,
    input: &mut Input<R>,
    desk: &mut Bench<I, L, S, W>,
    report: &mut Report<N>,
) -> Status
    requires ready { IsReadyBehind desk.old.older (⟦<Bench<I, L, S, W> as Desk>⟧.look desk.old) }
    ensures driven { let look = ⟦<Bench<I, L, S, W> as Desk>⟧.look in
        IsReaderAnswer (IsAnswerBehind desk.old.older N.contents task.now.moment task.now.pace task.now.required
        report.old report.new) (report.new ≡ report.old) (look desk.old) result (look desk.new)
        (state_of R.remaining input.old) (state_of R.remaining input.new)
        × TellsUnwritten result (look desk.new) }
    ensures read { ReadsAtMost orders_limit (state_of R.remaining input.old) (state_of R.remaining input.new) }
    ensures any_moment { LeavesOnly S.moment S.left_since desk.old.journal desk.new.journal
        (LeavesPart order_limit (S.seen desk.old.journal) (S.seen desk.new.journal) (S.may_leave desk.old.journal)) }
{
    let bytes = match read_input(alloc, input, ORDERS_LIMIT) {
        Ok(bytes) => bytes,
        Err(fault) => {
            let cause = failure_of(input.cause());
            return Problem::unread(alloc, task.orders, fault, cause).tell(&mut desk.out);
        }
    };
    match read_orders(alloc, bytes.as_slice()) {
        Ok(Ok(orders)) => drive_orders(alloc, task, orders.as_slice(), desk, report),
        Ok(Err(refused)) => tell_refused(&mut desk.out.output, refused.as_slice()),
        Err(fault) => Problem::unread(alloc, task.orders, fault, None).tell(&mut desk.out),
    }
}

// Carries out what the journal of a store still asks for, and then these orders, as `follow_source` does.
fn drive_orders<I: Source, L: Sink, S: Store, W: Write, N: Write + Drop>(
    alloc: Global,
    task: &DriveTask<'_>,
    orders: &[Order],
    desk: &mut Bench<I, L, S, W>,
    report: &mut Report<N>,
) -> Status
    requires ready { IsReadyBehind desk.old.older (⟦<Bench<I, L, S, W> as Desk>⟧.look desk.old) }
    ensures answer { let look = ⟦<Bench<I, L, S, W> as Desk>⟧.look in
        IsAnswerBehind desk.old.older N.contents task.now.moment task.now.pace task.now.required report.old report.new
        orders.now (look desk.old) result (look desk.new)
        × TellsUnwritten result (look desk.new) }
    ensures any_moment { LeavesOnly S.moment S.left_since desk.old.journal desk.new.journal
        (LeavesPart order_limit (S.seen desk.old.journal) (S.seen desk.new.journal) (S.may_leave desk.old.journal)) }
{
    report.expect(orders);
    let mut listed = ListedOrders::new(orders, task.moment);
    follow_source(alloc, task, &mut listed, desk, report)
}
