// Sources of orders, and how what one gives is followed.
ghost use Rattle.std.specs.Prelude.{◌≡◌, ◌↔◌, Bool, IfSome, false, true};
ghost use Rattle.dali_drive.specs.Behind.{IsReadyBehind};
ghost use Rattle.dali_drive.specs.Stored.{LeavesPart};
ghost use Rattle.dali_store.specs.Stores.{LeavesOnly};
ghost use Rattle.dali_text.specs.Output.{has_failed, held};
ghost use Rattle.dali_link_commands.specs.Benches.{TellsUnwritten};
ghost use Rattle.dali_link_commands.specs.BehindAnswers.{IsSourceBehind};
ghost use Rattle.dali_link_commands.specs.FollowAnswers.{TellsFollowed};
ghost use Rattle.dali_input.specs.JournalInput.{journal_limit, order_limit};

use crate::drive_lines::tell_broken;
use crate::lines::{Bench, Lines};
use crate::problem::{Problem, failure_of};
use crate::required::tell_ended;
use dali_drive::{Desk, ListedOrders, Orders, Sink, Source, Terms, follow_stored};
use dali_input::{InputFault, JOURNAL_LIMIT, Status};
use dali_job::DriveTask;
use dali_journal::MOST_ORDERS;
use dali_report::{Outcome, Report};
use dali_store::Store;
use dali_write::Pace;
use std::alloc::Global;
use std::io::{ErrorKind, Write};

/// A source of orders that tells how it ended (profile): the list of a file, or the lines of a stream.
pub trait OrderSource: Orders {
    /// Whether its stream has failed.
    ghost failed: { Self → Bool };

    /// Whether an item of it was refused, and given as a line.
    ghost refused: { Self → Bool };

    /// Whether its stream has failed.
    fn has_failed(&self) -> bool
        ensures { result ≡ failed self.now };

    /// Whether an item of it was refused, and given as a line.
    fn has_refused(&self) -> bool
        ensures { result ≡ refused self.now };

    /// The kind of its stream's failure, if there was one and its kind is known.
    fn cause(&self) -> Option<ErrorKind>
        ensures { IfSome result (λ kind. failed self.now ≡ true) };
}

// A list was judged before it is driven: no item of it is refused then, and no stream is read.
impl OrderSource for ListedOrders<'_> {
    ghost use Rattle.std.specs.Prelude.{false};

    ghost failed = { λ _. false };

    ghost refused = { λ _. false };

    fn has_failed(&self) -> bool {
        false
    }

    fn has_refused(&self) -> bool {
        false
    }

    fn cause(&self) -> Option<ErrorKind> {
        None
    }
}

// The terms of a drive: what a journal may have, and its plan.
fn terms_of(pace: Pace) -> Terms
    ensures { result ≡ record { orders = order_limit; bytes = journal_limit; pace = pace } }
{
    Terms {
        orders: MOST_ORDERS,
        bytes: JOURNAL_LIMIT as usize,
        pace,
    }
}

/// Carries out what the journal of a store still asks for, and then what a source of orders gives, one after another,
/// over streams that haven't failed: each order is submitted and carried out, and its replies are written to `lines`,
/// before the next one is asked for. Each reply has its line there, and so has each item that is refused, and the fault
/// that ends it; the report has a line for each last reply.
///
/// It ends where the source does. If that has failed, this is reported after all else: 21 File. Else it ends as
/// `Refused` if an item was refused, or if the last replies aren't what is required; if that is because there were
/// none, it says that nothing was done.
///
/// If no journal is opened, nothing is sent, and nothing is asked of the source: for at most 100000 orders and of at
/// most 33554432 bytes the fault is 13 TooBig, 7 Header, 3 Record, 4 Sequence, 5 Repeated, 6 Full, 20 Memory or 21
/// File. A drive breaks off at 1 Journal, 2 Link, 3 Line, 4 End, 6 TooLong or 20 Memory. If `lines` fails, it is 7 Out,
/// or a first part of the fault's line is written; later calls of it write nothing more.
///
/// If the desk has an older journal, which has to be at rest, an order that it has ended gets its kept reply, or
/// `reused`, with no frame. If both journals have an order number in common, nothing is sent: 15 Older.
pub fn follow_source<G: OrderSource, I: Source, L: Sink, S: Store, W: Write, N: Write + Drop>(
    alloc: Global,
    task: &DriveTask<'_>,
    orders: &mut G,
    desk: &mut Bench<I, L, S, W>,
    report: &mut Report<N>,
) -> Status
    requires ready { IsReadyBehind desk.old.older (⟦<Bench<I, L, S, W> as Desk>⟧.look desk.old) }
    ensures answer { let look = ⟦<Bench<I, L, S, W> as Desk>⟧.look in
        IsSourceBehind G.gave G.over G.failed G.refused N.contents desk.old.older task.now.pace task.now.required
        report.old report.new orders.old orders.new (look desk.old) result (look desk.new) }
    ensures unwritten { TellsUnwritten result (⟦<Bench<I, L, S, W> as Desk>⟧.look desk.new) }
    ensures any_moment { LeavesOnly S.moment S.left_since desk.old.journal desk.new.journal
        (LeavesPart order_limit (S.seen desk.old.journal) (S.seen desk.new.journal) (S.may_leave desk.old.journal)) }
{
    match follow_stored(alloc, terms_of(task.pace), orders, desk, report) {
        Ok(_writer) => tell_followed(alloc, &mut desk.out, task, orders, report.outcome()),
        Err(fault) => tell_broken(alloc, task.journal, desk, fault),
    }
}

// How a command ends that followed a source to its end, with this outcome.
fn tell_followed<G: OrderSource, W: Write>(
    alloc: Global,
    lines: &mut Lines<W>,
    task: &DriveTask<'_>,
    orders: &G,
    outcome: Outcome,
) -> Status
    requires { has_failed lines.old.output ≡ false }
    ensures told { TellsFollowed (G.failed orders.now) (G.refused orders.now) task.now.required outcome result
        (held W.contents lines.old.output) (held W.contents lines.new.output) }
    ensures unwritten { result ≡ Status.Unwritten ↔ has_failed lines.new.output ≡ true }
{
    if orders.has_failed() {
        let cause = failure_of(orders.cause());
        return Problem::unread(alloc, task.orders, InputFault::File, cause).tell(lines);
    }
    if orders.has_refused() {
        return Status::Refused;
    }
    tell_ended(lines, task.required, outcome)
}
