// A writer does what it wants over a desk, and orders are driven.
ghost use Rattle.std.specs.Prelude.{◌≡◌, ◌<◌, ◌∷◌, [], ℕ, List, true, false, IfOk, IfErr, OnOk};
ghost use Rattle.dali_trace.specs.declared.happening.Happening.{Happening};
ghost use Rattle.dali_trace.specs.Trace.{Start, is_busy};
ghost use Rattle.dali_engine.specs.WriterState.{start_of, IsAtRest};
ghost use Rattle.dali_engine.specs.WorkLeft.{work_left};
ghost use Rattle.dali_drive.specs.Desks.{IsAhead, IsDurableAt, EndsAs, Grows, Works};
ghost use Rattle.dali_drive.specs.Transcript.{Streams, shown};
ghost use Rattle.dali_drive.specs.Driven.{at_moment, IsDrive, BreaksOff, NoneFailed, FailedAs};
ghost use Rattle.dali_drive.specs.LentSinks.{SinkLeaves};
ghost use Rattle.dali_store.specs.Stores.{IsDurable};
ghost use Rattle.dali_drive.specs.WorkedOn.{IsDone, IsDrivenAt, IsReady, WorkedOn};

use crate::desk::{Desk, keep};
use crate::following::follow;
use crate::lent_sinks::LentSinks;
use crate::lines::{AnswerText, reply_line};
use crate::listed::ListedOrders;
use crate::observer::{Nobody, Observer};
use crate::streams::{Sink, Source};
use dali_bank::Order;
use dali_engine::{Want, Writer};
use dali_trace::{DriveFault, Happening};

// Does once what the writer wants. The answer is whether it wanted anything.
fn advance<D: Desk, B: Observer>(
    writer: &mut Writer,
    desk: &mut D,
    observer: &mut B,
) -> Result<bool, DriveFault>
    requires ahead { IsAhead (D.look desk.old) }
    ensures worked { Works D.look D.moment D.left_since D.same result desk.old desk.new
        ((start : Start) (past : List Happening) (first : Streams) (since : B)
        → IsDrivenAt start past writer.old first (D.look desk.old).streams → B.told start since observer.old past
        → WorkedOn start past [] first result writer.new (D.look desk.old) (D.look desk.new)
        (B.told start since observer.new) (B.told_end start since observer.new)) }
    ensures fewer { IfOk result (λ busy. busy ≡ true → work_left writer.new.phase < work_left writer.old.phase) }
    ensures done { IfOk result (λ busy. busy ≡ false → IsDone writer.new) }
{
    match writer.want() {
        Want::Idle => return Ok(false),
        Want::Keep(entry) => {
            if !keep(desk, &entry.bytes()) {
                return Err(DriveFault::Journal);
            }
            let cause = writer.cause();
            writer.kept();
            observer.see(&Happening::Kept(entry), writer.journal(), cause);
        }
        Want::Send(frame) => {
            let mut text = AnswerText::new();
            let answer = match desk.exchange(&frame, &mut text) {
                Ok(answer) => answer,
                Err(fault) => {
                    observer.see_end(fault, &frame, &text);
                    return Err(fault);
                }
            };
            writer.heard(answer);
            observer.see(&Happening::Sent(frame, answer), writer.journal(), None);
        }
        Want::Say(id, reply) => {
            if !desk.say(&reply_line(id, reply)) {
                return Err(DriveFault::Out);
            }
            writer.said();
            observer.see(&Happening::Answered(id, reply), writer.journal(), None);
        }
    }
    Ok(true)
}

// Does what the writer wants until it is idle.
fn work<D: Desk, B: Observer>(
    writer: &mut Writer,
    desk: &mut D,
    observer: &mut B,
) -> Result<(), DriveFault>
    requires ahead { IsAhead (D.look desk.old) }
    ensures worked { Works D.look D.moment D.left_since D.same result desk.old desk.new
        ((start : Start) (past : List Happening) (first : Streams) (since : B)
        → IsDrivenAt start past writer.old first (D.look desk.old).streams → B.told start since observer.old past
        → WorkedOn start past [] first result writer.new (D.look desk.old) (D.look desk.new)
        (B.told start since observer.new) (B.told_end start since observer.new)) }
    ensures done { OnOk result (IsDone writer.new) }
{
    while advance(writer, desk, observer)? {}
    Ok(())
}

/// Carries out what the writer still has to do, and then the orders one after the other: each is submitted, its reply
/// written, and the work done that it makes (profile). The moment is that of each order that begins.
///
/// A record's bytes are written to `journal_out` and flushed, and only then it counts. A frame's line is written to
/// `link_out` and flushed, and then one line is read from `link_in`: the answer, `--` or two hexadecimal digits, ended
/// by a line feed, before which a carriage return is dropped. Each frame has its answer's line, and what is answered to
/// one that has no answer is passed over. A reply's line is written to `out`, which is never flushed. Nothing is tried
/// again.
///
/// The writer has to be at rest: idle, or as `Writer::new` made it. No stream may have failed, and all that
/// `journal_out` holds has to be flushed, if it shows what was.
///
/// Each `DriveFault` says what ended the drive. The writer is gone then, and the drive goes on with a new one, from the
/// journal that is loaded from what `journal_out` holds after the header: whole records of version 2, and at most one
/// that is cut. It writes no header. All that was kept before the step that was broken off is flushed.
pub fn drive<I: Source, L: Sink, J: Sink, O: Sink>(
    writer: Writer,
    orders: &[Order],
    moment: u64,
    link_in: &mut I,
    link_out: &mut L,
    journal_out: &mut J,
    out: &mut O,
) -> Result<Writer, DriveFault>
    requires rests { IsAtRest writer }
    requires unfailed { NoneFailed (J.failed journal_out.old) (L.failed link_out.old) (I.failed link_in.old)
        (O.failed out.old) }
    requires flushed { IsDurable (J.held journal_out.old)
        (SinkLeaves (J.flushed journal_out.old) (J.held journal_out.old)) }
    ensures driven { IfOk result (λ driven. IsDrive (start_of writer) (at_moment moment orders.now)
        (shown (J.held journal_out.old) (L.held link_out.old) (I.left link_in.old) (O.held out.old))
        driven (shown (J.held journal_out.new) (L.held link_out.new) (I.left link_in.new) (O.held out.new))) }
    ensures rests { IfOk result IsAtRest }
    ensures ok { OnOk result
        (NoneFailed (J.failed journal_out.new) (L.failed link_out.new) (I.failed link_in.new) (O.failed out.new)) }
    ensures flushed { OnOk result
        (IsDurable (J.held journal_out.new) (SinkLeaves (J.flushed journal_out.new) (J.held journal_out.new))) }
    ensures broken { IfErr result (λ fault. BreaksOff (start_of writer) (at_moment moment orders.now) fault
        (shown (J.held journal_out.old) (L.held link_out.old) (I.left link_in.old) (O.held out.old))
        (shown (J.held journal_out.new) (L.held link_out.new) (I.left link_in.new) (O.held out.new))
        (SinkLeaves (J.flushed journal_out.new) (J.held journal_out.new))) }
    ensures err { IfErr result (λ fault.
        FailedAs fault (J.failed journal_out.new) (L.failed link_out.new) (I.failed link_in.new) (O.failed out.new)) }
{
    let mut desk = LentSinks {
        link_in,
        link_out,
        journal: journal_out,
        out,
    };
    drive_at(writer, orders, moment, &mut desk)
}

/// As `drive`, at a desk.
pub fn drive_at<D: Desk>(
    writer: Writer,
    orders: &[Order],
    moment: u64,
    desk: &mut D,
) -> Result<Writer, DriveFault>
    requires ready { IsReady writer (D.look desk.old) }
    ensures driven { IfOk result (λ driven. IsDrive (start_of writer) (at_moment moment orders.now)
        (D.look desk.old).streams driven (D.look desk.new).streams) }
    ensures rests { IfOk result IsAtRest }
    ensures broken { IfErr result (λ fault. BreaksOff (start_of writer) (at_moment moment orders.now) fault
        (D.look desk.old).streams (D.look desk.new).streams (D.look desk.new).may_leave) }
    ensures ends { EndsAs result (D.look desk.new) }
    ensures settled { OnOk result (IsDurableAt (D.look desk.new)) }
    ensures grown { Grows D.look D.moment D.left_since D.same desk.old desk.new }
{
    let mut listed = ListedOrders::new(orders, moment);
    follow(writer, &mut listed, desk, &mut Nobody)
}

// Does what the journal leaves unfinished.
pub(crate) fn begin<D: Desk, B: Observer>(
    writer: &mut Writer,
    desk: &mut D,
    observer: &mut B,
) -> Result<(), DriveFault>
    requires ready { IsReady writer.old (D.look desk.old) }
    ensures worked { Works D.look D.moment D.left_since D.same result desk.old desk.new
        (WorkedOn (start_of writer.old) [] [] (D.look desk.old).streams result writer.new
        (D.look desk.old) (D.look desk.new)
        (B.told (start_of writer.old) observer.old observer.new)
        (B.told_end (start_of writer.old) observer.old observer.new)) }
    ensures done { OnOk result (IsDone writer.new) }
{
    writer.rest();
    observer.begin(writer.journal());
    work(writer, desk, observer)
}

// Submits an order at a moment, writes its reply, and does the work that it makes.
pub(crate) fn carry_out<D: Desk, B: Observer>(
    writer: &mut Writer,
    order: Order,
    moment: u64,
    desk: &mut D,
    observer: &mut B,
) -> Result<(), DriveFault>
    requires ready { IsReady writer.old (D.look desk.old) }
    ensures worked { Works D.look D.moment D.left_since D.same result desk.old desk.new
        ((start : Start) (past : List Happening) (first : Streams) (since : B)
        → IsDrivenAt start past writer.old first (D.look desk.old).streams
        → is_busy start past ≡ false → B.told start since observer.old past
        → WorkedOn start past ((order, moment) ∷ []) first result writer.new (D.look desk.old) (D.look desk.new)
        (B.told start since observer.new) (B.told_end start since observer.new)) }
    ensures done { OnOk result (IsDone writer.new) }
{
    let id = order.id();
    let Ok(reply) = writer.submit(order.copy(), moment) else {
        return Err(DriveFault::NoMemory);
    };
    observer.see(&Happening::Asked(order, moment), writer.journal(), None);
    if !desk.say(&reply_line(id, reply)) {
        return Err(DriveFault::Out);
    }
    observer.see(&Happening::Answered(id, reply), writer.journal(), None);
    work(writer, desk, observer)
}
