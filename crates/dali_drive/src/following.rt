// Orders that come one after another, each carried out before the next is read.
ghost use Rattle.std.specs.Prelude.{◌≡◌, ◌∷◌, [], List, Option, IfOk, IfErr, OnOk, IfNone};
ghost use Rattle.dali_drive.specs.declared.following.Given.{Given};
ghost use Rattle.dali_drive.specs.Desks.{EndsAs, Grows, Works};
ghost use Rattle.dali_drive.specs.Followed.{with_next, happenings, IsFollowed, GivenOn};
ghost use Rattle.dali_drive.specs.Followed.{IsObservedFollow, IsObservedFollowBreak};
ghost use Rattle.dali_drive.specs.Transcript.{Streams};
ghost use Rattle.dali_drive.specs.WorkedOn.{IsReady};
ghost use Rattle.dali_trace.specs.Trace.{Start};
ghost use Rattle.dali_engine.specs.WriterState.{start_of, IsAtRest};

use crate::desk::Desk;
use crate::driving::{begin, carry_out};
use crate::lines::Line;
use crate::observer::Observer;
use dali_bank::Order;
use dali_engine::Writer;
use dali_trace::DriveFault;

/// The items that a source of orders gives (profile).
pub enum Given {
    /// An order, to be submitted at this moment.
    Order(Order, u64),
    /// A line that is written out, and changes nothing: that of an item which is refused.
    Line(Line),
}

/// A source of orders, one after another (profile).
pub trait Orders {
    /// Since it was the first of the two, it gave these, the newest first.
    ghost gave: { Self → Self → List Given → Type 0 };

    /// There is no more.
    ghost over: { Self → Type 0 };

    /// The next item, if there is more.
    fn next(&mut self) -> Option<Given>
        ensures given { (first : Self) (given : List Given) → gave first self.old given
            → gave first self.new (with_next result given) }
        ensures over { IfNone result (over self.new) };

    /// At first it gave nothing.
    ghost gave_none: { (orders : Self) → gave orders orders [] };
}

/// Carries out what the writer still has to do, and then what a source of orders gives, one after another, as `drive`
/// does: each order is submitted at its moment, its reply written, and the work done that it makes, and each line is
/// written, before the next is taken (profile). It ends where the source does. An observer sees all that happens.
pub fn follow<D: Desk, G: Orders, B: Observer>(
    writer: Writer,
    orders: &mut G,
    desk: &mut D,
    observer: &mut B,
) -> Result<Writer, DriveFault>
    requires ready { IsReady writer (D.look desk.old) }
    ensures followed { IfOk result (λ followed.
        IsObservedFollow G.gave G.over B.told (start_of writer) orders.old (D.look desk.old).streams
        observer.old followed orders.new (D.look desk.new).streams observer.new) }
    ensures rests { IfOk result IsAtRest }
    ensures broken { IfErr result (λ fault.
        IsObservedFollowBreak G.gave B.told B.told_end (start_of writer) orders.old fault
        (D.look desk.old).streams observer.old orders.new (D.look desk.new).streams observer.new
        (D.look desk.new).may_leave) }
    ensures ends { EndsAs result (D.look desk.new) }
    ensures grown { Grows D.look D.moment D.left_since D.same desk.old desk.new }
{
    let mut writer = writer;
    begin(&mut writer, desk, observer)?;
    for _ in 0..u64::MAX {
        let Some(given) = orders.next() else {
            return Ok(writer);
        };
        take(&mut writer, given, desk, observer)?;
    }
    Ok(writer)
}

// Carries out the order that was given, or tells the line.
fn take<D: Desk, B: Observer>(
    writer: &mut Writer,
    given: Given,
    desk: &mut D,
    observer: &mut B,
) -> Result<(), DriveFault>
    requires ready { IsReady writer.old (D.look desk.old) }
    ensures worked { Works D.look D.moment D.left_since D.same result desk.old desk.new
        ((start : Start) (before : List Given) (first : Streams) (since : B)
        (follow : IsFollowed start before first writer.old (D.look desk.old).streams)
        → B.told start since observer.old (happenings follow.steps)
        → GivenOn start (given ∷ before) first result writer.new (D.look desk.old) (D.look desk.new)
        (B.told start since observer.new) (B.told_end start since observer.new)) }
    ensures rests { OnOk result (IsAtRest writer.new) }
{
    match given {
        Given::Order(order, moment) => carry_out(writer, order, moment, desk, observer),
        Given::Line(line) => {
            if desk.say(&line) {
                Ok(())
            } else {
                Err(DriveFault::Out)
            }
        }
    }
}
