ghost use Rattle.std.specs.Prelude.{◌≡◌, ◌≤◌};
ghost use Rattle.dali_frame.specs.declared.forward.Frame.{Frame};
ghost use Rattle.dali_frame.specs.Frame.{IsProper};
ghost use Rattle.dali_trace.specs.declared.happening.Want.{Want};
ghost use Rattle.dali_journal.specs.declared.record.Record.{Record};
ghost use Rattle.dali_journal.specs.Spelling.{NamesShortUnit};
ghost use Rattle.dali_engine.specs.Phases.{want_of, cause_at, check_record, check_code, write_code, is_idle};
ghost use Rattle.dali_engine.specs.WriterState.{IsAfterCheck, IsResumed};

use dali_bank::Order;
use dali_journal::{Code, Record, Standing};
use dali_trace::{Reply, Want};
use dali_write::{Ask, Cause, Pace, Session, Verdict};

// The next step of a writer.
#[derive(Drop)]
pub(crate) enum Phase {
    // nothing
    Idle,
    // to begin an order that was taken, submitted at this moment
    Begins(Order, u64),
    // to look whether the unit of the order that was begun suits it
    Checks(Order, Session),
    // to carry the order out that was opened
    Writes(Order, Session),
    // to close a unit that was left, for an order that was taken, submitted at this moment
    Closes(Order, u64, Session),
    // to say how the order of this number ended
    Says(u64, Code),
}

impl Phase {
    pub(crate) fn is_idle(&self) -> bool
        ensures { result ≡ is_idle self.now }
    {
        matches!(self, Phase::Idle)
    }

    // Why the order at hand comes to no good end.
    pub(crate) fn cause(&self) -> Option<Cause>
        ensures { result ≡ cause_at self.now }
    {
        match self {
            Phase::Checks(_, session) | Phase::Writes(_, session) => session.cause(),
            Phase::Idle | Phase::Begins(_, _) | Phase::Closes(_, _, _) | Phase::Says(_, _) => None,
        }
    }

    // The next thing to be done.
    pub(crate) fn want(&self) -> Want
        ensures want { result ≡ want_of self.now }
        ensures proper { (frame : Frame) → result ≡ Want.Send frame → IsProper frame }
        ensures short { (entry : Record) → result ≡ Want.Keep entry → NamesShortUnit entry }
    {
        match self {
            Phase::Idle => Want::Idle,
            Phase::Begins(order, moment) => Want::Keep(Record::Began(order.copy(), *moment)),
            Phase::Checks(order, session) => match session.want() {
                Ask::Send(frame) => Want::Send(frame),
                Ask::Ended(verdict) => Want::Keep(check_record(order.unit(), verdict)),
            },
            Phase::Writes(_, session) => match session.want() {
                Ask::Send(frame) => Want::Send(frame),
                Ask::Ended(verdict) => Want::Keep(Record::Ended(write_code(verdict))),
            },
            Phase::Closes(order, _, session) => match session.want() {
                Ask::Send(frame) => Want::Send(frame),
                Ask::Ended(Verdict::Closed) => Want::Keep(Record::Closed(session.unit())),
                // It ends as `NotClosed`, and as none of the others.
                Ask::Ended(
                    Verdict::NotClosed
                    | Verdict::MayOpen
                    | Verdict::Done
                    | Verdict::Short
                    | Verdict::Format
                    | Verdict::Silent
                    | Verdict::Doubt
                    | Verdict::DoubtOpen
                    | Verdict::Read,
                ) => Want::Say(order.id(), Reply::Blocked(session.unit())),
            },
            Phase::Says(id, code) => Want::Say(*id, Reply::Kept(*code)),
        }
    }
}

// The record by which a fresh session is followed that ended so.
pub(crate) fn check_record(unit: u8, verdict: Verdict) -> Record
    ensures record { result ≡ check_record unit verdict }
    ensures short { unit ≤ 63 → NamesShortUnit result }
{
    match verdict {
        Verdict::MayOpen => Record::Opened(unit),
        _ => Record::Ended(check_code(verdict)),
    }
}

// How an order ends whose fresh session ended so.
fn check_code(verdict: Verdict) -> Code
    ensures { result ≡ check_code verdict }
{
    match verdict {
        Verdict::Short => Code::Short,
        Verdict::Format => Code::Format,
        Verdict::Silent => Code::Silent,
        // As none of these it ends.
        Verdict::MayOpen
        | Verdict::Done
        | Verdict::Doubt
        | Verdict::DoubtOpen
        | Verdict::Closed
        | Verdict::NotClosed
        | Verdict::Read => Code::Silent,
    }
}

// How an order ends whose opened session ended so.
pub(crate) fn write_code(verdict: Verdict) -> Code
    ensures { result ≡ write_code verdict }
{
    match verdict {
        Verdict::Done => Code::Done,
        Verdict::Doubt => Code::Doubt,
        Verdict::DoubtOpen => Code::DoubtOpen,
        // As none of these it ends.
        Verdict::MayOpen
        | Verdict::Short
        | Verdict::Format
        | Verdict::Silent
        | Verdict::Closed
        | Verdict::NotClosed
        | Verdict::Read => Code::DoubtOpen,
    }
}

// The phase after a fresh session that ended so: the order is carried out, or its end is said.
pub(crate) fn after_check(pace: Pace, order: Order, verdict: Verdict) -> Phase
    ensures { IsAfterCheck pace order verdict result }
{
    match verdict {
        Verdict::MayOpen => {
            let session = Session::opened_with_pace(order.copy(), pace);
            Phase::Writes(order, session)
        }
        _ => Phase::Says(order.id(), check_code(verdict)),
    }
}

// The first phase with this standing of the journal.
pub(crate) fn resumed_phase(pace: Pace, standing: Standing) -> Phase
    ensures { IsResumed pace standing result }
{
    match standing {
        Standing::Idle => Phase::Idle,
        Standing::Left(_) => Phase::Idle,
        Standing::Began(order) => {
            let session = Session::fresh_with_pace(order.copy(), pace);
            Phase::Checks(order, session)
        }
        Standing::Opened(order) => {
            let session = Session::opened_with_pace(order.copy(), pace);
            Phase::Writes(order, session)
        }
    }
}
