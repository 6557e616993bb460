ghost use Rattle.std.specs.Prelude.{◌≡◌, ◌↔◌, ◌<◌, ◌⊎◌, ◌∷◌, [], ℕ, List, Option, IfOk, OnErr, IsOk, IfSome, IsNone};
ghost use Rattle.dali_frame.specs.declared.forward.Frame.{Frame};
ghost use Rattle.dali_frame.specs.Frame.{IsProper};
ghost use Rattle.dali_write.specs.declared.pace.Pace.{Pace};
ghost use Rattle.dali_journal.specs.declared.record.Record.{Record};
ghost use Rattle.dali_journal.specs.Sentence.{HasShortUnit};
ghost use Rattle.dali_journal.specs.Orders.{kept_of};
ghost use Rattle.dali_journal.specs.JournalState.{HasRoom};
ghost use Rattle.dali_trace.specs.declared.happening.Happening.{Happening};
ghost use Rattle.dali_trace.specs.declared.happening.Happening.TheVariants as happenings;
ghost use Rattle.dali_trace.specs.declared.happening.Reply.{Reply};
ghost use Rattle.dali_trace.specs.declared.happening.Reply.TheVariants as replies;
ghost use Rattle.dali_trace.specs.declared.happening.Want.{Want};
ghost use Rattle.dali_trace.specs.Trace.{Start, is_busy};
ghost use Rattle.dali_engine.specs.Phases.{want_of, is_wanting, IsKeep, IsSend, IsSay};
ghost use Rattle.dali_trace.specs.Replies.{IsNotEnded, IsKnownReply, IsReply};
ghost use Rattle.dali_engine.specs.WriterState.{WriterState, start_of, IsFirst, IsAtRest};
ghost use Rattle.dali_trace.specs.Parts.{IsKeptNext};
ghost use Rattle.dali_journal.specs.Spelling.{NamesShortUnit};
ghost use Rattle.dali_engine.specs.WorkLeft.{work_left};
ghost use Rattle.dali_engine.specs.Describes.{Describes};
ghost use Rattle.dali_engine.specs.Follows.{Follows};
ghost use Rattle.dali_trace.specs.Next.{IsNext, IsDone};
ghost use Rattle.dali_trace.specs.Causes.{IsCauseBeside};

use crate::phase::{Phase, after_check, check_record, resumed_phase, write_code};
use dali_bank::Order;
use dali_journal::{Journal, Kept, NoMemory, Record, Standing};
use dali_trace::{Reply, Want};
use dali_write::{Ask, Cause, Pace, Session};
use std::marker::Model;
use std::mem;

/// A writer of orders (profile): a journal, and what comes next.
///
/// It says what it wants (`want`), and one of `kept`, `heard` and `said` reports that it was done. It takes memory in
/// `submit` alone.
pub struct Writer {
    journal: Journal,
    phase: Phase,
    pace: Pace,
}

// Called wherever one goes: what is derived would be written out at each such place.
impl Drop for Writer {
    fn drop(self) {
        let Writer {
            journal: _,
            phase: _,
            pace: _,
        } = self;
    }
}

impl Model for Writer {
    ghost use Rattle.dali_engine.specs.WriterState.{WriterState};
    ghost use Rattle.dali_engine.specs.Inside.{writer_state, IsConsistent};

    ghost Value = { WriterState };

    ghost view = { writer_state };

    ghost invariant = { IsConsistent };
}

impl Writer {
    /// A writer by the checked plan: as `with_pace` with `Pace::Checked`.
    pub fn new(journal: Journal) -> Writer
        ensures described { (start : Start) → start.records ≡ journal.records → start.limit ≡ journal.limit
            → start.pace ≡ Pace.Checked → Describes start [] result }
        ensures follows { (start : Start) → Follows start [] result }
        ensures journal { result.journal ≡ journal }
        ensures pace { result.pace ≡ Pace.Checked }
        ensures rest { IsAtRest result }
        ensures stopped { (start : Start) (past : List Happening) (before : WriterState) → Describes start past before
            → before.journal.records ≡ journal.records → before.journal.limit ≡ journal.limit
            → Describes start (happenings.Stopped Pace.Checked ∷ past) result }
        ensures stopped_follows { (start : Start) (past : List Happening) (before : WriterState)
            → Follows start past before → Follows start (happenings.Stopped Pace.Checked ∷ past) result }
    {
        Writer::with_pace(journal, Pace::Checked)
    }

    /// A writer by this plan that goes on from what the journal says: an order that was begun is looked at anew,
    /// one that was opened is carried out anew, and a unit that was left stays left. So does a program
    /// that was stopped, from the journal that it loads: `stopped`.
    pub fn with_pace(journal: Journal, pace: Pace) -> Writer
        ensures described { (start : Start) → start.records ≡ journal.records → start.limit ≡ journal.limit
            → start.pace ≡ pace → Describes start [] result }
        ensures follows { (start : Start) → Follows start [] result }
        ensures journal { result.journal ≡ journal }
        ensures pace { result.pace ≡ pace }
        ensures rest { IsAtRest result }
        ensures stopped { (start : Start) (past : List Happening) (before : WriterState) → Describes start past before
            → before.journal.records ≡ journal.records → before.journal.limit ≡ journal.limit
            → Describes start (happenings.Stopped pace ∷ past) result }
        ensures stopped_follows { (start : Start) (past : List Happening) (before : WriterState)
            → Follows start past before → Follows start (happenings.Stopped pace ∷ past) result }
    {
        let phase = resumed_phase(pace, journal.standing());
        Writer {
            journal,
            phase,
            pace,
        }
    }

    /// The plan that it keeps to.
    pub fn pace(&self) -> Pace
        ensures { result ≡ self.now.pace }
    {
        self.pace
    }

    /// The writer's journal.
    pub fn journal(&self) -> &Journal
        ensures { result.now ≡ self.now.journal }
    {
        &self.journal
    }

    /// Does nothing. A writer at rest is described by the empty trace from the records that it has, and follows it.
    pub fn rest(&self)
        requires { IsAtRest self.now }
        ensures described { Describes (start_of self.now) [] self.now }
        ensures follows { Follows (start_of self.now) [] self.now }
    {
        let _limit = self.journal.limit();
    }

    /// The next thing to be done: the one that may come next by the rules and by the plan, if the trace is busy.
    pub fn want(&self) -> Want
        ensures phase { result ≡ want_of self.now.phase }
        ensures busy { (start : Start) (past : List Happening) → Describes start past self.now
            → is_busy start past ≡ is_wanting result }
        ensures proper { (frame : Frame) → result ≡ Want.Send frame → IsProper frame }
        ensures rest { result ≡ Want.Idle → IsAtRest self.now }
        ensures short { (entry : Record) → result ≡ Want.Keep entry → NamesShortUnit entry }
        ensures next { (start : Start) (past : List Happening) → Describes start past self.now
            → Follows start past self.now
            → (entry : Record) → (result ≡ Want.Keep entry) ↔ IsKeptNext start past entry }
        ensures done { (start : Start) (past : List Happening) → Describes start past self.now
            → Follows start past self.now
            → (next : Happening) → IsDone result next → IsNext start past next }
    {
        self.phase.want()
    }

    /// Why the order at hand comes to no good end, as far as its session has seen: its first access that failed, or
    /// that read another byte back than the one that was written. None if all went well so far, or no order is at work;
    /// some if it ends as `Silent`, `Doubt` or `DoubtOpen`.
    pub fn cause(&self) -> Option<Cause>
        ensures { (start : Start) (past : List Happening) (entry : Record) → Describes start past self.now
            → Follows start past self.now → want_of self.now.phase ≡ Want.Keep entry
            → IsCauseBeside start past (happenings.Kept entry) result }
    {
        self.phase.cause()
    }

    /// Takes an order, or tells why not: the first of these replies that applies.
    ///
    /// 1 `Kept`: the journal has ended this same order. 2 `IdReused`: the journal has its number for another unit or
    /// with other updates. 3 `Busy`: something is wanted. 4 `Full`: the journal holds as many orders as it may. 5
    /// `Taken`. 6 `Blocked` is never given at once. `NoMemory` comes if an order could be taken, but there is no memory
    /// for its records. Only `Taken` changes what the writer wants. The moment is a number of the caller's, kept in the
    /// order's `Began`; replies pass over it.
    pub fn submit(&mut self, order: Order, moment: u64) -> Result<Reply, NoMemory>
        ensures described { IfOk result
            (λ reply. (start : Start) (past : List Happening) → Describes start past self.old
            → Describes start (happenings.Answered order.id reply ∷ happenings.Asked order moment ∷ past) self.new) }
        ensures follows { IfOk result (λ reply. (start : Start) (past : List Happening) → Follows start past self.old
            → Follows start (happenings.Answered order.id reply ∷ happenings.Asked order moment ∷ past) self.new) }
        ensures only_taken { IfOk result (λ reply. (reply ≡ replies.Taken) ⊎ (self.new ≡ self.old)) }
        ensures pace { self.new.pace ≡ self.old.pace }
        ensures unchanged { OnErr result
            ((self.new.phase ≡ self.old.phase) × (self.new.journal.records ≡ self.old.journal.records)
            × (self.new.journal.limit ≡ self.old.journal.limit)) }
        ensures refused { OnErr result ((start : Start) (past : List Happening) → Describes start past self.old
            → Describes start past self.new) }
        ensures refused_follows { OnErr result ((start : Start) (past : List Happening) → Follows start past self.old
            → Follows start past self.new) }
        ensures due { OnErr result ((start : Start) (past : List Happening) → Describes start past self.old
            → IsReply start past order replies.Taken) }
        ensures succeeds { HasRoom self.old.journal order → IsOk result }
    {
        if let Some(reply) = known_reply(&self.journal, &order) {
            return Ok(reply);
        }
        if !self.phase.is_idle() {
            return Ok(Reply::Busy);
        }
        if self.journal.is_full() {
            return Ok(Reply::Full);
        }
        self.journal.reserve(&order)?;
        self.phase = first_phase(self.journal.standing(), order, moment);
        Ok(Reply::Taken)
    }

    /// The record that was wanted was kept. It takes no memory.
    ///
    /// A record has to be wanted.
    pub fn kept(&mut self)
        requires { IsKeep (want_of self.old.phase) }
        ensures falls { work_left self.new.phase < work_left self.old.phase }
        ensures pace { self.new.pace ≡ self.old.pace }
        ensures described { (start : Start) (past : List Happening) (entry : Record)
            → want_of self.old.phase ≡ Want.Keep entry
            → Describes start past self.old → Describes start (happenings.Kept entry ∷ past) self.new }
        ensures follows { (start : Start) (past : List Happening) (entry : Record)
            → want_of self.old.phase ≡ Want.Keep entry
            → Describes start past self.old → Follows start past self.old
            → Follows start (happenings.Kept entry ∷ past) self.new }
    {
        match mem::replace(&mut self.phase, Phase::Idle) {
            Phase::Begins(order, moment) => {
                self.journal.append(Record::Began(order.copy(), moment));
                let session = Session::fresh_with_pace(order.copy(), self.pace);
                self.phase = Phase::Checks(order, session);
            }
            Phase::Checks(order, session) => {
                if let Ask::Ended(verdict) = session.want() {
                    self.journal.append(check_record(order.unit(), verdict));
                    self.phase = after_check(self.pace, order, verdict);
                }
            }
            Phase::Writes(order, session) => {
                if let Ask::Ended(verdict) = session.want() {
                    let code = write_code(verdict);
                    self.journal.append(Record::Ended(code));
                    self.phase = Phase::Says(order.id(), code);
                }
            }
            Phase::Closes(order, moment, session) => {
                self.journal.append(Record::Closed(session.unit()));
                self.phase = Phase::Begins(order, moment);
            }
            Phase::Idle => {}
            Phase::Says(_, _) => {}
        }
    }

    /// The frame that was wanted was sent, and this is its answer or none.
    ///
    /// A frame has to be wanted.
    pub fn heard(&mut self, answer: Option<u8>)
        requires { IsSend (want_of self.old.phase) }
        ensures falls { work_left self.new.phase < work_left self.old.phase }
        ensures pace { self.new.pace ≡ self.old.pace }
        ensures described { (start : Start) (past : List Happening) (frame : Frame)
            → want_of self.old.phase ≡ Want.Send frame
            → Describes start past self.old → Describes start (happenings.Sent frame answer ∷ past) self.new }
        ensures follows { (start : Start) (past : List Happening) (frame : Frame)
            → want_of self.old.phase ≡ Want.Send frame
            → Describes start past self.old → Follows start past self.old
            → Follows start (happenings.Sent frame answer ∷ past) self.new }
    {
        match &mut self.phase {
            Phase::Checks(_, session) => session.heard(answer),
            Phase::Writes(_, session) => session.heard(answer),
            Phase::Closes(_, _, session) => session.heard(answer),
            Phase::Idle => {}
            Phase::Begins(_, _) => {}
            Phase::Says(_, _) => {}
        }
    }

    /// The saying that was wanted was said.
    ///
    /// Something has to be wanted to be said.
    pub fn said(&mut self)
        requires { IsSay (want_of self.old.phase) }
        ensures falls { work_left self.new.phase < work_left self.old.phase }
        ensures pace { self.new.pace ≡ self.old.pace }
        ensures described { (start : Start) (past : List Happening) (id : ℕ) (reply : Reply)
            → want_of self.old.phase ≡ Want.Say id reply
            → Describes start past self.old → Describes start (happenings.Answered id reply ∷ past) self.new }
        ensures follows { (start : Start) (past : List Happening) (id : ℕ) (reply : Reply)
            → want_of self.old.phase ≡ Want.Say id reply
            → Describes start past self.old → Follows start past self.old
            → Follows start (happenings.Answered id reply ∷ past) self.new }
    {
        self.phase = Phase::Idle;
    }
}

/// The reply that the journal has for an order, whatever else is at work: Kept or IdReused. None if it hasn't ended the
/// order, and its number is no other's.
pub fn known_reply(journal: &Journal, order: &Order) -> Option<Reply>
    ensures some { IfSome result (λ reply. IsKnownReply order.now (kept_of order.now.id journal.now.records) reply) }
    ensures none { IsNone result → IsNotEnded order.now (kept_of order.now.id journal.now.records) }
{
    match journal.kept(order.id()) {
        Kept::Absent => None,
        Kept::Unfinished(old) => {
            if old.same(order) {
                None
            } else {
                Some(Reply::IdReused)
            }
        }
        Kept::Ended(old, code) => {
            if old.same(order) {
                Some(Reply::Kept(code))
            } else {
                Some(Reply::IdReused)
            }
        }
    }
}

// The first phase of an order that is taken: a unit that was left is closed.
fn first_phase(standing: Standing, order: Order, moment: u64) -> Phase
    requires { HasShortUnit standing }
    ensures { IsFirst standing order moment result }
{
    match standing {
        Standing::Left(unit) => Phase::Closes(order, moment, Session::closing(unit)),
        Standing::Idle | Standing::Began(_) | Standing::Opened(_) => Phase::Begins(order, moment),
    }
}
