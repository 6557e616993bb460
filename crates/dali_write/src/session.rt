ghost use Rattle.std.specs.Prelude.{◌≡◌, ◌∷◌, ◌≤◌, ◌<◌, ◌+◌, ◌*◌, [], List, ℕ, Option, IsSome, IsNone, IfSome, IfOk};
ghost use Rattle.std.specs.Prelude.{◌++◌, drop, length, slice_get, Some, true};
ghost use Rattle.dali_frame.specs.declared.forward.Frame.{Frame};
ghost use Rattle.dali_frame.specs.Frame.{IsProper};
ghost use Rattle.dali_write.specs.Exchanges.{Exchange};
ghost use Rattle.dali_write.specs.Requests.{Meets, request, access_requests, read_answer};
ghost use Rattle.dali_write.specs.Blocks.{Fits};
ghost use Rattle.dali_write.specs.Plans.{next_plan};
ghost use Rattle.dali_write.specs.Tries.{most_tries, plan_requests, IsGoing};
ghost use Rattle.dali_write.specs.declared.request.Wish.{Wish};
ghost use Rattle.dali_write.specs.declared.ask.Verdict.{Verdict};
ghost use Rattle.dali_write.specs.declared.pace.Pace.{Pace};
ghost use Rattle.dali_write.specs.declared.stage.Task.{Task};
ghost use Rattle.dali_write.specs.Stages.{plan_of, order_for, plan_at, access_of};
ghost use Rattle.dali_write.specs.Found.{kept_after, is_small};
ghost use Rattle.dali_write.specs.Causes.{first_of};
ghost use Rattle.dali_write.specs.FramesLeft.{limit_at};
ghost use Rattle.dali_write.specs.Counts.{fresh_limit, opened_limit, closing_limit, reading_limit};

use crate::ask::{Ask, Cause, Verdict};
use crate::block::Block;
use crate::pace::Pace;
use crate::request::Request;
use crate::stage::{Stage, Task};
use arrayvec::ArrayVec;
use dali_bank::Order;
use dali_frame::Frame;

// The most tries of an access.
const MOST_TRIES: u8 = 8;

// The most frames of a try: those of a read of sixteen locations.
const MOST_FRAMES: usize = 22;

/// A session with one unit (profile): it goes through a plan of checked reads and writes, frame by
/// frame.
///
/// A *checked read* of a location sets DTR1 to 01h and asks it back, sets DTR0 to the location and
/// asks it back, reads, and asks both back once more: DTR0 has moved on, and DTR1 is 01h still. A
/// *checked write* enables writes by two frames, does the first four frames of a read, and writes. A
/// missing or other answer than the one that the frame wants ends the try, and the next one begins with
/// the first frame; the access fails when its eighth try ends so. An answer to a frame that has none is
/// passed over.
#[derive(Drop)]
pub struct Session {
    unit: u8,
    task: Task,
    stage: Stage,
    // the tries of the access at hand that missed
    misses: u8,
    // the number of the frame in the try at hand
    number: usize,
    // what the try at hand has read
    tried: ArrayVec<u8, MOST_FRAMES>,
    // what a reading session has read so far
    bytes: ArrayVec<u8, 255>,
    // why it comes to no good end
    cause: Option<Cause>,
    ghost short: { unit ≤ 63 },
    ghost few: { misses < most_tries },
    ghost going: { IsGoing (plan_at task stage) (drop number (plan_requests unit (plan_at task stage) misses)) },
    ghost small: { is_small task ≡ true },
    ghost room: { length tried.items ≤ number },
    ghost held: { length bytes.items ≤ 255 },
}

impl Session {
    ghost use Rattle.dali_write.specs.Told.{Told, unit_of, task_of, bytes_read, cause_of, aim_of, request_at_hand};
    ghost use Rattle.dali_write.specs.Told.{frames_left};
    ghost use Rattle.dali_write.specs.Told.{BeginsTry};

    /// As `fresh_with_pace`, by the checked plan.
    pub fn fresh(order: Order) -> Session
        ensures unit { unit_of result ≡ order.unit }
        ensures task { task_of result ≡ Task.Fresh order Pace.Checked }
        ensures told { Told [] result }
        ensures left { frames_left result ≡ fresh_limit }
    {
        Session::fresh_with_pace(order, Pace::Checked)
    }

    /// Looks whether bank 1 of the order's unit suits the order: its last location, and the content format if the order
    /// writes from 13h on. Ends as `MayOpen`, `Short`, `Format` or `Silent`.
    pub fn fresh_with_pace(order: Order, pace: Pace) -> Session
        ensures unit { unit_of result ≡ order.unit }
        ensures task { task_of result ≡ Task.Fresh order pace }
        ensures told { Told [] result }
        ensures left { frames_left result ≡ fresh_limit }
    {
        Session::begun(order.unit(), Task::Fresh(order, pace), Stage::ReadLength)
    }

    /// As `opened_with_pace`, by the checked plan.
    pub fn opened(order: Order) -> Session
        ensures unit { unit_of result ≡ order.unit }
        ensures task { task_of result ≡ Task.Opened order Pace.Checked }
        ensures told { Told [] result }
        ensures left { frames_left result ≡ opened_limit (length order.updates) }
    {
        Session::opened_with_pace(order, Pace::Checked)
    }

    /// Carries the order out: unlocks bank 1, writes each update, locks it and reads all back. If an access fails that
    /// isn't read again in smaller rows, or another byte is read back, closes the unit. Ends as `Done`, `Doubt` or
    /// `DoubtOpen`.
    pub fn opened_with_pace(order: Order, pace: Pace) -> Session
        ensures unit { unit_of result ≡ order.unit }
        ensures task { task_of result ≡ Task.Opened order pace }
        ensures told { Told [] result }
        ensures left { frames_left result ≡ opened_limit (length order.updates) }
    {
        Session::begun(order.unit(), Task::Opened(order, pace), Stage::Unlock)
    }

    /// Closes the unit at a short address, at most 63: locks bank 1, whether or not that succeeds,
    /// and reads the lock byte. Ends as `Closed` or `NotClosed`.
    pub fn closing(unit: u8) -> Session
        requires { unit ≤ 63 }
        ensures unit { unit_of result ≡ unit }
        ensures task { task_of result ≡ Task.Closing }
        ensures told { Told [] result }
        ensures left { frames_left result ≡ closing_limit }
    {
        Session::begun(
            unit,
            Task::Closing,
            Stage::Close(Verdict::Closed, Verdict::NotClosed),
        )
    }

    /// Reads bank 1 of the unit at a short address, at most 63: location 00h, and then those up to
    /// the one that 00h names, at most up to FEh. Ends as `Read` or `Silent`.
    pub fn reading(unit: u8) -> Session
        requires { unit ≤ 63 }
        ensures unit { unit_of result ≡ unit }
        ensures task { task_of result ≡ Task.Reading }
        ensures told { Told [] result }
        ensures left { frames_left result ≡ reading_limit }
    {
        Session::begun(unit, Task::Reading, Stage::ReadAll)
    }

    /// Reads a block of locations of bank 1 of the unit at a short address, at most 63. Ends as `Read` or `Silent`.
    pub fn reading_block(unit: u8, block: Block) -> Session
        requires unit { unit ≤ 63 }
        requires block { Fits block }
        ensures unit { unit_of result ≡ unit }
        ensures task { task_of result ≡ Task.ReadingBlock block }
        ensures told { Told [] result }
        ensures left { frames_left result ≡ 8 * (block.count + 6) }
    {
        Session::begun(unit, Task::ReadingBlock(block), Stage::ReadBlock)
    }

    fn begun(unit: u8, task: Task, stage: Stage) -> Session
        requires short { unit ≤ 63 }
        requires small { is_small task ≡ true }
        requires stage { plan_at task stage ≡ plan_of task }
        ensures unit { unit_of result ≡ unit }
        ensures task { task_of result ≡ task }
        ensures told { Told [] result }
        ensures left { frames_left result ≡ limit_at task stage }
    {
        Session {
            unit,
            task,
            stage,
            misses: 0,
            number: 0,
            tried: ArrayVec::new(),
            bytes: ArrayVec::new(),
            cause: None,
        }
    }

    /// The frame that the session wants to send, which is proper, or how it ended.
    pub fn want(&self) -> Ask
        ensures aim { result ≡ aim_of self.now }
        ensures proper { (frame : Frame) → result ≡ Ask.Send frame → IsProper frame }
    {
        match self.stage.access(&self.task) {
            Ok(access) => match access.request(self.unit, self.misses, self.number) {
                Some(request) => Ask::Send(request.frame),
                // an access at hand has a next frame
                None => unreachable!(),
            },
            Err(verdict) => Ask::Ended(verdict),
        }
    }

    /// The short address of the session's unit, 0 to 63.
    pub fn unit(&self) -> u8
        ensures value { result ≡ unit_of self.now }
        ensures short { result ≤ 63 }
    {
        self.unit
    }

    /// The order of a fresh or an opened session.
    pub fn order(&self) -> Option<&Order>
        ensures some { IfSome result (λ order. order_for (task_of self.now) ≡ Some order.now) }
        ensures none { IsNone result → order_for (task_of self.now) ≡ None }
    {
        match &self.task {
            Task::Fresh(order, _) | Task::Opened(order, _) => Some(order),
            Task::Closing | Task::Reading | Task::ReadingBlock(_) => None,
        }
    }

    /// The bytes that a reading session has read so far, at most 255: bank 1 from location 00h on, or its block. Empty
    /// for the others.
    pub fn bytes(&self) -> &[u8]
        ensures value { result.now ≡ bytes_read self.now }
        ensures few { length result.now ≤ 255 }
    {
        self.bytes.as_slice()
    }

    /// Why the session comes to no good end, as far as its exchanges show: its first access that failed and wasn't read
    /// again, or that read another byte back than the one that was written. None if all went well so far.
    pub fn cause(&self) -> Option<Cause>
        ensures { result ≡ cause_of self.now }
    {
        self.cause
    }

    /// Tells the session the answer to the frame that it wanted. A session that has ended is as it
    /// was.
    pub fn heard(&mut self, answer: Option<u8>)
        ensures unit { unit_of self.new ≡ unit_of self.old }
        ensures task { task_of self.new ≡ task_of self.old }
        ensures told { (told : List Exchange) (frame : Frame) → aim_of self.old ≡ Ask.Send frame → Told told self.old
            → Told (record { frame = frame; answer = answer } ∷ told) self.new }
        ensures ended { (verdict : Verdict) → aim_of self.old ≡ Ask.Ended verdict → self.new ≡ self.old }
        ensures falls { (frame : Frame) → aim_of self.old ≡ Ask.Send frame
            → frames_left self.new < frames_left self.old }
    {
        if let Some(request) = self.request() {
            if request.wish.is_met(answer) {
                self.go_on(&request.frame, answer);
            } else {
                self.miss();
            }
        }
    }

    // The frame at hand, with the answer that it wants.
    fn request(&self) -> Option<Request>
        ensures { result ≡ request_at_hand self.now }
    {
        self.request_at(self.number)
    }

    // The frame of this number of the access at hand, with the answer that it wants.
    fn request_at(&self, number: usize) -> Option<Request>
        ensures { result ≡ slice_get
            (plan_requests self.now.unit (plan_at self.now.task self.now.stage) self.now.misses) number }
    {
        match self.stage.access(&self.task) {
            Ok(access) => access.request(self.unit, self.misses, number),
            Err(_) => None,
        }
    }

    // The frame at hand got the answer that it wants.
    fn go_on(&mut self, frame: &Frame, answer: Option<u8>)
        requires { IsSome (request_at_hand self.old) }
        ensures unit { self.new.unit ≡ self.old.unit }
        ensures task { self.new.task ≡ self.old.task }
        ensures told { (told : List Exchange) (wish : Wish) → request_at_hand self.old ≡ Some (request frame.now wish)
            → Meets wish answer → Told told self.old
            → Told (record { frame = frame.now; answer = answer } ∷ told) self.new }
        ensures falls { frames_left self.new < frames_left self.old }
    {
        let more = self.request_at(self.number + 1).is_some();
        keep_answer(&mut self.tried, frame, answer);
        if more {
            self.number += 1;
        } else {
            keep_read(&mut self.bytes, &self.task, &self.tried);
            keep_cause(&mut self.cause, self.stage.another(&self.task, &self.tried));
            self.stage = self.stage.told(&self.task, &self.tried);
            self.misses = 0;
            self.number = 0;
            self.tried.clear();
        }
    }

    // The frame at hand got another answer, and the try ends.
    fn miss(&mut self)
        ensures unit { self.new.unit ≡ self.old.unit }
        ensures task { self.new.task ≡ self.old.task }
        ensures told { (told : List Exchange) (frame : Frame) (answer : Option ℕ) (wish : Wish)
            → request_at_hand self.old ≡ Some (request frame wish) → ¬ Meets wish answer
            → Told told self.old → Told (record { frame = frame; answer = answer } ∷ told) self.new }
        ensures falls { IsSome (request_at_hand self.old) → frames_left self.new < frames_left self.old }
    {
        if self.misses + 1 < MOST_TRIES {
            self.misses += 1;
            self.number = 0;
            self.tried.clear();
        } else {
            keep_cause(&mut self.cause, self.stage.failure(&self.task));
            self.stage = self.stage.failed(&self.task);
            self.misses = 0;
            self.number = 0;
            self.tried.clear();
        }
    }
}

// Keeps what was answered to a read.
fn keep_answer(tried: &mut ArrayVec<u8, MOST_FRAMES>, frame: &Frame, answer: Option<u8>)
    requires { length tried.old.items < 22 }
    ensures read { tried.new.items ≡ tried.old.items ++ read_answer frame.now answer }
    ensures few { length tried.new.items ≤ length tried.old.items + 1 }
{
    if let (Frame::Read(_), Some(byte)) = (frame, answer) {
        let _fits = tried.try_push(byte);
    }
}

// Keeps the first cause that there is.
fn keep_cause(kept: &mut Option<Cause>, cause: Option<Cause>)
    ensures { kept.new ≡ first_of kept.old cause }
{
    if kept.is_none() {
        *kept = cause;
    }
}

// Keeps what a session that reads has read.
fn keep_read(bytes: &mut ArrayVec<u8, 255>, task: &Task, tried: &[u8])
    requires { length bytes.old.items ≤ 255 }
    ensures few { length bytes.new.items ≤ 255 }
    ensures read { length bytes.old.items + length tried.now ≤ 255
        → bytes.new.items ≡ kept_after task.now bytes.old.items tried.now }
{
    if let Task::Reading | Task::ReadingBlock(_) = task {
        let _fits = bytes.try_extend_from_slice(tried);
    }
}
