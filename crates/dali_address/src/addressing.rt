ghost use Rattle.std.specs.Prelude.{◌≡◌, ◌∷◌, ◌<◌, ◌≤◌, ◌+◌, ℕ, [], List};
ghost use Rattle.dali_address.specs.Told.{left_at};
ghost use Rattle.dali_address.specs.Evidences.{Stands};
ghost use Rattle.dali_address.specs.Phases.{IsFit};
ghost use Rattle.dali_address.specs.Rights.{IsRightWant};
ghost use Rattle.dali_address.specs.Steps.{Exchange};
ghost use Rattle.dali_address.specs.declared.call.Call.{Call};
ghost use Rattle.dali_address.specs.declared.task.Line.{Line};
ghost use Rattle.dali_address.specs.declared.task.Task.{Task};
ghost use Rattle.dali_address.specs.declared.task.Want.{Want};

use crate::evidence::Evidence;
use crate::ledger::Ledger;
use crate::phase::{Heard, Phase};
use crate::task::{Task, Want};

// More frames and lines than a run takes.
const MOST_WANTS: u32 = 1_000_000;

/// A run (profile): it gives short addresses, or tells who has one.
///
/// It keeps nothing over a kill: the next run goes on from what the units hold.
#[derive(Drop)]
pub struct Addressing<'a> {
    task: Task,
    ledger: Ledger<'a>,
    phase: Phase,
    evidence: Evidence,
    want: Want,
    // how many frames and lines it may still want, except for one
    left: u32,
}

impl<'a> Addressing<'a> {
    ghost use Rattle.dali_address.specs.Told.{Told, IsWanted, IsSaying, IsGoing, Keeps, task_of, want_of, left_of};

    /// A run for this task. If it gives, these short addresses, 0 to 63, are given first, in order. One above 63 ends
    /// the giving, and isn't given: the caller refuses it.
    pub fn new(task: Task, units: &'a [u8]) -> Addressing<'a>
        ensures task { task_of result ≡ task }
        ensures told { Told [] result }
    {
        let evidence = Evidence::new();
        let mut ledger = Ledger::new(task, units);
        let phase = ledger.first(task);
        let want = wanted(task, &ledger, &phase, &evidence);
        Addressing {
            task,
            ledger,
            phase,
            evidence,
            want,
            left: MOST_WANTS,
        }
    }

    /// Its want. If it has seen these frames and answers, that is right: a frame may follow them, a line is true.
    pub fn want(&self) -> Want
        ensures same { result ≡ want_of self.now }
        ensures right { (told : List Exchange) → Told told self.now → IsRightWant (task_of self.now) told result }
    {
        self.want
    }

    /// Tells what came back after the frame that it wanted. Nothing changes if it wanted none.
    pub fn heard(&mut self, answer: Option<u8>)
        ensures task { task_of self.new ≡ task_of self.old }
        ensures told { (told : List Exchange) (call : Call) → IsWanted self.old call → Told told self.old
            → Told (record { call = call; answer = answer } ∷ told) self.new }
        ensures falls { (call : Call) → IsWanted self.old call → left_of self.new < left_of self.old }
    {
        if let Want::Send(call) = self.want {
            self.evidence.hear(&call, answer);
            let heard = Heard {
                call,
                answer,
                evidence: &self.evidence,
            };
            let phase = self.ledger.after(self.task, self.phase, &heard);
            self.go(phase);
        }
    }

    /// Records that the line that it wanted was reported. Nothing changes if it wanted none.
    pub fn said(&mut self)
        ensures task { task_of self.new ≡ task_of self.old }
        ensures told { (told : List Exchange) (line : Line) → IsSaying self.old line → Told told self.old
            → Told told self.new }
        ensures falls { (line : Line) → IsSaying self.old line → left_of self.new < left_of self.old }
    {
        if let Want::Tell(line) = self.want {
            let phase = self.ledger.said(self.task, self.phase, &line);
            self.go(phase);
        }
    }

    // The next phase, or the end if its limit is reached.
    fn go(&mut self, phase: Phase)
        ensures kept { Keeps self.old self.new }
        ensures right { (told : List Exchange) → Stands self.old.evidence told → IsFit self.old.task phase
            → IsGoing told self.new }
        ensures falls { left_of self.new ≤ self.old.left }
    {
        if self.left == 0 {
            self.phase = Phase::Over;
            self.want = ended(&self.ledger, &self.evidence);
        } else {
            self.left -= 1;
            self.phase = phase;
            self.want = wanted(self.task, &self.ledger, &self.phase, &self.evidence);
        }
    }
}

// The want in this phase.
fn wanted(task: Task, ledger: &Ledger, phase: &Phase, evidence: &Evidence) -> Want
    ensures right { (told : List Exchange) → Stands evidence.now told → IsFit task phase.now
        → IsRightWant task told result }
    ensures falls { (left : ℕ) → left_at result left ≤ left + 1 }
{
    if let Some(line) = phase.line(evidence) {
        return Want::Tell(line);
    }
    match phase.call(evidence) {
        Some(call) => Want::Send(call),
        None => ended(ledger, evidence),
    }
}

// A run that only asked who is there ended as a short address was taken that was asked for.
fn ended(ledger: &Ledger, evidence: &Evidence) -> Want
    ensures right { (task : Task) (told : List Exchange) → Stands evidence.now told → IsRightWant task told result }
    ensures ends { (left : ℕ) → left_at result left ≡ 0 }
{
    match evidence.taken() {
        Some(short) => Want::Taken(short),
        None if evidence.is_closed() => Want::Ended(ledger.summary(false)),
        None => Want::Ended(ledger.summary(true)),
    }
}
