ghost use Rattle.std.specs.Prelude.{◌≡◌, ◌<◌, IfSome};
ghost use Rattle.dali_address.specs.Changes.{FitsChange};
ghost use Rattle.dali_address.specs.Phases.{IsFit};
ghost use Rattle.dali_address.specs.Rounds.{change_of};
ghost use Rattle.dali_address.specs.declared.change.Change.{Change};
ghost use Rattle.dali_address.specs.declared.phase.Phase.{Phase};

use crate::asks::{Asks, Verdict};
use crate::change::Change;
use crate::evidence::Evidence;
use crate::phase::{Heard, MOST_MISSES, Phase, Then};
use crate::reading::Reading;
use crate::round::{Outcome, Round};
use crate::short_set::ShortSet;
use crate::task::{Line, Summary, Task};

// How often a closing is tried, and how many failures in a row end the giving (profile).
const MOST_TRIES: u8 = 8;

// How many answers of eight say that a unit is there, or that one has no short address: one could be noise.
const ENOUGH: u8 = 2;

/// The progress of a run, which decides the step after each of its phases.
#[derive(Drop)]
pub(crate) struct Ledger<'a> {
    // the short addresses that were asked for, in order
    units: &'a [u8],
    // which of them, and then which short address, comes next
    next: usize,
    // failures in a row
    fails: u8,
    // how often shared short addresses were taken away to be given anew
    repairs: u8,
    // which are to be taken away, which were given, and which are to be reported
    clearing: ShortSet,
    given: ShortSet,
    untold: ShortSet,
    is_missing: bool,
    count: u8,
    shared: u8,
}

impl<'a> Ledger<'a> {
    /// Nothing was done yet.
    pub(crate) fn new(task: Task, units: &'a [u8]) -> Ledger<'a> {
        Ledger {
            units,
            next: 0,
            fails: 0,
            repairs: 0,
            clearing: ShortSet::new(task == Task::All),
            given: ShortSet::new(false),
            untold: ShortSet::new(matches!(task, Task::All | Task::List)),
            is_missing: false,
            count: 0,
            shared: 0,
        }
    }

    pub(crate) fn summary(&self, is_open: bool) -> Summary
        ensures { result.open ≡ is_open }
    {
        Summary {
            given: self.count,
            missing: u8::from(self.is_missing),
            shared: self.shared,
            open: is_open,
        }
    }

    /// The first phase. If all are taken away first, those that were asked for are free by then.
    pub(crate) fn first(&mut self, task: Task) -> Phase
        ensures { IsFit task result }
    {
        match task {
            Task::Give => self.check(task),
            Task::All | Task::List | Task::Close => Phase::Close(Then::Begin, 0, 0),
        }
    }

    // Whether the next short address that was asked for is taken.
    fn check(&mut self, task: Task) -> Phase
        ensures { IsFit task result }
    {
        match self.units.get(self.next).copied() {
            Some(short) if short < 64 => Phase::Check(Asks::new(), short),
            _ => {
                self.next = 0;
                Phase::Close(Then::Begin, 0, 0)
            }
        }
    }

    /// The phase after a frame, by what came back.
    pub(crate) fn after(&mut self, task: Task, phase: Phase, heard: &Heard) -> Phase
        ensures { IsFit task phase → IsFit task result }
    {
        match phase {
            Phase::Check(asks, short) => self.checked(task, asks.after(heard.answer), short),
            Phase::Close(then, times, number) => self.closed(task, then, times, number, heard),
            Phase::Clear(asks, short) => self.cleared(task, asks.after(heard.answer), short),
            Phase::Take(round, short) => self.taken(task, round, short, heard),
            Phase::Miss(asks) => self.missed(task, asks.after(heard.answer)),
            Phase::Choose(asks, short) => self.chosen(task, asks.after(heard.answer), short),
            Phase::Give(round, short) => self.gave(task, round, short, heard),
            Phase::Look(asks, short) => self.looked(task, asks.after(heard.answer), short),
            Phase::Read(misses, short) => self.read(task, misses, short, heard),
            Phase::Over => Phase::Over,
        }
    }

    /// The phase after a line.
    pub(crate) fn said(&mut self, task: Task, phase: Phase, line: &Line) -> Phase
        ensures { IsFit task phase → IsFit task result }
    {
        if let Line::Shared(_) = *line {
            self.shared = self.shared.saturating_add(1);
        }
        match phase {
            Phase::Read(_, short) => self.name_after(task, short),
            _ => phase,
        }
    }

    fn checked(&mut self, task: Task, asks: Asks, short: u8) -> Phase
        ensures { short < 64 → IsFit task result }
    {
        match asks.verdict(ENOUGH) {
            Verdict::Open => Phase::Check(asks, short),
            Verdict::Yes => Phase::Over,
            Verdict::No => {
                self.next = self.next.saturating_add(1);
                self.check(task)
            }
        }
    }

    fn closed(&mut self, task: Task, then: Then, times: u8, number: u8, heard: &Heard) -> Phase
        ensures { IsFit task result }
    {
        if number < 6 {
            Phase::Close(then, times, number + 1)
        } else if heard.evidence.is_closed() || times >= MOST_TRIES - 1 {
            self.proceed(task, then)
        } else {
            Phase::Close(then, times + 1, 0)
        }
    }

    fn proceed(&mut self, task: Task, then: Then) -> Phase
        ensures { IsFit task result }
    {
        match then {
            Then::Begin => self.begin(task),
            Then::Name => self.name_from(task, 0),
            Then::End => Phase::Over,
        }
    }

    fn begin(&mut self, task: Task) -> Phase
        ensures { IsFit task result }
    {
        match task {
            Task::Give | Task::List | Task::Close => Phase::Miss(Asks::new()),
            Task::All => self.clear_from(task, 0),
        }
    }

    // Take the short addresses away that are marked, from this one on; then give.
    fn clear_from(&mut self, task: Task, from: u8) -> Phase
        ensures { IsFit task result }
    {
        self.fails = 0;
        match (task, self.clearing.first_from(from)) {
            (Task::All, Some(short)) => Phase::Clear(Asks::new(), short),
            _ => {
                self.next = 0;
                Phase::Miss(Asks::new())
            }
        }
    }

    fn cleared(&mut self, task: Task, asks: Asks, short: u8) -> Phase
        ensures { IsFit task (Phase.Clear asks short) → IsFit task result }
    {
        match asks.verdict(ENOUGH) {
            Verdict::Open => Phase::Clear(asks, short),
            Verdict::Yes => take(task, short, self.fails),
            Verdict::No => self.clear_after(task, short),
        }
    }

    fn clear_after(&mut self, task: Task, short: u8) -> Phase
        ensures { IsFit task result }
    {
        self.clearing.unset(short);
        self.given.unset(short);
        self.clear_from(task, short.saturating_add(1))
    }

    fn taken(&mut self, task: Task, round: Round, short: u8, heard: &Heard) -> Phase
        ensures { IsFit task (Phase.Take round short) → IsFit task result }
    {
        let round = round.after(&heard.call, heard.evidence, heard.answer);
        match round.outcome() {
            None => Phase::Take(round, short),
            Some(Outcome::Unfound) if self.fails >= MOST_TRIES - 1 => self.clear_after(task, short),
            Some(Outcome::Unfound) => {
                self.fails += 1;
                Phase::Clear(Asks::new(), short)
            }
            Some(Outcome::Done | Outcome::Untold) => {
                self.fails = 0;
                Phase::Clear(Asks::new(), short)
            }
        }
    }

    fn missed(&mut self, task: Task, asks: Asks) -> Phase
        ensures { IsFit task result }
    {
        match asks.verdict(ENOUGH) {
            Verdict::Open => Phase::Miss(asks),
            Verdict::Yes => {
                self.is_missing = true;
                self.choose(task)
            }
            Verdict::No => {
                self.is_missing = false;
                self.name(task)
            }
        }
    }

    // The next short address that may be free.
    fn choose(&mut self, task: Task) -> Phase
        ensures { IsFit task result }
    {
        match (task, self.candidate()) {
            (Task::Give | Task::All, Some(short)) => Phase::Choose(Asks::new(), short),
            _ => self.name(task),
        }
    }

    // Those that were asked for, in order, then the lowest.
    fn candidate(&self) -> Option<u8>
        ensures { IfSome result (λ short. short < 64) }
    {
        let count = self.units.len();
        let short = if self.next < count {
            self.units[self.next]
        } else {
            u8::try_from(self.next - count).ok()?
        };
        (short < 64).then_some(short)
    }

    fn chosen(&mut self, task: Task, asks: Asks, short: u8) -> Phase
        ensures { IsFit task (Phase.Choose asks short) → IsFit task result }
    {
        match asks.verdict(1) {
            Verdict::Open => Phase::Choose(asks, short),
            Verdict::No if !self.given.has(short) => give(task, short, self.fails),
            Verdict::Yes | Verdict::No => {
                self.next = self.next.saturating_add(1);
                self.choose(task)
            }
        }
    }

    fn gave(&mut self, task: Task, round: Round, short: u8, heard: &Heard) -> Phase
        ensures { IsFit task (Phase.Give round short) → IsFit task result }
    {
        let round = round.after(&heard.call, heard.evidence, heard.answer);
        match round.outcome() {
            None => Phase::Give(round, short),
            Some(Outcome::Done) => {
                self.count = self.count.saturating_add(1);
                self.given.set(short);
                self.untold.set(short);
                self.fails = 0;
                Phase::Miss(Asks::new())
            }
            Some(Outcome::Untold) => {
                self.untold.set(short);
                self.failed(task)
            }
            Some(Outcome::Unfound) => self.failed(task),
        }
    }

    // A round gave nothing, as far as that is known.
    fn failed(&mut self, task: Task) -> Phase
        ensures { IsFit task result }
    {
        self.fails = self.fails.saturating_add(1);
        if self.fails < MOST_TRIES {
            Phase::Miss(Asks::new())
        } else {
            self.name(task)
        }
    }

    // Nothing more is given: the units are reported.
    fn name(&mut self, task: Task) -> Phase
        ensures { IsFit task result }
    {
        match task {
            Task::List | Task::Close => self.name_from(task, 0),
            Task::Give | Task::All => Phase::Close(Then::Name, 0, 0),
        }
    }

    fn name_from(&mut self, task: Task, from: u8) -> Phase
        ensures { IsFit task result }
    {
        match self.untold.first_from(from) {
            Some(short) => Phase::Look(Asks::new(), short),
            None if self.repairs < MOST_TRIES && self.clearing.first_from(0).is_some() => {
                self.repairs += 1;
                self.clear_from(task, 0)
            }
            None => Phase::Close(Then::End, 0, 0),
        }
    }

    fn name_after(&mut self, task: Task, short: u8) -> Phase
        ensures { IsFit task result }
    {
        self.untold.unset(short);
        self.name_from(task, short.saturating_add(1))
    }

    fn looked(&mut self, task: Task, asks: Asks, short: u8) -> Phase
        ensures { short < 64 → IsFit task result }
    {
        match asks.verdict(ENOUGH) {
            Verdict::Open => Phase::Look(asks, short),
            Verdict::Yes => Phase::Read(0, short),
            Verdict::No => self.name_after(task, short),
        }
    }

    // A reading is missed if a byte is, or if no other says the same. An address that can't be read is shared: if all
    // are given anew, that is mended first.
    fn read(&mut self, task: Task, misses: u8, short: u8, heard: &Heard) -> Phase
        ensures { short < 64 → IsFit task result }
    {
        let is_missed = heard.answer.is_none()
            || matches!(heard.evidence.reading, Reading::Whole(_));
        let misses = misses.saturating_add(u8::from(is_missed));
        if misses >= MOST_MISSES
            && task == Task::All
            && self.repairs < MOST_TRIES
            && heard.evidence.read_back(short).is_none()
        {
            self.clearing.set(short);
            self.name_from(task, short.saturating_add(1))
        } else {
            Phase::Read(misses, short)
        }
    }
}

fn take(task: Task, short: u8, fails: u8) -> Phase
    ensures { FitsChange task (Change.Take short) → IsFit task result }
{
    Phase::Take(Round::new(Change::Take(short), fails), short)
}

fn give(task: Task, short: u8, fails: u8) -> Phase
    ensures { FitsChange task (Change.Give short) → IsFit task result }
{
    Phase::Give(Round::new(Change::Give(short), fails), short)
}
