ghost use Rattle.std.specs.Prelude.{◌≡◌, ◌≢◌, ◌<◌, ◌+◌, ℕ, List, Option, None, Some, ◌⊎◌};
ghost use Rattle.dali_address.specs.Changes.{FitsChange};
ghost use Rattle.dali_address.specs.Evidences.{Stands};
ghost use Rattle.dali_address.specs.Rights.{MayFollow, IsTerminated};
ghost use Rattle.dali_address.specs.Steps.{Exchange};
ghost use Rattle.dali_address.specs.declared.task.Task.{Task};
ghost use Rattle.dali_address.specs.declared.round.Outcome.{Outcome};
ghost use Rattle.dali_address.specs.declared.round.Stage.{Stage};

use crate::call::Call;
use crate::change::Change;
use crate::evidence::Evidence;
use crate::stage::{Digit, Found, between};

// The most that a round repeats each frame, and the frames of its opening that it sends at least twice.
const MOST_CARE: u8 = 4;

/// How a round ended.
#[derive(Clone, Copy)]
pub(crate) enum Outcome {
    /// The unit told that it is changed.
    Done,
    /// No unit answered at the random address that the search found, or one of another kind, or several: nothing was
    /// programmed.
    Unfound,
    /// It was programmed, and what it has now wasn't told.
    Untold,
}

/// The next step of a round. The last number of a step is how often it was done already.
#[derive(Clone, Copy)]
pub(crate) enum Stage {
    /// Send the frame of this number of the opening.
    Open(u8),
    /// Put the byte between these two, after this many asks that stayed silent.
    Seek(Digit, u8, u8, u8, u8),
    /// Ask whether a unit is there or below.
    Look(Digit, u8, u8, u8),
    /// Put the byte that was found.
    Settle(Digit, u8, u8),
    /// Put the whole search address again.
    Put(Digit, u8),
    /// Ask the unit there for its short address, so often already, and program it, so often already.
    Program(u8, u8),
    /// End the initialisation state.
    Quit(Outcome),
    Over(Outcome),
}

/// A round (profile): it changes the short address of one unit.
///
/// It brings the units that it may concern into the initialisation state and lets them draw random addresses, searches
/// for the lowest, byte by byte, asks the unit there for its short address, programs it, and ends the initialisation
/// state.
#[derive(Clone, Copy)]
pub(crate) struct Round {
    change: Change,
    // how often each frame is sent, and how many silent answers of a search are believed
    care: u8,
    stage: Stage,
    found: Found,
}

impl Round {
    ghost use Rattle.dali_address.specs.Rounds.{change_of, HasEnded};

    /// A round as careful as this many failures ask for.
    pub(crate) fn new(change: Change, fails: u8) -> Round
        ensures { change_of result ≡ change }
    {
        Round {
            change,
            care: fails.saturating_add(1).min(MOST_CARE),
            stage: Stage::Open(0),
            found: Found {
                high: 0,
                middle: 0,
                low: 0,
            },
        }
    }

    /// How it ended, if it has.
    pub(crate) fn outcome(&self) -> Option<Outcome>
        ensures { (outcome : Outcome) → result ≡ Some outcome → HasEnded outcome self.now }
    {
        match self.stage {
            Stage::Over(outcome) => Some(outcome),
            _ => None,
        }
    }

    /// The frame that it wants to send. One that has ended only ends the initialisation state.
    pub(crate) fn call(&self, evidence: &Evidence) -> Call
        ensures { (task : Task) (told : List Exchange) → Stands evidence.now told → FitsChange task (change_of self.now)
            → MayFollow task told result }
    {
        match self.stage {
            Stage::Open(number) => opening(self.change, self.care, number),
            Stage::Seek(digit, low, high, _, _) => putting(digit, between(low, high)),
            Stage::Look(_, _, _, _) => Call::Compare,
            Stage::Settle(digit, byte, _) => putting(digit, byte),
            Stage::Put(digit, _) => putting(digit, self.found.byte(digit)),
            Stage::Program(_, _) if self.change.is_due(evidence) => self.change.call(),
            Stage::Program(_, _) => Call::AskShort,
            Stage::Quit(_) | Stage::Over(_) => Call::Terminate,
        }
    }

    /// The round after the frame that it wanted, by what came back.
    pub(crate) fn after(self, call: &Call, evidence: &Evidence, answer: Option<u8>) -> Round
        ensures change { change_of result ≡ change_of self }
        ensures ends { (told : List Exchange) (outcome : Outcome) → Stands evidence.now told → HasEnded outcome result
            → HasEnded outcome self ⊎ IsTerminated told }
    {
        let found = match self.stage {
            Stage::Settle(digit, byte, _) => self.found.with(digit, byte),
            _ => self.found,
        };
        let care = self.care;
        let stage = match self.stage {
            Stage::Open(number) => opened(number, care),
            Stage::Seek(digit, low, high, noes, copies) => sought(
                digit, low, high, noes, copies, care,
            ),
            Stage::Look(digit, low, high, noes) => looked(digit, low, high, noes, care, answer),
            Stage::Settle(digit, byte, copies) => settled(digit, byte, copies, care),
            Stage::Put(digit, times) => put(digit, times, care),
            Stage::Program(asks, programs) if *call == Call::AskShort => self.asked(
                asks, programs, evidence, answer,
            ),
            Stage::Program(_, programs) => Stage::Program(0, programs.saturating_add(1)),
            Stage::Quit(outcome) => quit(outcome, evidence),
            Stage::Over(outcome) => Stage::Over(outcome),
        };
        Round {
            change: self.change,
            care,
            stage,
            found,
        }
    }

    // After QUERY SHORT ADDRESS. A unit that was programmed and hasn't changed is programmed again.
    fn asked(self, asks: u8, programs: u8, evidence: &Evidence, answer: Option<u8>) -> Stage
        ensures { (outcome : Outcome) → result ≢ Stage.Over outcome }
    {
        let most = self.care.saturating_mul(2);
        match answer {
            None if asks.saturating_add(1) < most => Stage::Program(
                asks.saturating_add(1),
                programs,
            ),
            Some(byte) if programs > 0 && byte == self.change.changed() => Stage::Quit(
                Outcome::Done,
            ),
            Some(_) if programs < most && self.change.is_due(evidence) => Stage::Program(
                0, programs,
            ),
            _ if programs > 0 => Stage::Quit(Outcome::Untold),
            _ => Stage::Quit(Outcome::Unfound),
        }
    }
}

// The frame of this number of the opening.
fn opening(change: Change, care: u8, number: u8) -> Call
    ensures { (task : Task) (told : List Exchange) → FitsChange task change
        → MayFollow task told result }
{
    let pair = care.saturating_mul(2);
    let pairs = care.saturating_mul(4);
    if number == 0 {
        Call::Terminate
    } else if number <= pair {
        change.initialise()
    } else if number <= pairs {
        Call::Randomise
    } else {
        let digit = match (number - pairs) % 3 {
            1 => Digit::High,
            2 => Digit::Middle,
            _ => Digit::Low,
        };
        putting(digit, 0xFF)
    }
}

// Puts a byte of the search address.
fn putting(digit: Digit, byte: u8) -> Call
    ensures { (task : Task) (told : List Exchange) → MayFollow task told result }
{
    match digit {
        Digit::High => Call::SearchHigh(byte),
        Digit::Middle => Call::SearchMiddle(byte),
        Digit::Low => Call::SearchLow(byte),
    }
}

// The highest search address is put twice at least: the first may pass unheard, while units draw.
fn opened(number: u8, care: u8) -> Stage
    ensures { (outcome : Outcome) → result ≢ Stage.Over outcome }
{
    let last = care
        .saturating_mul(4)
        .saturating_add(care.max(2).saturating_mul(3));
    if number < last {
        Stage::Open(number + 1)
    } else {
        Stage::Seek(Digit::High, 0x00, 0xFF, 0, 0)
    }
}

fn sought(digit: Digit, low: u8, high: u8, noes: u8, copies: u8, care: u8) -> Stage
    ensures { (outcome : Outcome) → result ≢ Stage.Over outcome }
{
    if copies.saturating_add(1) < care {
        Stage::Seek(digit, low, high, noes, copies + 1)
    } else {
        Stage::Look(digit, low, high, noes)
    }
}

// That no unit is there or below is believed after as many silent answers as care asks for.
fn looked(digit: Digit, low: u8, high: u8, noes: u8, care: u8, answer: Option<u8>) -> Stage
    ensures patient { answer ≡ None → noes + 1 < care → result ≡ Stage.Seek digit low high (noes + 1) 0 }
    ensures on { (outcome : Outcome) → result ≢ Stage.Over outcome }
{
    let middle = between(low, high);
    if answer.is_some() {
        narrowed(digit, low, middle)
    } else if noes.saturating_add(1) < care {
        Stage::Seek(digit, low, high, noes + 1, 0)
    } else {
        narrowed(digit, middle.saturating_add(1), high)
    }
}

fn narrowed(digit: Digit, low: u8, high: u8) -> Stage
    ensures { (outcome : Outcome) → result ≢ Stage.Over outcome }
{
    if low < high {
        Stage::Seek(digit, low, high, 0, 0)
    } else {
        Stage::Settle(digit, low, 0)
    }
}

fn settled(digit: Digit, byte: u8, copies: u8, care: u8) -> Stage
    ensures { (outcome : Outcome) → result ≢ Stage.Over outcome }
{
    if copies.saturating_add(1) < care {
        return Stage::Settle(digit, byte, copies + 1);
    }
    match digit {
        Digit::High => Stage::Seek(Digit::Middle, 0x00, 0xFF, 0, 0),
        Digit::Middle => Stage::Seek(Digit::Low, 0x00, 0xFF, 0, 0),
        Digit::Low => Stage::Put(Digit::High, 0),
    }
}

fn put(digit: Digit, times: u8, care: u8) -> Stage
    ensures { (outcome : Outcome) → result ≢ Stage.Over outcome }
{
    match digit {
        Digit::High => Stage::Put(Digit::Middle, times),
        Digit::Middle => Stage::Put(Digit::Low, times),
        Digit::Low if times.saturating_add(1) < care => Stage::Put(Digit::High, times + 1),
        Digit::Low => Stage::Program(0, 0),
    }
}

// A round is over only once the initialisation state was ended twice.
fn quit(outcome: Outcome, evidence: &Evidence) -> Stage
    ensures { (told : List Exchange) (end : Outcome) → Stands evidence.now told → result ≡ Stage.Over end
        → IsTerminated told }
{
    if evidence.has_terminated() {
        Stage::Over(outcome)
    } else {
        Stage::Quit(outcome)
    }
}
