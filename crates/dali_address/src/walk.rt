ghost use Rattle.std.specs.Prelude.{◌≡◌, ◌+◌, ◌<◌, ◌≤◌, IfOk, IfErr, if◌then◌else◌};
ghost use Rattle.dali_address.specs.Calls.{IsCall};
ghost use Rattle.dali_address.specs.Keeps.{GivesNone};
ghost use Rattle.dali_address.specs.Tallying.{IsQuiet};
ghost use Rattle.dali_address.specs.Standing.{MayTally};
ghost use Rattle.dali_address.specs.Walks.{IsStep, IsLast, GoesOn, IsOn, MayLose, opening_call};
ghost use Rattle.dali_address.specs.declared.call.Call.{Call};

use crate::call::Call;
use crate::stage::{Digit, Found, between};
use crate::tallied::Tallied;

// So often in succession an ask for the short address may tell none, two asks for each search.
const MOST_UNANSWERED: u8 = 16;

// The frames of the opening.
const OPENING: u8 = 13;

/// The next step of a census. The last number of a search is how often no unit answered.
#[derive(Clone, Copy)]
pub(crate) enum Walk {
    /// Send the frame of this number of the opening.
    Open(u8),
    /// Ask whether any unit is left: this many times none was.
    Check(u8),
    /// Put a byte between these two.
    Seek(Digit, u8, u8, u8),
    /// Ask whether a unit is there or below.
    Look(Digit, u8, u8, u8),
    /// Put the byte that was found.
    Settle(Digit, u8),
    /// Put the whole search address again: the byte that was found.
    Put(Digit),
    /// Ask the unit that was found for its short address.
    Ask,
    /// Withdraw it.
    Leave,
    /// Put the highest search address.
    Raise(Digit),
    /// No unit was left.
    Done,
    /// Something was lost, or no unit told its short address.
    Lost,
}

impl Walk {
    /// The frame that is wanted, or whether no unit was left at its end.
    pub(crate) fn call(self, found: Found, kept: &Tallied) -> Result<Call, bool>
        ensures sends { IfOk result (λ call. IsCall call × GivesNone call × IsStep self kept.now call) }
        ensures ends { IfErr result (λ through. self ≡ (if through then Walk.Done else Walk.Lost)) }
    {
        let call = match self {
            Walk::Open(number) => opening(number),
            Walk::Check(_) | Walk::Look(_, _, _, _) => Call::Compare,
            Walk::Seek(digit, low, high, _) => placed(digit, between(low, high)),
            Walk::Settle(digit, byte) => placed(digit, byte),
            Walk::Put(digit) => placed(digit, found.byte(digit)),
            Walk::Raise(digit) => placed(digit, 0xFF),
            Walk::Ask => Call::AskShort,
            Walk::Leave => left(kept),
            Walk::Done => return Err(true),
            Walk::Lost => return Err(false),
        };
        Ok(call)
    }

    /// The step after it, by the answer, once the opening is over.
    pub(crate) fn after(self, care: u8, kept: &Tallied, answer: Option<u8>) -> Walk
        ensures last { result ≡ Walk.Done → IsLast care self kept.now answer }
        ensures going { GoesOn self answer result }
        ensures lost { result ≡ Walk.Lost → MayLose self }
    {
        match self {
            Walk::Check(noes) => checked(noes, care, kept, answer),
            Walk::Seek(digit, low, high, noes) => Walk::Look(digit, low, high, noes),
            Walk::Look(digit, low, high, noes) => looked(digit, low, high, noes, care, answer),
            Walk::Settle(Digit::High, _) => Walk::Seek(Digit::Middle, 0x00, 0xFF, 0),
            Walk::Settle(Digit::Middle, _) => Walk::Seek(Digit::Low, 0x00, 0xFF, 0),
            Walk::Settle(Digit::Low, _) => Walk::Put(Digit::High),
            Walk::Put(Digit::High) => Walk::Put(Digit::Middle),
            Walk::Put(Digit::Middle) => Walk::Put(Digit::Low),
            Walk::Put(Digit::Low) => Walk::Ask,
            Walk::Ask => asked(kept),
            Walk::Leave => Walk::Raise(Digit::High),
            Walk::Raise(Digit::High) => Walk::Raise(Digit::Middle),
            Walk::Raise(Digit::Middle) => Walk::Raise(Digit::Low),
            Walk::Raise(Digit::Low) => Walk::Check(0),
            Walk::Open(_) | Walk::Done | Walk::Lost => Walk::Lost,
        }
    }
}

// The frame of this number of the opening. The search address is put twice, and its high byte once more, since units
// may hear nothing for 100 ms after RANDOMISE: the last three frames come later than that.
fn opening(number: u8) -> Call
    ensures call { IsCall result × GivesNone result }
    ensures is { result ≡ opening_call number }
{
    match number {
        0 | 1 => Call::Terminate,
        2 | 3 => Call::InitialiseAll,
        4 | 5 => Call::Randomise,
        6 | 9 | 12 => Call::SearchHigh(0xFF),
        7 | 10 => Call::SearchMiddle(0xFF),
        _ => Call::SearchLow(0xFF),
    }
}

/// The step after the frame of this number of the opening.
pub(crate) fn opened(number: u8) -> Walk
    ensures more { number + 1 < 13 → result ≡ Walk.Open (number + 1) }
    ensures over { 13 ≤ number + 1 → result ≡ Walk.Check 0 }
{
    if number < OPENING - 1 {
        Walk::Open(number + 1)
    } else {
        Walk::Check(0)
    }
}

// Puts a byte of the search address.
fn placed(digit: Digit, byte: u8) -> Call
    ensures { IsCall result × GivesNone result × IsQuiet result }
{
    match digit {
        Digit::High => Call::SearchHigh(byte),
        Digit::Middle => Call::SearchMiddle(byte),
        Digit::Low => Call::SearchLow(byte),
    }
}

// Withdraws the unit that told its short address.
fn left(kept: &Tallied) -> Call
    ensures { IsCall result × GivesNone result × MayTally kept.now result }
{
    if kept.is_in_turn() {
        Call::Withdraw
    } else {
        Call::AskShort
    }
}

fn checked(noes: u8, care: u8, kept: &Tallied, answer: Option<u8>) -> Walk
    ensures last { result ≡ Walk.Done → IsLast care (Walk.Check noes) kept.now answer }
    ensures going { GoesOn (Walk.Check noes) answer result }
    ensures lost { result ≡ Walk.Lost → ⊥ }
{
    match answer {
        None => {
            if noes < care.saturating_sub(1) {
                Walk::Check(noes + 1)
            } else if kept.search.is_undrawn() {
                Walk::Done
            } else {
                Walk::Raise(Digit::High)
            }
        }
        _ => Walk::Seek(Digit::High, 0x00, 0xFF, 0),
    }
}

fn looked(digit: Digit, low: u8, high: u8, noes: u8, care: u8, answer: Option<u8>) -> Walk
    ensures on { IsOn result }
    ensures lost { result ≡ Walk.Lost → ⊥ }
{
    let middle = between(low, high);
    if answer.is_some() {
        narrowed(digit, low, middle)
    } else if noes < care.saturating_sub(1) {
        Walk::Seek(digit, low, high, noes + 1)
    } else {
        narrowed(digit, middle.saturating_add(1), high)
    }
}

fn narrowed(digit: Digit, low: u8, high: u8) -> Walk
    ensures on { IsOn result }
    ensures lost { result ≡ Walk.Lost → ⊥ }
{
    if low < high {
        Walk::Seek(digit, low, high, 0)
    } else {
        Walk::Settle(digit, low)
    }
}

// A unit is asked twice; if none tells its short address, the search begins anew. One below a unit that was withdrawn
// before wasn't heard then.
fn asked(kept: &Tallied) -> Walk
    ensures { IsOn result }
{
    if kept.is_told() {
        if kept.is_in_turn() {
            Walk::Leave
        } else {
            Walk::Lost
        }
    } else if kept.unanswered >= MOST_UNANSWERED {
        Walk::Lost
    } else if kept.unanswered % 2 == 1 {
        Walk::Ask
    } else {
        Walk::Raise(Digit::High)
    }
}
