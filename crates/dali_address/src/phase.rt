ghost use Rattle.std.specs.Prelude.{◌≡◌, ◌<◌, List, Some, IfSome};
ghost use Rattle.dali_address.specs.Evidences.{Stands};
ghost use Rattle.dali_address.specs.Phases.{IsFit};
ghost use Rattle.dali_address.specs.Rights.{MayFollow, MayTell};
ghost use Rattle.dali_address.specs.Steps.{Exchange};
ghost use Rattle.dali_address.specs.declared.task.Line.{Line};
ghost use Rattle.dali_address.specs.declared.task.Task.{Task};

use crate::asks::Asks;
use crate::call::Call;
use crate::evidence::Evidence;
use crate::reading::Reading;
use crate::round::Round;
use crate::task::Line;

/// How often a read of a random address may miss before the short address is reported as shared (profile).
pub(crate) const MOST_MISSES: u8 = 16;

/// The next step once no unit is left in the initialisation state.
#[derive(Clone, Copy)]
pub(crate) enum Then {
    /// The task of the run.
    Begin,
    /// The units are reported.
    Name,
    /// Nothing.
    End,
}

/// The next step of a run.
#[derive(Clone, Copy)]
pub(crate) enum Phase {
    /// Ask whether a short address is taken that was asked for.
    Check(Asks, u8),
    /// End the initialisation state, and see that none compares: so often already, and the number of the frame.
    Close(Then, u8, u8),
    /// Ask whether a unit is left at a short address that is taken away.
    Clear(Asks, u8),
    /// Take it away from one.
    Take(Round, u8),
    /// Ask whether some unit has none.
    Miss(Asks),
    /// Ask whether a short address is free.
    Choose(Asks, u8),
    /// Give it to one.
    Give(Round, u8),
    /// Ask whether a unit is at a short address that is to be reported.
    Look(Asks, u8),
    /// Read the random address there, after this many misses.
    Read(u8, u8),
    Over,
}

impl Phase {
    /// The frame that is wanted, if it isn't time for a line.
    pub(crate) fn call(&self, evidence: &Evidence) -> Option<Call>
        ensures { (task : Task) (told : List Exchange) → Stands evidence.now told → IsFit task self.now
            → IfSome result (λ call. MayFollow task told call) }
    {
        match *self {
            Phase::Check(_, short) => Some(Call::AskPresent(short)),
            Phase::Close(_, _, number) => Some(closing(number)),
            Phase::Clear(_, short) => Some(Call::AskPresent(short)),
            Phase::Take(round, _) => Some(round.call(evidence)),
            Phase::Miss(_) => Some(Call::AskMissing),
            Phase::Choose(_, short) => Some(Call::AskPresent(short)),
            Phase::Give(round, _) => Some(round.call(evidence)),
            Phase::Look(_, short) => Some(Call::AskPresent(short)),
            Phase::Read(_, short) => Some(reading(short, evidence)),
            Phase::Over => None,
        }
    }

    /// The line to report, if it is time for one.
    pub(crate) fn line(&self, evidence: &Evidence) -> Option<Line>
        ensures { (task : Task) (told : List Exchange) (line : Line) → Stands evidence.now told → IsFit task self.now
            → result ≡ Some line → MayTell line told }
    {
        match *self {
            Phase::Read(misses, short) => match evidence.read_back(short) {
                Some(random) => Some(Line::Unit { short, random }),
                None if misses >= MOST_MISSES && evidence.is_present(short) => Some(Line::Shared(
                    short,
                )),
                None => None,
            },
            _ => None,
        }
    }
}

/// A frame that was carried, what came back, and what all that came says.
#[derive(Drop)]
pub(crate) struct Heard<'a> {
    pub(crate) call: Call,
    pub(crate) answer: Option<u8>,
    pub(crate) evidence: &'a Evidence,
}

// The frame of this number of a closing: the highest search address, TERMINATE twice, COMPARE twice.
fn closing(number: u8) -> Call
    ensures { (task : Task) (told : List Exchange) → MayFollow task told result }
{
    match number {
        0 => Call::SearchHigh(0xFF),
        1 => Call::SearchMiddle(0xFF),
        2 => Call::SearchLow(0xFF),
        3 | 4 => Call::Terminate,
        _ => Call::Compare,
    }
}

// The byte of the random address that is to be read next.
fn reading(short: u8, evidence: &Evidence) -> Call
    ensures { (task : Task) (told : List Exchange) → short < 64 → MayFollow task told result }
{
    match evidence.reading {
        Reading::High(at, _) if at == short => Call::AskRandomMiddle(short),
        Reading::Middle(at, _, _) if at == short => Call::AskRandomLow(short),
        _ => Call::AskRandomHigh(short),
    }
}
