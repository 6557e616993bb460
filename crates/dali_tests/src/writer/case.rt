use dali_bank::Order;
use dali_engine::{Event, Happening, Outcome, Reply, RunFault, run_sim};
use dali_gear::{Fate, GearFault, SimBus, Unit};
use dali_journal::Code;
use dali_shared_tests::{ENOUGH, GTIN, expect_that, put};
use std::alloc::{AllocError, Global};
use std::test::Fail;

pub(crate) const TAKEN: Reply = Reply::Taken;

pub(crate) const DONE: Reply = Reply::Kept(Code::Done);

// The events of a case, in turn.
#[derive(Clone, Copy)]
pub(crate) enum Deed<'a> {
    // An order's number, unit and updates. It is submitted at the moment 0.
    Submit(u64, u8, &'a [(u8, u8)]),
    // An order for unit 5: its number, and a byte for all places between these locations.
    Fill(u64, u8, u8, u8),
    Steps(usize),
    Stop(u16),
    // The unit at this address loses its power.
    Power(u8),
}

// Blank units at 5 and 6, what is lost of the frames to the one at 5, and what comes of it.
#[derive(Clone, Copy)]
pub(crate) struct Case<'a> {
    pub(crate) name: &'a str,
    // The registers of the unit at 5.
    pub(crate) dtrs: (u8, u8, u8),
    // First and last numbers of frames that are lost to unit 5.
    pub(crate) lost: &'a [(usize, usize)],
    // Numbers of frames whose answers are lost.
    pub(crate) unanswered: &'a [usize],
    pub(crate) deeds: &'a [Deed<'a>],
    // Each answer: its order's number, what it is, and how many frames were sent before it.
    pub(crate) answers: &'a [(u64, Reply, usize)],
}

// Order 1 with the GTIN for unit 5, with no losses.
pub(crate) const PLAIN: Case<'static> = Case {
    name: "a GTIN",
    dtrs: (0, 0, 0),
    lost: &[],
    unanswered: &[],
    deeds: &[Deed::Submit(1, 5, &GTIN), Deed::Steps(ENOUGH)],
    answers: &[(1, TAKEN, 0), (1, DONE, 112)],
};

// Updates with this byte of all places from the first location to the last one.
fn filled(alloc: Global, first: u8, last: u8, byte: u8) -> Result<Vec<(u8, u8)>, RunFault> {
    let mut updates = Vec::new(alloc);
    for location in first..=last {
        put(&mut updates, (location, byte))?;
    }
    Ok(updates)
}

// Appends the submission of an order, if it is one.
fn submit(
    events: &mut Vec<Event>,
    id: u64,
    unit: u8,
    updates: &[(u8, u8)],
) -> Result<(), AllocError> {
    match Order::from_pairs(id, unit, updates) {
        Some(order) => put(events, Event::Submit(order, 0)),
        None => Ok(()),
    }
}

// The events of the deeds. A deed that makes no order is left out.
pub(crate) fn events_of(alloc: Global, deeds: &[Deed<'_>]) -> Result<Vec<Event>, RunFault> {
    let mut events = Vec::new(alloc);
    for deed in deeds {
        match *deed {
            Deed::Submit(id, unit, updates) => submit(&mut events, id, unit, updates)?,
            Deed::Fill(id, first, last, byte) => {
                let updates = filled(alloc, first, last, byte)?;
                submit(&mut events, id, 5, &updates)?;
            }
            Deed::Steps(count) => {
                for _ in 0..count {
                    put(&mut events, Event::Step)?;
                }
            }
            Deed::Stop(bytes) => put(&mut events, Event::Stop(bytes))?,
            Deed::Power(address) => put(&mut events, Event::Power(address))?,
        }
    }
    Ok(events)
}

// The fate of the frame of this number.
fn fate_of(number: usize, lost: &[(usize, usize)], unanswered: &[usize]) -> Fate {
    let mut is_lost = false;
    for &(first, last) in lost {
        is_lost |= first <= number && number <= last;
    }
    Fate {
        lost: if is_lost { 1 << 5 } else { 0 },
        answer_lost: unanswered.contains(&number),
        refuse: false,
    }
}

fn fates_of(alloc: Global, case: &Case<'_>) -> Result<Vec<Fate>, GearFault> {
    let mut fates = Vec::new(alloc);
    for number in 1..200usize {
        put(&mut fates, fate_of(number, case.lost, case.unanswered))?;
    }
    Ok(fates)
}

pub(crate) fn bus_of(alloc: Global, case: &Case<'_>) -> Result<SimBus, GearFault> {
    let mut unit = Unit::blank(alloc, 5)?;
    let (dtr0, dtr1, dtr2) = case.dtrs;
    unit.set_dtrs(dtr0, dtr1, dtr2);
    let mut units = Vec::new(alloc);
    put(&mut units, unit)?;
    put(&mut units, Unit::blank(alloc, 6)?)?;
    SimBus::new(units, fates_of(alloc, case)?)
}

pub(crate) fn run_case(
    alloc: Global,
    bus: &mut SimBus,
    case: &Case<'_>,
) -> Result<Outcome, RunFault> {
    let events = events_of(alloc, case.deeds)?;
    run_sim(alloc, bus, 10, &events)
}

// The answers, each with its order's number and how many frames were sent before it.
pub(crate) fn answers_of(
    alloc: Global,
    trace: &[Happening],
) -> Result<Vec<(u64, Reply, usize)>, RunFault> {
    let mut answers = Vec::new(alloc);
    let mut frames: usize = 0;
    for happening in trace {
        match happening {
            Happening::Sent(_, _) => frames = frames.saturating_add(1),
            Happening::Answered(id, reply) => put(&mut answers, (*id, *reply, frames))?,
            _ => {}
        }
    }
    Ok(answers)
}

// Runs a case, and tells whether its answers come as they should.
pub(crate) fn judge(alloc: Global, case: &Case<'_>) -> Result<(), Fail> {
    let mut bus = bus_of(alloc, case)?;
    let outcome = run_case(alloc, &mut bus, case)?;
    let answers = answers_of(alloc, &outcome.trace)?;
    expect_that(answers.as_slice() == case.answers, case.name)
}

// Does so with each of the cases.
pub(crate) fn judge_all(alloc: Global, cases: &[Case<'_>]) -> Result<(), Fail> {
    for case in cases {
        judge(alloc, case)?;
    }
    Ok(())
}
