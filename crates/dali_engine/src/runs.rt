ghost use Rattle.std.specs.Prelude.{◌≡◌, ◌↔◌, ◌∷◌, List, reverse, is_some, IfSome, IsNone, IfOk, OnOk, OnErr, IfErr};
ghost use Rattle.std.specs.Prelude.{Err, ℕ, [], take, IsOk};
ghost use Rattle.dali_journal.specs.declared.version.Version.TheVariants.{Two};
ghost use Rattle.dali_write.specs.declared.pace.Pace.{Pace};
ghost use Rattle.dali_journal.specs.Spelling.{journal_spelling};
ghost use Rattle.dali_journal.specs.JournalState.{IsLimit};
ghost use Rattle.dali_trace.specs.declared.happening.Happening.{Happening};
ghost use Rattle.dali_trace.specs.declared.fault.RunFault.TheVariants as faults;
ghost use Rattle.dali_trace.specs.Trace.{Start, is_busy};
ghost use Rattle.dali_trace.specs.Parts.{IsWork};
ghost use Rattle.dali_trace.specs.Moves.{MovesBy};
ghost use Rattle.dali_trace.specs.Runs.{fresh, IsRun, IsCutShort, SendsProper, AsksProper};
ghost use Rattle.dali_engine.specs.Describes.{Describes};
ghost use Rattle.dali_engine.specs.Follows.{Follows};
ghost use Rattle.dali_engine.specs.WriterState.{WriterState};
ghost use Rattle.dali_engine.specs.Served.{IsServed, AreServed};
ghost use Rattle.dali_trace.specs.Spared.{IsSimRun};
ghost use Rattle.dali_gear.specs.SimState.{SimStep, world_of};

use crate::stops::stop;
use crate::writer::Writer;
use dali_gear::{Bus, SimBus};
use dali_journal::Journal;
use dali_trace::{Event, Happening, RunFault, Want};
use dali_write::Pace;
use std::alloc::Global;

// Does once what the writer wants, if it wants something.
fn advance<B: Bus>(bus: &mut B, writer: &mut Writer) -> Option<Happening>
    ensures described { IfSome result (λ happening. (start : Start) (past : List Happening)
        → Describes start past writer.old → Describes start (happening ∷ past) writer.new) }
    ensures follows { IfSome result
        (λ happening. (start : Start) (past : List Happening) → Describes start past writer.old
        → Follows start past writer.old → Follows start (happening ∷ past) writer.new) }
    ensures pace { writer.new.pace ≡ writer.old.pace }
    ensures moves { IfSome result (λ happening. MovesBy B.step bus.old happening bus.new) }
    ensures work { IfSome result (λ happening. IsWork happening) }
    ensures proper { IfSome result (λ happening. SendsProper happening) }
    ensures orders { IfSome result (λ happening. AsksProper happening) }
    ensures busy { (start : Start) (past : List Happening) → Describes start past writer.old
        → is_busy start past ≡ is_some result }
    ensures writer { IsNone result → writer.new ≡ writer.old }
    ensures bus { IsNone result → bus.new ≡ bus.old }
{
    match writer.want() {
        Want::Idle => None,
        Want::Keep(entry) => {
            writer.kept();
            Some(Happening::Kept(entry))
        }
        Want::Send(frame) => {
            let answer = bus.carry(&frame);
            writer.heard(answer);
            Some(Happening::Sent(frame, answer))
        }
        Want::Say(id, reply) => {
            writer.said();
            Some(Happening::Answered(id, reply))
        }
    }
}

// Serves one event. All memory that it takes, it takes before anything is added to the trace.
fn serve<B: Bus>(
    alloc: Global,
    bus: &mut B,
    writer: &mut Writer,
    trace: &mut Vec<Happening>,
    event: &Event,
) -> Result<(), RunFault>
    ensures ok { OnOk result (IsServed B.step event.now bus.old writer.old (reverse trace.old.items)
        bus.new writer.new (reverse trace.new.items)) }
    ensures err { IfErr result (λ fault. (fault ≡ faults.NoMemory) × (bus.new ≡ bus.old)
        × (trace.new.items ≡ trace.old.items)) }
{
    trace.reserve(2)?;
    match event {
        Event::Submit(order, moment) => {
            let reply = writer.submit(order.copy(), *moment)?;
            trace.push_reserved(Happening::Asked(order.copy(), *moment));
            trace.push_reserved(Happening::Answered(order.id(), reply));
        }
        Event::Step => {
            if let Some(happening) = advance(bus, writer) {
                trace.push_reserved(happening);
            }
        }
        Event::Stop(bytes) => {
            let pace = writer.pace();
            if let Some(entry) = stop(alloc, writer, *bytes)? {
                trace.push_reserved(Happening::Kept(entry));
            }
            trace.push_reserved(Happening::Stopped(pace));
        }
        Event::Power(address) => {
            bus.power(*address);
            trace.push_reserved(Happening::Powered(*address));
        }
    }
    Ok(())
}

/// The result of a run over a bus (profile).
#[derive(Drop)]
pub struct Outcome {
    /// The journal's bytes, in version 2.
    pub journal: Vec<u8>,
    /// The happenings, the oldest first.
    pub trace: Vec<Happening>,
}

/// As `run_with_pace`, by the checked plan.
pub fn run<B: Bus>(
    alloc: Global,
    bus: &mut B,
    limit: u32,
    events: &[Event],
) -> Result<Outcome, RunFault>
    ensures ok { IfOk result
        (λ outcome. IsRun B.world B.step limit Pace.Checked events.now bus.old outcome.trace.items
        outcome.journal.items bus.new) }
    ensures limit { (result ≡ Err faults.Limit) ↔ (¬ IsLimit limit) }
    ensures untouched { result ≡ Err faults.Limit → bus.new ≡ bus.old }
    ensures err { OnErr result (IsCutShort B.world B.step limit Pace.Checked events.now bus.old bus.new) }
{
    run_with_pace(alloc, bus, limit, Pace::Checked, events)
}

/// Serves the events in their order by this plan, over a bus and an empty journal for at most this many orders
/// (profile).
///
/// A `Submit` takes an order and replies. A `Step` does the next thing, if there is one. A `Stop` leaves
/// the journal's bytes, with the first ones of the record that was to be kept next, and all goes on from
/// the journal that is loaded from them. A `Power` takes its power from a unit and gives it back; the
/// writer stays as it is.
///
/// Fault 1 Limit if the limit is 0 or over 100000, before anything is done; 2 NoMemory if there is no memory: then the
/// bus is as the events so far left it.
pub fn run_with_pace<B: Bus>(
    alloc: Global,
    bus: &mut B,
    limit: u32,
    pace: Pace,
    events: &[Event],
) -> Result<Outcome, RunFault>
    ensures ok { IfOk result
        (λ outcome. IsRun B.world B.step limit pace events.now bus.old outcome.trace.items outcome.journal.items
        bus.new) }
    ensures limit { (result ≡ Err faults.Limit) ↔ (¬ IsLimit limit) }
    ensures untouched { result ≡ Err faults.Limit → bus.new ≡ bus.old }
    ensures err { OnErr result (IsCutShort B.world B.step limit pace events.now bus.old bus.new) }
{
    match empty_writer(alloc, limit, pace) {
        Ok(mut writer) => serve_all(alloc, bus, &mut writer, events),
        Err(fault) => Err(fault),
    }
}

// A writer over an empty journal for at most this many orders.
fn empty_writer(alloc: Global, limit: u32, pace: Pace) -> Result<Writer, RunFault>
    ensures described { IfOk result (λ writer. Describes (fresh limit pace) [] writer) }
    ensures follows { IfOk result (λ writer. Follows (fresh limit pace) [] writer) }
    ensures succeeds { IsLimit limit ↔ IsOk result }
    ensures fault { IfErr result (λ fault. fault ≡ faults.Limit) }
{
    let Ok(journal) = Journal::new(alloc, limit) else {
        return Err(RunFault::Limit);
    };
    Ok(Writer::with_pace(journal, pace))
}

// Serves the events in their order, from an empty trace on.
fn serve_all<B: Bus>(
    alloc: Global,
    bus: &mut B,
    writer: &mut Writer,
    events: &[Event],
) -> Result<Outcome, RunFault>
    ensures ok { IfOk result (λ outcome. AreServed B.step events.now bus.old writer.old
        bus.new writer.new (reverse outcome.trace.items)) }
    ensures journal { IfOk result
        (λ outcome. outcome.journal.items ≡ journal_spelling Two writer.new.journal.records) }
    ensures err { IfErr result (λ fault. (fault ≡ faults.NoMemory) × ((served : ℕ) × (last : WriterState)
        × (past : List Happening) × AreServed B.step (take served events.now) bus.old writer.old bus.new last past)) }
{
    let mut trace = Vec::new(alloc);
    for event in events {
        serve(alloc, bus, writer, &mut trace, event)?;
    }
    Ok(Outcome {
        journal: writer.journal().to_bytes(alloc)?,
        trace,
    })
}

/// As `run_sim_with_pace`, by the checked plan.
pub fn run_sim(
    alloc: Global,
    bus: &mut SimBus,
    limit: u32,
    events: &[Event],
) -> Result<Outcome, RunFault>
    ensures ok { IfOk result
        (λ outcome. IsSimRun limit Pace.Checked events.now bus.old outcome.trace.items outcome.journal.items bus.new) }
    ensures limit { (result ≡ Err faults.Limit) ↔ (¬ IsLimit limit) }
    ensures untouched { result ≡ Err faults.Limit → bus.new ≡ bus.old }
    ensures err { OnErr result (IsCutShort (λ state. world_of state.units) SimStep limit Pace.Checked events.now
        bus.old bus.new) }
{
    run_sim_with_pace(alloc, bus, limit, Pace::Checked, events)
}

/// Serves the events as `run_with_pace` does, over a simulated bus (profile).
///
/// Faults as of `run_with_pace`.
pub fn run_sim_with_pace(
    alloc: Global,
    bus: &mut SimBus,
    limit: u32,
    pace: Pace,
    events: &[Event],
) -> Result<Outcome, RunFault>
    ensures ok { IfOk result
        (λ outcome. IsSimRun limit pace events.now bus.old outcome.trace.items outcome.journal.items bus.new) }
    ensures limit { (result ≡ Err faults.Limit) ↔ (¬ IsLimit limit) }
    ensures untouched { result ≡ Err faults.Limit → bus.new ≡ bus.old }
    ensures err { OnErr result (IsCutShort (λ state. world_of state.units) SimStep limit pace events.now
        bus.old bus.new) }
{
    run_with_pace(alloc, bus, limit, pace, events)
}
