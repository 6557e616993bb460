ghost use Rattle.std.specs.Prelude.{◌≡◌, ◌≢◌, ◌↔◌, List, ℕ, IfOk, IfErr, length, reverse, true};
ghost use Rattle.dali_trace.specs.Runs.{SendsAllProper};
ghost use Rattle.dali_text.specs.RunText.{run_text};
ghost use Rattle.dali_text.specs.Output.{Takes, has_failed, is_flushed};
ghost use Rattle.serde_json.specs.View.{view};
ghost use Rattle.dali_input.specs.Input.{IsJson, IsNoJson, ReadsAtMost, state_of};
ghost use Rattle.dali_input.specs.Scenario.{IsScenario, planned_of};
ghost use Rattle.dali_input.specs.Setup.{IsSetUp, IsSetupRefused};
ghost use Rattle.dali_input.specs.Values.{IsNoReading};
ghost use Rattle.dali_file_commands.specs.NoteLines.{Tells};
ghost use Rattle.dali_input.specs.Ends.{TellsEnd};
ghost use Rattle.dali_file_commands.specs.Notes.{IsNotedAnswer};
ghost use Rattle.dali_file_commands.specs.RunAnswers.{IsRan, IsRunAnswer, IsUnrun, scenario_limit};

use crate::notes::{Note, note_of_json, note_of_scenario, note_of_setup, write_noted_failure};
use dali_engine::{Outcome, RunFault, run_sim_with_pace};
use dali_gear::SimBus;
use dali_input::{
    Fault, Input, InputFault, Scenario, Setup, Status, json_of, read_input, scenario_of, setup_of,
};
use dali_journal::MOST_ORDERS;
use dali_text::{Output, OutputFailed, write_run};
use serde_json::Value;
use std::alloc::Global;
use std::io::{Read, Write};

/// The most bytes of a scenario.
pub const SCENARIO_LIMIT: u32 = 16_777_216;

// The result of a run, and the bus after it.
#[derive(Drop)]
struct Ran {
    outcome: Outcome,
    bus: SimBus,
}

/// Reads a JSON scenario, serves its events over its units under its fates, and writes the trace,
/// with a line for each frame or one for each run of frames, then how many frames there were, how
/// many bytes the journal has, and the units afterwards.
///
/// If the scenario isn't run, it writes only the line of the first fault that applies: 13 TooBig over 16777216 bytes,
/// 11 Json, 12 Document, 13 TooBig over 20000 events or fates, the fault of a unit (1 Address, 2 Size, 3 Fixed), 5
/// SameAddress, the fault of an order, 1 Limit; 20 Memory or 21 File if the memory or the reader failed.
///
/// If a call of the output fails, later ones write nothing more to it, and it ends as `Unwritten`.
///
/// The `notes` tell a person where the scenario is wrong and what its rule is. Whatever becomes of the notes, the
/// answer is the same.
pub fn run_scenario<R: Read, W: Write, N: Write>(
    alloc: Global,
    input: &mut Input<R>,
    output: &mut Output<W>,
    single_frames: bool,
    notes: &mut Output<N>,
) -> Status
    ensures ran { result ≢ Status.Unwritten → (text : List ℕ)
        × IsRunAnswer single_frames (state_of R.remaining input.old) (state_of R.remaining input.new) result text
        × Takes W.contents output.old output.new text }
    ensures read { ReadsAtMost scenario_limit (state_of R.remaining input.old) (state_of R.remaining input.new) }
    ensures unwritten { result ≡ Status.Unwritten ↔ has_failed output.new ≡ true }
    ensures flushed { result ≢ Status.Unwritten → is_flushed output.new ≡ true }
    ensures noted { result ≢ Status.Unwritten → (text : List ℕ) × Takes W.contents output.old output.new text
        × Tells N.contents notes.old notes.new (IsNotedAnswer result text) }
{
    match try_run(alloc, input, output, single_frames, notes) {
        Ok(status) => status,
        Err(_) => Status::Unwritten,
    }
}

// The same, or that the output has failed.
fn try_run<R: Read, W: Write, N: Write>(
    alloc: Global,
    input: &mut Input<R>,
    output: &mut Output<W>,
    single_frames: bool,
    notes: &mut Output<N>,
) -> Result<Status, OutputFailed>
    ensures ran { IfOk result (λ status. (text : List ℕ)
        × IsRunAnswer single_frames (state_of R.remaining input.old) (state_of R.remaining input.new) status text
        × Takes W.contents output.old output.new text) }
    ensures read { ReadsAtMost scenario_limit (state_of R.remaining input.old) (state_of R.remaining input.new) }
    ensures noted { IfOk result (λ status. (text : List ℕ) × Takes W.contents output.old output.new text
        × Tells N.contents notes.old notes.new (IsNotedAnswer status text)) }
    ensures end { TellsEnd result output.new }
{
    let mut note = Note::new(alloc);
    match ran_of(alloc, input, &mut note) {
        Ok(ran) => write_ran(output, single_frames, &ran),
        Err(fault) => {
            note_limit(&mut note, fault);
            write_noted_failure(output, fault, notes, &note)
        }
    }
}

// Reads, understands, sets up and runs a scenario. If there is a fault, the note is what is wrong there.
fn ran_of<R: Read>(alloc: Global, input: &mut Input<R>, note: &mut Note) -> Result<Ran, Fault>
    ensures ok { IfOk result (λ ran. IsRan (state_of R.remaining input.old) (state_of R.remaining input.new)
        ran.outcome.trace.items ran.outcome.journal.items ran.bus) }
    ensures err { IfErr result (IsUnrun (state_of R.remaining input.old) (state_of R.remaining input.new)) }
    ensures read { ReadsAtMost scenario_limit (state_of R.remaining input.old) (state_of R.remaining input.new) }
{
    let bytes = read_input(alloc, input, SCENARIO_LIMIT)?;
    let json = json_noting(alloc, bytes.as_slice(), note)?;
    let scenario = scenario_noting(alloc, &json, note)?;
    let Setup { mut bus, events } = setup_noting(alloc, &scenario, note)?;
    let Ok(limit) = u32::try_from(scenario.limit) else {
        return Err(Fault::Run(RunFault::Limit));
    };
    let pace = scenario.pace;
    // The scenario's text takes many times what the run needs.
    drop(scenario);
    drop(json);
    drop(bytes);
    let outcome = run_sim_with_pace(alloc, &mut bus, limit, pace, events.as_slice())?;
    Ok(Ran { outcome, bus })
}

// The JSON value of a scenario's bytes. If there is none, the note is why.
fn json_noting(alloc: Global, input: &[u8], note: &mut Note) -> Result<Value, InputFault>
    ensures ok { IfOk result (λ json. IsJson scenario_limit input.now (view json)) }
    ensures err { IfErr result (IsNoJson scenario_limit input.now) }
{
    match json_of(alloc, input, SCENARIO_LIMIT) {
        Ok(json) => Ok(json),
        Err(fault) => {
            *note = note_of_json(alloc, input, fault);
            Err(fault)
        }
    }
}

// The contents of a scenario. If it is none, the note is why.
fn scenario_noting<'a>(
    alloc: Global,
    json: &'a Value,
    note: &mut Note,
) -> Result<Scenario<'a>, InputFault>
    ensures ok { IfOk result (λ scenario. IsScenario (view json.now) (planned_of scenario)) }
    ensures err { IfErr result (IsNoReading (IsScenario (view json.now))) }
{
    match scenario_of(alloc, json) {
        Ok(scenario) => Ok(scenario),
        Err(fault) => {
            *note = note_of_scenario(alloc, json);
            Err(fault)
        }
    }
}

// The parts that a scenario sets up. If it can't be set up, the note is why.
fn setup_noting(alloc: Global, scenario: &Scenario<'_>, note: &mut Note) -> Result<Setup, Fault>
    ensures ok { IfOk result
        (λ setup. IsSetUp (planned_of scenario.now) setup.bus.units setup.bus.fates setup.events.items) }
    ensures err { IfErr result (IsSetupRefused (planned_of scenario.now)) }
{
    match setup_of(alloc, scenario) {
        Ok(setup) => Ok(setup),
        Err(fault) => {
            *note = note_of_setup(alloc, scenario, fault);
            Err(fault)
        }
    }
}

// Adds what a limit may be, if the fault is that it is none.
fn note_limit(note: &mut Note, fault: Fault) {
    if fault == Fault::Run(RunFault::Limit) {
        note.add(format_args!("limit: a journal has from 1 to {MOST_ORDERS} orders"));
    }
}

// Tells a run.
#[tactic(auto, using(dali_text::proofs::StreamLemmas::appends_kept))]
fn write_ran<W: Write>(
    output: &mut Output<W>,
    single_frames: bool,
    ran: &Ran,
) -> Result<Status, OutputFailed>
    requires { SendsAllProper (reverse ran.now.outcome.trace.items) }
    ensures told { IfOk result (λ status. (status ≡ Status.Good) × Takes W.contents output.old output.new
        (run_text single_frames ran.now.outcome.trace.items (length ran.now.outcome.journal.items) ran.now.bus.units)) }
    ensures end { TellsEnd result output.new }
{
    let Outcome { journal, trace } = &ran.outcome;
    write_run(output, single_frames, trace, journal.len(), ran.bus.units())?;
    output.flush()?;
    Ok(Status::Good)
}
