ghost use Rattle.std.specs.Prelude.{◌≡◌, false, OnOk, reverse};
ghost use Rattle.std.specs.List.{AllByRecursion, flat_map};
ghost use Rattle.dali_frame.specs.Frame.{IsProper};
ghost use Rattle.dali_trace.specs.declared.happening.Happening.TheVariants.{Sent};
ghost use Rattle.dali_trace.specs.Runs.{SendsAllProper, SendsProper};
ghost use Rattle.dali_text.specs.RunText.{happening_line, run_line, run_text, summary, total as total_sent, trace_text};
ghost use Rattle.dali_text.specs.UnitLines.{unit_text};
ghost use Rattle.dali_text.specs.Output.{TellsFailure, Takes};

use crate::digits::{ByteDigits, WordDigits};
use crate::output::{Output, OutputFailed};
use crate::record_text::RecordText;
use crate::unit_lines::write_unit;
use dali_frame::{Frame, word_of};
use dali_gear::Unit;
use dali_trace::Happening;
use std::io::Write;

/// Writes the result of a run (profile): its trace, how many frames were sent, how many bytes its journal has, and the
/// units after it.
///
/// Frames are printed one by one, or of each run of them only how many there were. It doesn't flush.
#[tactic(auto, using(crate::proofs::StreamLemmas::appends_both))]
pub fn write_run<W: Write>(
    output: &mut Output<W>,
    single_frames: bool,
    trace: &[Happening],
    journal: usize,
    units: &[Unit],
) -> Result<(), OutputFailed>
    requires { SendsAllProper (reverse trace.now) }
    ensures text { OnOk result (Takes W.contents output.old output.new
        (run_text single_frames trace.now journal units.now)) }
    ensures failed { TellsFailure result output.old output.new }
{
    write_trace(output, single_frames, trace)?;
    let total = total_of(trace);
    writeln!(output, "total {total}")?;
    writeln!(output, "journal {journal}")?;
    write_units(output, units)
}

// Writes a trace.
#[tactic(auto, using(crate::proofs::RunTextLemmas::proper_forward))]
fn write_trace<W: Write>(
    output: &mut Output<W>,
    single_frames: bool,
    trace: &[Happening],
) -> Result<(), OutputFailed>
    requires { SendsAllProper (reverse trace.now) }
    ensures text { OnOk result (Takes W.contents output.old output.new
        (trace_text single_frames trace.now)) }
    ensures failed { TellsFailure result output.old output.new }
{
    if single_frames {
        write_each(output, trace)
    } else {
        write_summary(output, trace)
    }
}

// Writes each happening by itself.
#[tactic(auto, using(crate::proofs::StreamLemmas::appends_both))]
fn write_each<W: Write>(output: &mut Output<W>, trace: &[Happening]) -> Result<(), OutputFailed>
    requires { AllByRecursion SendsProper trace.now }
    ensures text { OnOk result (Takes W.contents output.old output.new
        (flat_map happening_line trace.now)) }
    ensures failed { TellsFailure result output.old output.new }
{
    for happening in trace {
        write_happening(output, happening)?;
    }
    Ok(())
}

// Writes each happening except sent frames; each run of those is printed as its length where it ends.
#[tactic(auto, using(crate::proofs::RunTextLemmas::sum_other, crate::proofs::RunTextLemmas::not_sent))]
fn write_summary<W: Write>(output: &mut Output<W>, trace: &[Happening]) -> Result<(), OutputFailed>
    ensures text { OnOk result (Takes W.contents output.old output.new (summary false trace.now)) }
    ensures failed { TellsFailure result output.old output.new }
{
    let mut frames = 0;
    for happening in trace {
        if let Happening::Sent(_, _) = happening {
            frames += 1;
            continue;
        }
        write_frames(output, frames)?;
        write_happening(output, happening)?;
        frames = 0;
    }
    write_frames(output, frames)
}

// Writes how many frames a run has, if there is one.
fn write_frames<W: Write>(output: &mut Output<W>, frames: usize) -> Result<(), OutputFailed>
    ensures text { OnOk result (Takes W.contents output.old output.new (run_line frames)) }
    ensures failed { TellsFailure result output.old output.new }
{
    if frames == 0 {
        return Ok(());
    }
    writeln!(output, "frames {frames}")
}

// Writes a happening by itself.
fn write_happening<W: Write>(
    output: &mut Output<W>,
    happening: &Happening,
) -> Result<(), OutputFailed>
    requires { SendsProper happening.now }
    ensures text { OnOk result (Takes W.contents output.old output.new (happening_line happening.now)) }
    ensures failed { TellsFailure result output.old output.new }
{
    match happening {
        Happening::Asked(order, _) => {
            let id = order.id();
            writeln!(output, "ask {id}")
        }
        Happening::Answered(id, reply) => writeln!(output, "reply {id} {reply}"),
        Happening::Sent(frame, answer) => write_sent(output, frame, *answer),
        Happening::Kept(entry) => {
            let entry = RecordText(entry);
            writeln!(output, "keep {entry}")
        }
        Happening::Stopped(_) => writeln!(output, "stop"),
        Happening::Powered(address) => writeln!(output, "power {address}"),
    }
}

// Writes a frame and its answer, or that none came.
fn write_sent<W: Write>(
    output: &mut Output<W>,
    frame: &Frame,
    answer: Option<u8>,
) -> Result<(), OutputFailed>
    requires { IsProper frame.now }
    ensures text { OnOk result (Takes W.contents output.old output.new
        (happening_line (Sent frame.now answer))) }
    ensures failed { TellsFailure result output.old output.new }
{
    let word = WordDigits(word_of(frame));
    match answer {
        Some(byte) => {
            let byte = ByteDigits(byte);
            writeln!(output, "send {word} {byte}")
        }
        None => writeln!(output, "send {word} --"),
    }
}

// How many frames were sent.
fn total_of(trace: &[Happening]) -> usize
    ensures { result ≡ total_sent trace.now }
{
    trace
        .iter()
        .filter(|happening| matches!(happening, Happening::Sent(_, _)))
        .count()
}

// Writes each unit.
#[tactic(auto, using(crate::proofs::StreamLemmas::appends_both))]
fn write_units<W: Write>(output: &mut Output<W>, units: &[Unit]) -> Result<(), OutputFailed>
    ensures text { OnOk result (Takes W.contents output.old output.new (flat_map unit_text units.now)) }
    ensures failed { TellsFailure result output.old output.new }
{
    for unit in units {
        write_unit(output, unit)?;
    }
    Ok(())
}
