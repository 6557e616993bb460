//! A bench for luminaire data in memory bank 1 of DALI control gear.
//!
//! A crate of its own: it is the program, whose edge to the system has no contract.
#![tactic(auto)]

ghost use Rattle.dali_job.specs.Jobs.{IsShortJob};
ghost use Rattle.dali_job.specs.LinkOptions.{IsShort};

mod fault_stream;
mod link_note;
mod refusal;
mod settled;

use crate::fault_stream::{FaultStream, out_of_memory, print_fault, tell_cause, unopened};
use crate::link_note::tell_refused;
use crate::refusal::{tell_refusal, tell_usage};
use crate::settled::Settled;
use dali_drive::{StdSink, StdSource, StoreDesk};
use dali_file_commands::FileCommand;
use dali_file_commands::fields::fields;
use dali_file_commands::frame::frame;
use dali_file_commands::notes::FirstLines;
use dali_input::{Input, Status};
use dali_job::{Job, LinkCommand, job_of};
use dali_link_commands::asked::read_asked;
use dali_link_commands::lines::Lines;
use dali_link_commands::link_command::{carry_out, store_of, watched_of};
use dali_report::{Cleared, Counted, Progress, progress_of};
use dali_text::{Escaped, Output};
use std::alloc::{AllocError, Global};
use std::io::{BufWriter, ErrorKind, IsTerminal, LineWriter, Read, Write};
use std::process::ExitCode;
use std::{fs, io};

// The line of `--version` and `-V`: `./test` compares the logic with that of the kit that the gate runs on.
const VERSION: &str = "dali_bench 1.0, proved with the Rattle logic dac8208d650f15bf";

// The line if a command over a link is started with no link.
const AT_A_TERMINAL: &str =
    "error: the frames go to standard output, which is a terminal: start this over an adapter (docs/LINK.md)";

fn main(rt: HostRuntime) -> ExitCode {
    let status = match std::env::args(&rt) {
        Ok(words) => match words.collect(rt.alloc()) {
            Ok(words) => run(&rt, &words),
            Err(_) => out_of_memory(&rt, FaultStream::Output),
        },
        Err(error) if error.kind() == ErrorKind::OutOfMemory => out_of_memory(
            &rt,
            FaultStream::Output,
        ),
        Err(_) => {
            let _ = eprintln!(&rt; "error: an argument is no text in UTF-8");
            Status::Refused
        }
    };
    ExitCode::from(status.code())
}

// Carries out the command line.
fn run(rt: &HostRuntime, words: &Vec<String>) -> Status {
    let stream = if words.len() > 1 && has_link(words[1].as_str()) {
        FaultStream::Lines
    } else {
        FaultStream::Output
    };
    if words.len() == 2 && asks_version(words[1].as_str()) {
        return print_version(rt);
    }
    let Ok(words) = texts_of(rt.alloc(), words) else {
        return out_of_memory(rt, stream);
    };
    match job_of(rt.alloc(), words.as_slice()) {
        Ok(job) => on_job(rt, job),
        Err(error) => tell_usage(rt, words.as_slice(), &error, stream),
    }
}

// Carries out a job.
fn on_job(rt: &HostRuntime, job: Job<'_>) -> Status
    requires { IsShortJob job }
{
    match job {
        Job::Check {
            orders,
            journal,
            older,
        } => on_check(rt, orders, journal, older.as_slice()),
        Job::Run {
            scenario,
            single_frames,
        } => on_file(rt, scenario, FileCommand::Run { single_frames }),
        Job::Frame(digits) => on_word(rt, digits),
        Job::Show(dump) => on_file(rt, dump, FileCommand::Show),
        Job::Journal {
            records,
            with_updates,
        } => on_file(rt, records, FileCommand::Journal { with_updates }),
        Job::Fields => on_fields(rt),
        Job::Link { command, progress } => on_link(rt, &command, progress),
        Job::Refused(refusal) => tell_refusal(rt, refusal),
    }
}

// Whether a word on its own asks for the version.
fn asks_version(word: &str) -> bool {
    matches!(word, "--version" | "-V")
}

// Whether a command of this name has the link for its output.
fn has_link(name: &str) -> bool {
    matches!(name, "drive" | "read" | "verify" | "scan" | "address")
}

fn print_version(rt: &HostRuntime) -> Status {
    let mut output = Output::new(io::writer(rt));
    let status = match writeln!(output, "{VERSION}") {
        Ok(()) => Status::Good,
        Err(_) => Status::Unwritten,
    };
    tell_cause(rt, status, output.cause())
}

fn texts_of<'a>(alloc: Global, words: &'a Vec<String>) -> Result<Vec<&'a str>, AllocError> {
    let mut texts = Vec::new(alloc);
    for word in words {
        texts.push(word.as_str())?;
    }
    Ok(texts)
}

// Prints what the word of a frame means. Standard error has why the argument is none.
fn on_word(rt: &HostRuntime, digits: &str) -> Status {
    let Ok(lines) = LineWriter::new(rt.alloc(), rt.stderr()) else {
        return out_of_memory(rt, FaultStream::Output);
    };
    let mut output = Output::new(io::writer(rt));
    let status = frame(rt.alloc(), digits, &mut output, &mut Output::new(lines));
    tell_cause(rt, status, output.cause())
}

// Prints the fields of an order.
fn on_fields(rt: &HostRuntime) -> Status {
    let Ok(writer) = BufWriter::new(rt.alloc(), io::writer(rt)) else {
        return out_of_memory(rt, FaultStream::Output);
    };
    let mut output = Output::new(writer);
    let status = fields(&mut output);
    tell_cause(rt, status, output.cause())
}

// Checks the orders of a file; if another file is named, its journal answers for each of them.
fn on_check(rt: &HostRuntime, orders: &str, journal: Option<&str>, older: &[&str]) -> Status {
    let Some(journal) = journal else {
        return on_file(rt, orders, FileCommand::Check { known: None });
    };
    match read_asked(rt, journal, older) {
        Ok(known) => on_file(
            rt,
            orders,
            FileCommand::Check {
                known: Some(&known),
            },
        ),
        Err(problem) => {
            let words = problem
                .words
                .as_deref()
                .unwrap_or("a journal can't be used");
            let _ = eprintln!(rt; "error: {words}");
            print_fault(rt, problem.fault, FaultStream::Output)
        }
    }
}

// Carries out a command over a file, or over standard input for `-`. The name `/dev/stdin` is read through the runtime
// too, since a process may lack the right to open it by name.
fn on_file(rt: &HostRuntime, name: &str, command: FileCommand<'_>) -> Status {
    if is_watched(rt) {
        return match LineWriter::new(rt.alloc(), io::writer(rt)) {
            Ok(writer) => onto_output(rt, name, command, &mut Output::new(writer)),
            Err(_) => out_of_memory(rt, FaultStream::Output),
        };
    }
    match BufWriter::new(rt.alloc(), io::writer(rt)) {
        Ok(writer) => onto_output(rt, name, command, &mut Output::new(writer)),
        Err(_) => out_of_memory(rt, FaultStream::Output),
    }
}

// Whether a person sees standard output and standard error in one place: each line is to be there as it is written, so
// that the notes on an item follow it.
fn is_watched(rt: &HostRuntime) -> bool {
    rt.stdout().is_terminal() && rt.stderr().is_terminal()
}

// Carries out a command over a file, or over standard input, onto an output.
fn onto_output<W: Write>(
    rt: &HostRuntime,
    name: &str,
    command: FileCommand<'_>,
    output: &mut Output<W>,
) -> Status {
    let is_journal = matches!(command, FileCommand::Journal { .. });
    if name == "/dev/stdin" || name == "-" {
        let name = "standard input";
        return if is_journal {
            let mut input = Input::new(Settled::standard(rt));
            on_input(rt, name, command, &mut input, output)
        } else {
            on_input(rt, name, command, &mut Input::new(rt.reader()), output)
        };
    }
    match fs::open(rt, name) {
        Ok(file) if is_journal => {
            let mut input = Input::new(Settled::named(rt, file));
            on_input(rt, name, command, &mut input, output)
        }
        Ok(file) => on_input(rt, name, command, &mut Input::new(file), output),
        Err(cause) => unopened(rt, name, cause, FaultStream::Output),
    }
}

// Carries out a command over an input. Standard error has where that is wrong.
fn on_input<R: Read, W: Write>(
    rt: &HostRuntime,
    name: &str,
    command: FileCommand<'_>,
    input: &mut Input<R>,
    output: &mut Output<W>,
) -> Status {
    if is_watched(rt) {
        return match LineWriter::new(rt.alloc(), rt.stderr()) {
            Ok(writer) => on_noted(rt, name, command, input, output, writer),
            Err(_) => out_of_memory(rt, FaultStream::Output),
        };
    }
    match BufWriter::new(rt.alloc(), rt.stderr()) {
        Ok(writer) => on_noted(rt, name, command, input, output, writer),
        Err(_) => out_of_memory(rt, FaultStream::Output),
    }
}

// The same, with a writer onto standard error.
fn on_noted<R: Read, W: Write, N: Write + Drop>(
    rt: &HostRuntime,
    name: &str,
    command: FileCommand<'_>,
    input: &mut Input<R>,
    output: &mut Output<W>,
    writer: N,
) -> Status {
    let mut notes = Output::new(FirstLines::new(writer));
    let status = command.carry_out(rt.alloc(), input, output, &mut notes);
    let _ = notes.flush();
    tell_input(rt, name, status, is_one_whole(command), input.cause());
    tell_cause(rt, status, output.cause())
}

// Tells which input was refused as a whole, and why one can't be read.
fn tell_input(
    rt: &HostRuntime,
    name: &str,
    status: Status,
    is_whole: bool,
    cause: Option<ErrorKind>,
) {
    let name = Escaped::Whole(name);
    let _ = match cause {
        Some(ErrorKind::Uncategorized) if is_closed(rt) => {
            eprintln!(rt; "error: the input can't be read: {name}: it is closed")
        }
        Some(ErrorKind::Uncategorized) => eprintln!(rt; "error: the input can't be read: {name}"),
        Some(cause) => eprintln!(rt; "error: the input can't be read: {name}: {cause}"),
        None if status == Status::Failed => eprintln!(rt; "error: memory ran out: {name}"),
        None if status == Status::Refused && is_whole => {
            eprintln!(rt; "error: the input is refused: {name}")
        }
        None => Ok(()),
    };
}

// Whether standard input is closed. A file that is opened while it is takes its number.
fn is_closed(rt: &HostRuntime) -> bool {
    match fs::metadata(rt, "/dev/fd/0") {
        Ok(_) => false,
        Err(error) => error.kind() == ErrorKind::NotFound,
    }
}

// Whether what a command tells a person is of its input as a whole, so that the input's name belongs beside it.
fn is_one_whole(command: FileCommand<'_>) -> bool {
    matches!(command, FileCommand::Show | FileCommand::Journal { .. })
}

// Carries out a command over standard input and output. If standard error can't be written, nothing more is. If
// standard output is a terminal, a line for a person names what is missing: the frames would be printed there, and the
// answers waited for. A person who asks for it sees the progress of the command, and what may be wrong if it is
// refused.
fn on_link(rt: &HostRuntime, command: &LinkCommand<'_>, is_watched: bool) -> Status
    requires { IsShort command.now }
{
    if rt.stdout().is_terminal() {
        let _ = eprintln!(rt; "{AT_A_TERMINAL}");
        return Status::Refused;
    }
    let progress = progress_of(*rt, is_watched, watched_of(command));
    let status = carried_out(rt, command, progress.as_ref());
    if let Some(progress) = &progress {
        progress.end();
    }
    if is_watched && status == Status::Refused {
        tell_refused(rt, command);
    }
    status
}

// Carries out a command over standard input and output, beside what is watched, if that is.
fn carried_out(rt: &HostRuntime, command: &LinkCommand<'_>, progress: Option<&Progress>) -> Status
    requires { IsShort command.now }
{
    let Ok(lines) = LineWriter::new(rt.alloc(), Cleared::new(rt.stderr(), progress)) else {
        return out_of_memory(rt, FaultStream::Lines);
    };
    // A file that is opened takes the number of a standard stream that is closed. These do so before the journal.
    match (fs::open(rt, "/"), fs::open(rt, "/"), fs::open(rt, "/")) {
        (Ok(_first), Ok(_second), Ok(_third)) => {
            let mut desk = StoreDesk {
                link_in: StdSource::new(rt.stdin()),
                link_out: StdSink::new(Counted::new(rt.stdout(), progress)),
                journal: store_of(rt, command),
                older: None,
                out: Lines {
                    output: Output::new(lines),
                },
            };
            match carry_out(rt, command, &mut desk, progress) {
                Status::Unwritten => Status::Failed,
                status => status,
            }
        }
        (Err(cause), _, _) | (_, Err(cause), _) | (_, _, Err(cause)) => {
            unopened(rt, "/", cause, FaultStream::Lines)
        }
    }
}
