// The words for a person about a wrong command line.
use crate::fault_stream::{FaultStream, out_of_memory, tell_cause};
use clap::error::ErrorKind;
use dali_input::Status;
use dali_job::Refusal;
use dali_text::Escaped;

// The line if older journals are named, but no journal to ask.
const OLDER_ALONE: &str = "error: --older stands beside --journal: name that too";

// The line if `address` is asked for several things, or to give short addresses and to give none.
const SEVERAL_ASKED: &str =
    "error: --all, --list and --count ask for different things: name one of them";

const UNITS_UNASKED: &str =
    "error: --list and --count give no short address, and tell of all units: leave UNIT out";

// The advice of `clap` on an option that it doesn't know: another one, or how to give it as a value, which is of use
// for a word of hexadecimal digits alone.
const A_TIP: &str = "  tip: ";

const AS_A_VALUE: &str = "  tip: to pass '";

// The line after a wrong moment.
const A_MOMENT: &str =
    "A moment is a whole number from 0 to 18446744073709551615, as the clock's seconds: --moment $(date +%s)";

// The line after a wrong unit of `read`.
const A_UNIT: &str = "UNIT, 0 to 63, comes first, then HEXFILE";

/// Tells why a command line is refused that `clap` takes.
pub(crate) fn tell_refusal(rt: &HostRuntime, refusal: Refusal) -> Status {
    let _ = match refusal {
        Refusal::OlderAlone => eprintln!(rt; "{OLDER_ALONE}"),
        Refusal::SeveralAsked => eprintln!(rt; "{SEVERAL_ASKED}"),
        Refusal::UnitsUnasked => eprintln!(rt; "{UNITS_UNASKED}"),
        Refusal::NamedTwice(unit) => {
            eprintln!(rt; "error: unit {unit} is named twice: name each unit once")
        }
    };
    Status::Refused
}

/// Prints what `clap` says: the help that was asked for, or why the command line is wrong.
pub(crate) fn tell_usage(
    rt: &HostRuntime,
    words: &[&str],
    error: &clap::Error,
    stream: FaultStream,
) -> Status {
    if error.kind() == ErrorKind::OutOfMemory {
        return out_of_memory(rt, stream);
    }
    if error.use_stderr() {
        return refused(rt, words, error, stream);
    }
    match error.print(rt) {
        Ok(()) => Status::Good,
        Err(cause) => tell_cause(rt, Status::Unwritten, Some(cause.kind())),
    }
}

// Prints what `clap` says of a wrong command line, in which it repeats words of that.
fn refused(rt: &HostRuntime, words: &[&str], error: &clap::Error, stream: FaultStream) -> Status {
    let Ok(text) = format!(in rt.alloc(); "{error}") else {
        return out_of_memory(rt, stream);
    };
    for line in text.as_str().lines() {
        if !line.starts_with(AS_A_VALUE) || takes_digits(words) {
            let line = Escaped::Whole(line);
            let _ = eprintln!(rt; "{line}");
        }
        if line.starts_with(A_TIP) && !takes_digits(words) {
            tell_help(rt, words);
        }
    }
    if text.as_str().contains("'--moment <M>'") || has_signed_moment(words) {
        let _ = eprintln!(rt; "{A_MOMENT}");
    }
    if words.len() > 1 && words[1] == "read" && text.as_str().contains("'<UNIT>'") {
        let _ = eprintln!(rt; "{A_UNIT}");
    }
    Status::Refused
}

// Whether the words are those of `frame`, with hexadecimal digits after a minus.
fn takes_digits(words: &[&str]) -> bool {
    words.len() == 3 && words[1] == "frame" && !words[2].starts_with("--")
}

// Prints where to read what the command takes.
fn tell_help(rt: &HostRuntime, words: &[&str]) {
    if words.len() > 1 {
        let command = Escaped::Whole(words[1]);
        let _ = eprintln!(rt; "  tip: dali_bench {command} --help tells what it takes");
    }
}

// Whether a moment was given with a minus before it, which `clap` takes for an option.
fn has_signed_moment(words: &[&str]) -> bool {
    let mut is_moment = false;
    for word in words {
        if is_moment && word.starts_with("-") && *word != "--" {
            return true;
        }
        is_moment = *word == "--moment";
    }
    false
}
