// How a fault outside of any command is reported.
use dali_input::{Fault, InputFault, Status, write_fault};
use dali_store::advice;
use dali_text::{Escaped, Output};
use std::io;
use std::io::ErrorKind;

// The status, after telling why the output can't be written, if that is so. If nobody reads it any more, as in
// `check FILE | head`, nothing is printed.
pub(crate) fn tell_cause(rt: &HostRuntime, status: Status, cause: Option<ErrorKind>) -> Status {
    let _ = match cause {
        None | Some(ErrorKind::BrokenPipe) => Ok(()),
        Some(ErrorKind::Uncategorized) => eprintln!(rt; "error: the output can't be written"),
        Some(cause) => eprintln!(rt; "error: the output can't be written: {cause}"),
    };
    status
}

// The stream for a fault that comes before its command runs: some have the link for their output.
#[derive(Clone, Copy)]
pub(crate) enum FaultStream {
    Output,
    Lines,
}

// Prints that a file can't be opened, why, and if too many are open, what to do.
pub(crate) fn unopened(
    rt: &HostRuntime,
    name: &str,
    cause: io::Error,
    stream: FaultStream,
) -> Status {
    let name = Escaped::Whole(name);
    let advice = advice(&cause);
    let _ = eprintln!(rt; "error: the input can't be opened or read: {name}: {cause}{advice}");
    print_fault(rt, Fault::Input(InputFault::File), stream)
}

// Prints that memory ran out before any command ran.
pub(crate) fn out_of_memory(rt: &HostRuntime, stream: FaultStream) -> Status {
    let _ = eprintln!(rt; "error: memory ran out");
    print_fault(rt, Fault::Input(InputFault::Memory), stream)
}

// Prints a fault that comes before any command runs.
pub(crate) fn print_fault(rt: &HostRuntime, fault: Fault, stream: FaultStream) -> Status {
    match stream {
        FaultStream::Output => {
            let mut output = Output::new(io::writer(rt));
            match write_fault(&mut output, fault) {
                Ok(()) => fault.status(),
                Err(_) => tell_cause(rt, Status::Unwritten, output.cause()),
            }
        }
        FaultStream::Lines => match write_fault(&mut Output::new(rt.stderr()), fault) {
            Ok(()) => fault.status(),
            Err(_) => Status::Unwritten,
        },
    }
}
