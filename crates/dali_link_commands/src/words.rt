// Words for a person on a stream that others read too: plain characters on one line.
ghost use Rattle.std.specs.Prelude.{◌≡◌, IfOk, IfSome, string_bytes};
ghost use Rattle.dali_text.specs.Escaped.{shown_text};
ghost use Rattle.dali_link_commands.specs.Told.{IsPlain};

use crate::older::OlderFault;
use dali_input::{Fault, InputFault};
use dali_journal::JoinFault;
use dali_store::advice;
use dali_text::Escaped;
use std::alloc::{AllocError, Global};
use std::io;

/// Words as they are shown; none if there is no memory for that.
pub(crate) fn plain_words(alloc: Global, made: Option<String>) -> Option<String>
    ensures { IfSome result (λ words. IsPlain (string_bytes words)) }
{
    let made = made?;
    shown(alloc, made.as_str()).ok()
}

/// A text on one line: each of its characters that isn't from 20h to 7Eh by its number.
pub(crate) fn shown(alloc: Global, text: &str) -> Result<String, AllocError>
    ensures text { IfOk result (λ words. string_bytes words ≡ shown_text text.now) }
    ensures plain { IfOk result (λ words. IsPlain (string_bytes words)) }
{
    let shown = Escaped::Whole(text);
    format!(in alloc; "{shown}")
}

/// The system's words on a failure, and what to do about it, if there is memory for them.
pub(crate) fn system_words(alloc: Global, error: &io::Error) -> Option<String> {
    let advice = advice(error);
    format!(in alloc; "{error}{advice}").ok()
}

/// Words for a file that can't be read, with the cause if there is one, and memory for it.
pub(crate) fn unread_words(alloc: Global, name: &str, cause: Option<io::Error>) -> Option<String> {
    if let Some(cause) = cause {
        let advice = advice(&cause);
        if let Ok(words) = format!(in alloc; "the file can't be used: {name}: {cause}{advice}") {
            return Some(words);
        }
    }
    format!(in alloc; "the file can't be used: {name}").ok()
}

/// Words for a file that can't be used as an older journal, of which a store or the system says this.
pub(crate) fn older_words(
    alloc: Global,
    name: &str,
    fault: OlderFault,
    words: Option<&str>,
) -> Option<String> {
    if let Some(words) = words {
        return format!(in alloc; "the older journal can't be used: {name}: {words}").ok();
    }
    let (what, rest) = match fault {
        OlderFault::Join(JoinFault::Repeated(id)) => {
            return format!(in alloc;
                "order {id} stands in two journals: {name}, and an older one"
            ).ok();
        }
        OlderFault::Unloaded(Fault::Journal(fault)) => {
            let number = fault.number();
            return format!(in alloc;
                "the older journal is none: {name}: journal fault {number} {fault}"
            ).ok();
        }
        OlderFault::Cut => ("the older journal's end is cut", ": drive it once more"),
        OlderFault::AtWork => {
            (
                "the older journal isn't at rest",
                ": an order isn't ended, or a unit is left",
            )
        }
        OlderFault::Unloaded(Fault::Input(InputFault::TooBig)) => {
            ("the older journal is too big", "")
        }
        _ => ("the older journal can't be used", ""),
    };
    format!(in alloc; "{what}: {name}{rest}").ok()
}
