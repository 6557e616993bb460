// A journal as a command's input.
ghost use Rattle.std.specs.Prelude.{IfErr, IfOk};
ghost use Rattle.dali_input.specs.JournalInput.{IsJournalIn, IsUnloaded};

use crate::command_fault::Fault;
use crate::fault::InputFault;
use dali_journal::{Journal, MOST_ORDERS, Version};
use std::alloc::Global;

/// The most bytes of a journal.
pub const JOURNAL_LIMIT: u32 = 33_554_432;

/// The journal of an input, how many bytes of it count, and its version.
pub fn journal_in(alloc: Global, input: Vec<u8>) -> Result<(Journal, usize, Version), Fault>
    ensures ok { IfOk result (λ loaded. IsJournalIn input.items loaded.0 loaded.1 loaded.2) }
    ensures err { IfErr result (IsUnloaded input.items) }
{
    if input.len() > JOURNAL_LIMIT as usize {
        return Err(Fault::Input(InputFault::TooBig));
    }
    match Journal::load_vec(alloc, MOST_ORDERS, input) {
        Ok(loaded) => Ok(loaded),
        Err(fault) => Err(Fault::Journal(fault)),
    }
}
