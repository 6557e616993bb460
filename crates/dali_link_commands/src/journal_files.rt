// The files of journals that are only read, by their names.
ghost use Rattle.std.specs.Prelude.{◌≡◌, ℕ, List, Option, IfErr, IfOk};
ghost use Rattle.dali_link_commands.specs.OrdersAnswers.{IsUnopened};

use crate::older::OlderFault;
use crate::problem::{Problem, refusal_of};
use crate::words::system_words;
use dali_input::Fault;
use dali_store::{ReadFile, Store};
use std::fs::{File, TryLockError};
use std::io::ErrorKind;
use std::{fs, io};

/// The files of journals that are only read, by their names (profile).
pub trait JournalFiles {
    type Opened: Store + Drop;

    /// The contents of the file of this name, if they are known.
    ghost has: { Self → List ℕ → Option (List ℕ) };

    /// Opens the file of an older journal, which no drive may open as long as it is open here.
    fn open_older(&self, name: &str) -> Result<Self::Opened, Problem>
        ensures ok { IfOk result (λ store. Self.Opened.seen store ≡ has self.now name.now) }
        ensures err { IfErr result (λ problem. IsUnopened problem.fault) };

    /// Opens the file of a journal that is asked, which a drive may have open.
    fn open_asked(&self, name: &str) -> Result<Self::Opened, Problem>
        ensures { IfOk result (λ store. Self.Opened.seen store ≡ has self.now name.now) };
}

impl JournalFiles for HostRuntime {
    ghost use Rattle.std.specs.Prelude.{None};

    type Opened = ReadFile;

    // no contract tells what a file holds
    ghost has = { λ _ _. None };

    fn open_older(&self, name: &str) -> Result<ReadFile, Problem> {
        match opened_alone(self, name) {
            Ok(file) => Ok(ReadFile::new(self.alloc(), file)),
            Err(error) => {
                let fault = OlderFault::Unloaded(Fault::Input(refusal_of(&error)));
                let words = system_words(self.alloc(), &error);
                Err(Problem::older(self.alloc(), name, fault, words.as_deref()))
            }
        }
    }

    fn open_asked(&self, name: &str) -> Result<ReadFile, Problem> {
        match opened_regular(self, name) {
            Ok(file) => Ok(ReadFile::new(self.alloc(), file)),
            Err(error) => {
                let fault = Fault::Input(refusal_of(&error));
                let words = system_words(self.alloc(), &error);
                Err(Problem::unasked(self.alloc(), name, fault, words.as_deref()))
            }
        }
    }
}

// Opens a file that no drive has: its orders wouldn't all be there yet.
fn opened_alone(rt: &HostRuntime, name: &str) -> io::Result<File> {
    let file = opened_regular(rt, name)?;
    match file.try_lock_shared() {
        Ok(()) => Ok(file),
        Err(TryLockError::WouldBlock) => {
            Err(io::Error::new(ErrorKind::WouldBlock, "it is in use"))
        }
        Err(TryLockError::Error(error)) => Err(error),
    }
}

// Opens a regular file: nobody knows when a pipe ends.
fn opened_regular(rt: &HostRuntime, name: &str) -> io::Result<File> {
    if !fs::metadata(rt, name)?.is_file() {
        return Err(io::Error::new(ErrorKind::InvalidInput, "it is no regular file"));
    }
    fs::open(rt, name)
}
