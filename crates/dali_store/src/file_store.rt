// A file as a store. No contract tells of a real file: its bytes aren't known, and that these calls do what a store's
// do is trusted.
ghost use Rattle.std.specs.Prelude.{Bool, List, ℕ, ◌≡◌, ◌||◌, not, false, true};
ghost use Rattle.dali_store.specs.Files.{IsIn, has_failed, is_made, is_of_journal};

use crate::files::{Hindrance, unopened};
use crate::journal_file::JournalFile;
use crate::store::{Store, StoreFault};
use crate::text_file::put_text;
use std::alloc::Global;
use std::fs::{File, Files, Metadata};

/// The file of a journal or of a text as a store (profile).
///
/// A journal is a regular file: what is none, as a named pipe or a terminal, is refused, and so is the name `-`. A text
/// takes the place of the text of a bank or of no file, and is written into what is no regular file, as a terminal; any
/// other regular file, a folder and a named pipe are refused.
#[derive(Drop)]
pub struct FileStore<'a, R> {
    rt: &'a R,
    name: &'a str,
    kind: Kind,
    failed: bool,
    // The first failure, in words for a person, if there was memory for them.
    cause: Option<String>,
}

#[derive(Drop)]
enum Kind {
    Journal(JournalFile),
    Text,
}

impl<'a, R: Files<File = File> + AllocGlobal> FileStore<'a, R> {
    /// The store in the file of a journal, of this name. The first call has to be `read`, which opens the file, made if
    /// there is none, and locks it for as long as the store lasts; any other fails before it.
    pub fn journal(rt: &'a R, name: &'a str) -> FileStore<'a, R>
        ensures { IsIn true true name.now result }
    {
        FileStore::of_kind(rt, name, Kind::Journal(JournalFile::new(true)))
    }

    /// The same, of a file that is there and has a byte: if there is none, `read` makes none and fails.
    pub fn found_journal(rt: &'a R, name: &'a str) -> FileStore<'a, R>
        ensures { IsIn true false name.now result }
    {
        FileStore::of_kind(rt, name, Kind::Journal(JournalFile::new(false)))
    }

    /// The store in the file of a text, of this name. It is only ever replaced, and needn't exist; any other call
    /// fails.
    pub fn text(rt: &'a R, name: &'a str) -> FileStore<'a, R>
        ensures { IsIn false true name.now result }
    {
        FileStore::of_kind(rt, name, Kind::Text)
    }

    fn of_kind(rt: &'a R, name: &'a str, kind: Kind) -> FileStore<'a, R>
        ensures { IsIn (is_of_journal kind) (is_made kind) name.now result }
    {
        FileStore {
            rt,
            name,
            kind,
            failed: false,
            cause: None,
        }
    }

    /// Says in which file the orders are: the journal that `read` opens can't be that one. It has to stay open until
    /// then, since its number is given to another file once it is gone. A text stays as it is.
    pub fn set_orders(&mut self, orders: &Metadata)
        ensures same { (journal made : Bool) (name : List ℕ)
            → IsIn journal made name self.old → IsIn journal made name self.new }
        ensures failed { has_failed self.new ≡ has_failed self.old }
    {
        if let Kind::Journal(file) = &mut self.kind {
            file.set_orders(orders);
        }
    }

    // Notes a failure, and the words of the first one.
    fn note(&mut self, hindrance: Hindrance)
        ensures { self.new.failed ≡ true }
    {
        if let (false, Hindrance::Failed(words)) = (self.failed, hindrance) {
            self.cause = words;
        }
        self.failed = true;
    }

    // Whether a call has done what was asked. Its failure is noted.
    fn is_done(&mut self, ended: Result<(), Hindrance>) -> bool
        ensures { self.new.failed ≡ (self.old.failed || not result) }
    {
        match ended {
            Ok(()) => true,
            Err(hindrance) => {
                self.note(hindrance);
                false
            }
        }
    }
}

impl<'a, R: Files<File = File> + AllocGlobal> Store for FileStore<'a, R> {
    ghost use Rattle.std.specs.Prelude.{None, ⊤};

    ghost seen = { λ s. None };

    ghost may_leave = { λ s c. ⊤ };

    ghost moment = { λ s. 0 };

    ghost left_since = { λ s t c. ⊤ };

    ghost failed = { λ s. s.failed };

    ghost counts_now = { λ s t c le may. tt };

    ghost leaves_what_is_seen = { λ s c is. tt };

    ghost only_now = { λ s c left. tt };

    fn read(&mut self, alloc: Global, limit: usize) -> Result<Vec<u8>, StoreFault> {
        let ended = match &mut self.kind {
            Kind::Journal(file) => file.read(self.rt, alloc, self.name, limit),
            Kind::Text => Err(unopened(alloc, self.name)),
        };
        match ended {
            Ok(bytes) => Ok(bytes),
            Err(Hindrance::TooBig) => Err(StoreFault::TooBig),
            Err(Hindrance::NoMemory) => Err(StoreFault::NoMemory),
            Err(hindrance) => {
                self.note(hindrance);
                Err(StoreFault::Failed)
            }
        }
    }

    fn append(&mut self, bytes: &[u8]) -> Option<usize> {
        let alloc = self.rt.alloc();
        let ended = match &mut self.kind {
            Kind::Journal(file) => file.append(alloc, self.name, bytes),
            Kind::Text => Err(unopened(alloc, self.name)),
        };
        match ended {
            Ok(count) => Some(count),
            Err(hindrance) => {
                self.note(hindrance);
                None
            }
        }
    }

    fn cut(&mut self, len: usize) -> bool {
        let alloc = self.rt.alloc();
        let ended = match &mut self.kind {
            Kind::Journal(file) => file.cut(alloc, self.name, len),
            Kind::Text => Err(unopened(alloc, self.name)),
        };
        self.is_done(ended)
    }

    fn replace(&mut self, bytes: &[u8]) -> bool {
        let ended = match &mut self.kind {
            Kind::Journal(file) => file.replace(self.rt, self.name, bytes),
            Kind::Text => put_text(self.rt, self.name, bytes),
        };
        self.is_done(ended)
    }

    fn sync(&mut self) -> bool {
        let alloc = self.rt.alloc();
        let ended = match &mut self.kind {
            Kind::Journal(file) => file.sync(alloc, self.name),
            Kind::Text => Err(unopened(alloc, self.name)),
        };
        self.is_done(ended)
    }

    fn has_failed(&self) -> bool {
        self.failed
    }

    fn cause(&self) -> Option<&str> {
        match &self.cause {
            Some(words) if self.failed => Some(words.as_str()),
            _ => None,
        }
    }
}
