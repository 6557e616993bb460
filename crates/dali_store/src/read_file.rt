// The file of a journal that is only read, as a store. No contract tells of a real file: its bytes aren't known, and
// that these calls do what a store's do is trusted.
ghost use Rattle.std.specs.Prelude.{◌≡◌, ◌≤◌, IfOk, IfSome, length, true};

use crate::files::bytes_up_to;
use crate::store::{Store, StoreFault};
use std::alloc::Global;
use std::fs::File;
use std::io;
use std::io::{ErrorKind, Read, Seek, SeekFrom};

/// The file of a journal that is only read, as a store (profile): its calls are `read` and `sync`, and any other fails.
/// Its cause is the system's word.
#[derive(Drop)]
pub struct ReadFile {
    alloc: Global,
    file: File,
    failed: bool,
    // The first failure, in words for a person, if there was memory for them.
    cause: Option<String>,
}

impl ReadFile {
    /// The store in a file that is open to be read.
    pub fn new(alloc: Global, file: File) -> ReadFile {
        ReadFile {
            alloc,
            file,
            failed: false,
            cause: None,
        }
    }

    // Notes a failure, and the words of the first one.
    fn note(&mut self, cause: &io::Error)
        ensures { self.new.failed ≡ true }
    {
        if !self.failed {
            self.cause = format!(in self.alloc; "{cause}").ok();
        }
        self.failed = true;
    }

    // A call that a file has not which is only read.
    fn refuse(&mut self)
        ensures { self.new.failed ≡ true }
    {
        self.note(&io::Error::from(ErrorKind::PermissionDenied));
    }

    // All the bytes of the file, or none if they are more than the limit.
    fn bytes(&mut self, alloc: Global, limit: usize) -> io::Result<Option<Vec<u8>>>
        ensures within { IfOk result (λ found. IfSome found (λ bytes. length bytes.items ≤ limit)) }
        ensures failed { self.new.failed ≡ self.old.failed }
    {
        self.file.seek(SeekFrom::Start(0))?;
        bytes_up_to(alloc, &mut self.file, limit)
    }
}

impl Store for ReadFile {
    ghost use Rattle.std.specs.Prelude.{None, ⊤};

    ghost seen = { λ s. None };

    ghost may_leave = { λ s c. ⊤ };

    ghost moment = { λ s. 0 };

    ghost left_since = { λ s t c. ⊤ };

    ghost failed = { λ s. s.failed };

    ghost counts_now = { λ s t c le may. tt };

    ghost leaves_what_is_seen = { λ s c is. tt };

    ghost only_now = { λ s c left. tt };

    fn read(&mut self, alloc: Global, limit: usize) -> Result<Vec<u8>, StoreFault> {
        match self.bytes(alloc, limit) {
            Ok(Some(bytes)) => Ok(bytes),
            Ok(None) => Err(StoreFault::TooBig),
            Err(cause) if cause.kind() == ErrorKind::OutOfMemory => Err(StoreFault::NoMemory),
            Err(cause) => {
                self.note(&cause);
                Err(StoreFault::Failed)
            }
        }
    }

    fn append(&mut self, _bytes: &[u8]) -> Option<usize> {
        self.refuse();
        None
    }

    fn cut(&mut self, _len: usize) -> bool {
        self.refuse();
        false
    }

    fn replace(&mut self, _bytes: &[u8]) -> bool {
        self.refuse();
        false
    }

    fn sync(&mut self) -> bool {
        match settle_read(&self.file) {
            Ok(()) => true,
            Err(cause) => {
                self.note(&cause);
                false
            }
        }
    }

    fn has_failed(&self) -> bool {
        self.failed
    }

    fn cause(&self) -> Option<&str> {
        match &self.cause {
            Some(words) if self.failed => Some(words.as_str()),
            _ => None,
        }
    }
}

/// Waits until the bytes that a file gives are on the disk (profile). A file that can't be synced, such as a pipe or
/// one on a read-only disk, has nothing to lose.
pub fn settle_read(file: &File) -> io::Result<()> {
    match file.sync_all() {
        Err(cause)
            if matches!(
                cause.kind(),
                ErrorKind::InvalidInput | ErrorKind::ReadOnlyFilesystem
            ) => Ok(()),
        ended => ended,
    }
}
