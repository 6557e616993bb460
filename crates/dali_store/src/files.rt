// The shared parts of the calls on the files of a store: why one fails, a lock, all bytes of a file.
ghost use Rattle.std.specs.Prelude.{◌≡◌, ◌≤◌, IfOk, IfSome, Ok, length};

use crate::new_file::Writer;
use std::alloc::Global;
use std::fs::{File, TryLockError};
use std::io;
use std::io::{ErrorKind, Read};

// How many bytes are read at a time.
const CHUNK: usize = 65536;

// The system's number if the program may open no more files.
const TOO_MANY_FILES: i32 = 24;

// Why a call doesn't do what is asked: with the words for a person, if it fails.
#[derive(Drop)]
pub(crate) enum Hindrance {
    Failed(Option<String>),
    TooBig,
    NoMemory,
}

// The meaning of a failure of the system for a file.
pub(crate) fn unusable(alloc: Global, name: &str, cause: io::Error) -> Hindrance {
    if cause.kind() == ErrorKind::OutOfMemory {
        return Hindrance::NoMemory;
    }
    let advice = advice(&cause);
    Hindrance::Failed(format!(in alloc; "the file can't be used: {name}: {cause}{advice}").ok())
}

/// The advice on a failure of the system, after its words: none, unless too many files are open.
pub fn advice(cause: &io::Error) -> &'static str {
    match cause.raw_os_error() {
        Some(TOO_MANY_FILES) => ": raise the limit, as by ulimit -n 1024",
        _ => "",
    }
}

pub(crate) fn refused(alloc: Global, why: &str, name: &str) -> Hindrance {
    Hindrance::Failed(format!(in alloc; "{why}: {name}").ok())
}

// The result that the system gives, or the meaning of its failure for a file.
pub(crate) fn given<T: Drop>(
    alloc: Global,
    name: &str,
    ended: io::Result<T>,
) -> Result<T, Hindrance>
    ensures { IfOk result (λ value. ended ≡ Ok value) }
{
    match ended {
        Ok(value) => Ok(value),
        Err(cause) => Err(unusable(alloc, name, cause)),
    }
}

pub(crate) fn unopened(alloc: Global, name: &str) -> Hindrance {
    refused(alloc, "the file isn't open", name)
}

pub(crate) fn lock(
    alloc: Global,
    file: &File,
    name: &str,
    writer: Writer,
) -> Result<(), Hindrance> {
    match file.try_lock() {
        Ok(()) => Ok(()),
        Err(TryLockError::WouldBlock) => Err(refused(alloc, writer.in_use(), name)),
        Err(TryLockError::Error(cause)) => Err(unusable(alloc, name, cause)),
    }
}

// All the bytes that a file gives from here on, or none if there are more than the limit.
pub(crate) fn bytes_up_to(
    alloc: Global,
    file: &mut File,
    limit: usize,
) -> io::Result<Option<Vec<u8>>>
    ensures { IfOk result (λ found. IfSome found (λ bytes. length bytes.items ≤ limit)) }
{
    let mut bytes = Vec::new(alloc);
    let mut piece = [0u8; CHUNK];
    for _ in 0..u64::MAX {
        match file.read(&mut piece) {
            Ok(0) => break,
            Ok(count) if count > limit - bytes.len() => return Ok(None),
            Ok(count) => bytes.extend_from_slice(&piece[..count])?,
            Err(error) if error.kind() == ErrorKind::Interrupted => {}
            Err(error) => return Err(error),
        }
    }
    Ok(Some(bytes))
}

// The same of the file of this name, with the words for a person if that fails.
pub(crate) fn read_up_to(
    alloc: Global,
    name: &str,
    file: &mut File,
    limit: usize,
) -> Result<Vec<u8>, Hindrance>
    ensures { IfOk result (λ bytes. length bytes.items ≤ limit) }
{
    match given(alloc, name, bytes_up_to(alloc, file, limit))? {
        Some(bytes) => Ok(bytes),
        None => Err(Hindrance::TooBig),
    }
}
