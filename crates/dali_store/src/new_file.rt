// The new file that takes the place of a journal or a text, beside it. No contract tells of a real file: this is
// trusted.
use crate::files::{Hindrance, given, lock, refused, unusable};
use crate::place::{Place, id_of, opened_or_made};
use crate::text_file::is_part_of_text;
use std::alloc::Global;
use std::fs::{File, Files, Metadata, OpenOptions};
use std::io::{ErrorKind, Read, Write};
use std::os::unix::fs::MetadataExt;
use std::{fs, io};

// How many bytes are read at a time.
const CHUNK: usize = 65536;

// The writer of a file.
#[derive(Clone, Copy)]
pub(crate) enum Writer {
    // A drive, its journal.
    Drive,
    // A reading of a unit, its text.
    Reading,
}

impl Writer {
    // Why a file is refused that is locked.
    pub(crate) fn in_use(self) -> &'static str {
        match self {
            Writer::Drive => "the journal is in use by another drive",
            Writer::Reading => "the file is in use by another reading of a unit",
        }
    }

    // Why what has the name of the new file is refused.
    fn foreign(self) -> &'static str {
        match self {
            Writer::Drive => "what stands in the way was not left by a drive of this journal",
            Writer::Reading => "what stands in the way was not left by a reading of a unit",
        }
    }
}

// A new file with these bytes, on the disk, which has taken the name of the old one. It is locked before that.
pub(crate) fn successor<R: Files<File = File> + AllocGlobal>(
    rt: &R,
    place: &Place,
    bytes: &[u8],
    writer: Writer,
) -> Result<File, Hindrance> {
    let mut file = new_file(rt, place.names.new_name.as_str(), bytes, writer)?;
    given(
        rt.alloc(),
        place.names.new_name.as_str(),
        fill(rt, place, &mut file, bytes),
    )?;
    Ok(file)
}

fn fill<R: Files<File = File>>(
    rt: &R,
    place: &Place,
    file: &mut File,
    bytes: &[u8],
) -> io::Result<()> {
    file.set_len(0)?;
    if let Some(found) = &place.found {
        file.set_permissions(found.permissions())?;
    }
    file.write_all(bytes)?;
    file.sync_all()?;
    fs::rename(rt, place.names.new_name.as_str(), place.names.name.as_str())
}

// The new file, locked, made if there is none.
fn new_file<R: Files<File = File> + AllocGlobal>(
    rt: &R,
    name: &str,
    bytes: &[u8],
    writer: Writer,
) -> Result<File, Hindrance> {
    let alloc = rt.alloc();
    let mut how = OpenOptions::new();
    how.read(true).append(true);
    match fs::symlink_metadata(rt, name) {
        Ok(found) if is_alone(&found) => {
            let mut file = given(alloc, name, how.open(rt, name))?;
            lock(alloc, &file, name, writer)?;
            if is_left(rt, name, &mut file, bytes, writer)? {
                Ok(file)
            } else {
                Err(refused(alloc, writer.foreign(), name))
            }
        }
        Ok(_) => Err(refused(alloc, writer.foreign(), name)),
        Err(error) if error.kind() == ErrorKind::NotFound => {
            let file = opened_or_made(rt, alloc, name, how.create_new(true))?;
            lock(alloc, &file, name, writer)?;
            Ok(file)
        }
        Err(cause) => Err(unusable(alloc, name, cause)),
    }
}

// Whether this is a regular file with one name.
fn is_alone(found: &Metadata) -> bool {
    found.is_file() && found.nlink() == 1
}

// Whether a locked file is what a writer left that was stopped: what the name means still, that alone, with a first
// part of these bytes where the writer is a drive, or of any text.
fn is_left<R: Files<File = File> + AllocGlobal>(
    rt: &R,
    name: &str,
    file: &mut File,
    bytes: &[u8],
    writer: Writer,
) -> Result<bool, Hindrance> {
    let alloc = rt.alloc();
    let named = given(alloc, name, fs::symlink_metadata(rt, name))?;
    if !is_alone(&named) || id_of(&named) != id_of(&given(alloc, name, file.metadata())?) {
        return Ok(false);
    }
    match writer {
        Writer::Drive => given(alloc, name, begins(file, bytes)),
        Writer::Reading => is_part_of_text(alloc, name, file),
    }
}

// Whether all that a file gives from here on is a first part of these bytes.
fn begins(file: &mut File, bytes: &[u8]) -> io::Result<bool> {
    let mut rest = bytes;
    let mut piece = [0u8; CHUNK];
    for _ in 0..u64::MAX {
        match file.read(&mut piece) {
            Ok(0) => return Ok(true),
            Ok(count) => {
                if count > rest.len() || rest[..count] != piece[..count] {
                    return Ok(false);
                }
                rest = &rest[count..];
            }
            Err(error) if error.kind() == ErrorKind::Interrupted => {}
            Err(cause) => return Err(cause),
        }
    }
    Ok(false)
}
