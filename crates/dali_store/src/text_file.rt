// The file of a unit's text, which is only ever replaced as a whole. No contract tells of a real file: this is trusted.
use crate::files::{Hindrance, given, read_up_to, refused, unusable};
use crate::new_file::{Writer, successor};
use crate::place::{names_at, names_of, place_at, sync_folder};
use std::alloc::Global;
use std::fs::{File, Files, OpenOptions};
use std::io::{ErrorKind, Write};
use std::os::unix::fs::FileTypeExt;
use std::path::Path;
use std::{fs, io};

// The most bytes of a text that `show` reads.
const MOST_TEXT: usize = 4096;

// Has a new file with these bytes take the place of a regular one, or of none. A regular one that is no text is left
// alone: it may be a journal. A file that isn't regular is written to.
pub(crate) fn put_text<R: Files<File = File> + AllocGlobal>(
    rt: &R,
    name: &str,
    bytes: &[u8],
) -> Result<(), Hindrance> {
    let alloc = rt.alloc();
    let (names, found) = match fs::metadata(rt, name) {
        Ok(found) if found.is_file() => {
            let mut file = given(alloc, name, fs::open(rt, name))?;
            if !is_part_of_text(alloc, name, &mut file)? {
                return Err(refused(alloc, "what is there is no text of a bank", name));
            }
            (names_of(rt, alloc, name), Some(found))
        }
        Ok(found) if found.file_type().is_fifo() => {
            return Err(refused(alloc, "HEXFILE is a named pipe", name));
        }
        Ok(_) => return given(alloc, name, write_to(rt, name, bytes)),
        Err(error) if error.kind() == ErrorKind::NotFound && !name.is_empty() => {
            (names_at(alloc, Path::new(name)), None)
        }
        Err(cause) => return Err(unusable(alloc, name, cause)),
    };
    let place = place_at(rt, alloc, given(alloc, name, names)?, found)?;
    let _file = successor(rt, &place, bytes, Writer::Reading)?;
    sync_folder(alloc, &place)
}

fn write_to<R: Files<File = File>>(rt: &R, name: &str, bytes: &[u8]) -> io::Result<()> {
    OpenOptions::new()
        .write(true)
        .open(rt, name)?
        .write_all(bytes)
}

// Whether all that a file gives from here on may be a part of a bank's text.
pub(crate) fn is_part_of_text(
    alloc: Global,
    name: &str,
    file: &mut File,
) -> Result<bool, Hindrance> {
    match read_up_to(alloc, name, file, MOST_TEXT) {
        Ok(held) => Ok(is_text(held.as_slice())),
        Err(Hindrance::TooBig) => Ok(false),
        Err(hindrance) => Err(hindrance),
    }
}

// Whether these are hexadecimal digits and what may set them apart.
fn is_text(bytes: &[u8]) -> bool {
    bytes.iter().all(|byte| byte.is_ascii_hexdigit()
        || matches!(byte, b' ' | b'\t' | b'\n' | b'\r'))
}
