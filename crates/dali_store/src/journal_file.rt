// The file of a journal. No contract tells of a real file: its bytes aren't known.
ghost use Rattle.std.specs.Prelude.{◌≡◌, ◌<◌, ◌≤◌, IfOk, length};

use crate::files::{Hindrance, given, lock, read_up_to, refused, unopened, unusable};
use crate::new_file::{Writer, successor};
use crate::place::{FileId, Place, id_of, opened_or_made, place_of, sync_folder};
use std::alloc::Global;
use std::fs::{File, Files, Metadata, OpenOptions};
use std::io;
use std::io::{ErrorKind, Seek, SeekFrom, Write};
use std::os::unix::fs::FileTypeExt;

// The file of a journal: `read` opens it, made if there is none or not, and locks it for as long as this lasts. Any
// other call fails before that.
pub(crate) struct JournalFile {
    // The file of the orders, if one is known: the journal can't be that one.
    orders: Option<FileId>,
    // Whether it is made if there is none.
    is_made: bool,
    opened: Option<Opened>,
}

// Called wherever one goes: what is derived would be written out at each such place.
impl Drop for JournalFile {
    fn drop(self) {
        let JournalFile {
            orders: _,
            is_made: _,
            opened: _,
        } = self;
    }
}

struct Opened {
    file: File,
    place: Place,
    // Whether its length and its name are on the disk, so that of what is appended only the data has to be synced.
    is_settled: bool,
}

// Called wherever one goes: what is derived would be written out at each such place.
impl Drop for Opened {
    fn drop(self) {
        let Opened {
            file: _,
            place: _,
            is_settled: _,
        } = self;
    }
}

impl JournalFile {
    pub(crate) fn new(is_made: bool) -> JournalFile
        ensures { result.is_made ≡ is_made }
    {
        JournalFile {
            orders: None,
            is_made,
            opened: None,
        }
    }

    pub(crate) fn set_orders(&mut self, orders: &Metadata)
        ensures { self.new.is_made ≡ self.old.is_made }
    {
        self.orders = Some(id_of(orders));
    }

    // Opens the file if it isn't open yet, and reads all its bytes, if they are no more than the limit.
    pub(crate) fn read<R: Files<File = File>>(
        &mut self,
        rt: &R,
        alloc: Global,
        name: &str,
        limit: usize,
    ) -> Result<Vec<u8>, Hindrance>
        ensures { IfOk result (λ bytes. length bytes.items ≤ limit) }
    {
        match &mut self.opened {
            Some(opened) => {
                given(alloc, name, opened.file.seek(SeekFrom::Start(0)))?;
                read_up_to(alloc, name, &mut opened.file, limit)
            }
            None => {
                let mut fresh = open(rt, alloc, name, self.orders, self.is_made)?;
                let bytes = read_up_to(alloc, name, &mut fresh.file, limit)?;
                self.opened = Some(fresh);
                Ok(bytes)
            }
        }
    }

    // Appends some of the bytes, at least one.
    pub(crate) fn append(
        &mut self,
        alloc: Global,
        name: &str,
        bytes: &[u8],
    ) -> Result<usize, Hindrance>
        ensures { IfOk result (λ count. (0 < count) × (count ≤ length bytes.now)) }
    {
        let Some(opened) = &mut self.opened else {
            return Err(unopened(alloc, name));
        };
        let mut cause = ErrorKind::Interrupted;
        for _ in 0..u64::MAX {
            cause = match opened.file.write(bytes) {
                Ok(0) => ErrorKind::WriteZero,
                Ok(count) => return Ok(count),
                Err(error) => error.kind(),
            };
            if cause != ErrorKind::Interrupted {
                break;
            }
        }
        Err(unusable(alloc, name, io::Error::from(cause)))
    }

    pub(crate) fn cut(&mut self, alloc: Global, name: &str, len: usize) -> Result<(), Hindrance> {
        match &mut self.opened {
            Some(opened) => given(alloc, name, opened.file.set_len(len as u64)),
            None => Err(unopened(alloc, name)),
        }
    }

    // Has a new file with these bytes take the place of the file.
    pub(crate) fn replace<R: Files<File = File> + AllocGlobal>(
        &mut self,
        rt: &R,
        name: &str,
        bytes: &[u8],
    ) -> Result<(), Hindrance> {
        let alloc = rt.alloc();
        let Some(opened) = &mut self.opened else {
            return Err(unopened(alloc, name));
        };
        let file = successor(rt, &opened.place, bytes, Writer::Drive)?;
        opened.file = file;
        opened.is_settled = false;
        sync_folder(alloc, &opened.place)?;
        opened.is_settled = true;
        Ok(())
    }

    // Waits until the file is on the disk, at first with its length and its name.
    pub(crate) fn sync(&mut self, alloc: Global, name: &str) -> Result<(), Hindrance> {
        let Some(opened) = &mut self.opened else {
            return Err(unopened(alloc, name));
        };
        if opened.is_settled {
            return given(alloc, name, opened.file.sync_data());
        }
        given(alloc, name, opened.file.sync_all())?;
        sync_folder(alloc, &opened.place)?;
        opened.is_settled = true;
        Ok(())
    }
}

// Opens a file to read it and to append to it, made if there is none or not, and locks it.
fn open<R: Files<File = File>>(
    rt: &R,
    alloc: Global,
    name: &str,
    orders: Option<FileId>,
    is_made: bool,
) -> Result<Opened, Hindrance> {
    if name == "-" {
        return Err(refused(alloc, "the journal has to be a file, and no stream", name));
    }
    let mut how = OpenOptions::new();
    how.read(true).append(true);
    let file = if is_made {
        opened_or_made(rt, alloc, name, how.create(true))?
    } else {
        opened_as_it_is(rt, alloc, name, &how)?
    };
    let found = given(alloc, name, file.metadata())?;
    if !found.is_file() {
        return Err(refused(alloc, irregular(&found), name));
    }
    if orders == Some(id_of(&found)) {
        return Err(refused(alloc, "ORDERS and JOURNAL are one file", name));
    }
    if !is_made && found.len() == 0 {
        return Err(refused(
            alloc,
            "the journal has no byte, and none is to be made",
            name,
        ));
    }
    lock(alloc, &file, name, Writer::Drive)?;
    let place = place_of(rt, alloc, name, found)?;
    Ok(Opened {
        file,
        place,
        is_settled: false,
    })
}

// Opens a file that has to be there.
fn opened_as_it_is<R: Files<File = File>>(
    rt: &R,
    alloc: Global,
    name: &str,
    how: &OpenOptions,
) -> Result<File, Hindrance> {
    match how.open(rt, name) {
        Ok(file) => Ok(file),
        Err(cause) if cause.kind() == ErrorKind::NotFound => {
            Err(refused(alloc, "there is no journal, and none is to be made", name))
        }
        Err(cause) => Err(unusable(alloc, name, cause)),
    }
}

// Why what is no regular file can't be a journal.
fn irregular(found: &Metadata) -> &'static str {
    let kind = found.file_type();
    if kind.is_fifo() {
        "the journal is a named pipe"
    } else if kind.is_char_device() {
        "the journal is a character device"
    } else {
        "the journal is no regular file"
    }
}
