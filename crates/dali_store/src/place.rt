// The place of a file that another may replace. No contract tells of a real file: this is trusted.
use crate::files::{Hindrance, given, refused, unusable};
use crate::new_file::Writer;
use std::alloc::{AllocError, Global};
use std::fs::{File, Files, Metadata, OpenOptions};
use std::io::ErrorKind;
use std::os::unix::fs::MetadataExt;
use std::path::Path;
use std::{fs, io};

// Which file it is, by whatever name.
#[derive(Clone, Copy, PartialEq, Eq)]
pub(crate) struct FileId {
    dev: u64,
    ino: u64,
}

// The place of a regular file, by its canonical name, its folder, and how it was found there, or if there is none yet.
pub(crate) struct Place {
    pub(crate) found: Option<Metadata>,
    pub(crate) names: Names,
    folder: File,
}

// Called wherever one goes: what is derived would be written out at each such place.
impl Drop for Place {
    fn drop(self) {
        let Place {
            found: _,
            names: _,
            folder: _,
        } = self;
    }
}

// The canonical name of a file, that of the file which may take its place, and that of its folder.
pub(crate) struct Names {
    pub(crate) name: String,
    pub(crate) new_name: String,
    folder: String,
}

// Called wherever one goes: what is derived would be written out at each such place.
impl Drop for Names {
    fn drop(self) {
        let Names {
            name: _,
            new_name: _,
            folder: _,
        } = self;
    }
}

pub(crate) fn id_of(found: &Metadata) -> FileId {
    FileId {
        dev: found.dev(),
        ino: found.ino(),
    }
}

// The place of a locked file. The name has to mean it still: another drive may have replaced it before the lock.
pub(crate) fn place_of<R: Files<File = File>>(
    rt: &R,
    alloc: Global,
    name: &str,
    found: Metadata,
) -> Result<Place, Hindrance> {
    let names = given(alloc, name, names_of(rt, alloc, name))?;
    let named = given(alloc, name, fs::metadata(rt, names.name.as_str()))?;
    if id_of(&named) != id_of(&found) {
        return Err(refused(alloc, Writer::Drive.in_use(), name));
    }
    place_at(rt, alloc, names, Some(found))
}

// The place with these names, whose folder is opened.
pub(crate) fn place_at<R: Files<File = File>>(
    rt: &R,
    alloc: Global,
    names: Names,
    found: Option<Metadata>,
) -> Result<Place, Hindrance> {
    let folder = fs::open(rt, names.folder.as_str());
    let folder = given(alloc, names.folder.as_str(), folder)?;
    Ok(Place {
        found,
        names,
        folder,
    })
}

// The names of the place of a file.
pub(crate) fn names_of<R: Files<File = File>>(
    rt: &R,
    alloc: Global,
    name: &str,
) -> io::Result<Names> {
    let path = rt.canonicalize(alloc, name)?;
    names_at(alloc, path.as_path())
}

// The same of a path as given, if no file needs to be there.
pub(crate) fn names_at(alloc: Global, path: Path<'_>) -> io::Result<Names> {
    let shown = path.display();
    let folder = folder_of(alloc, path)?;
    let name = format!(in alloc; "{shown}")?;
    Ok(Names {
        name,
        new_name: format!(in alloc; "{shown}.new")?,
        folder,
    })
}

// The name of the folder of a path.
fn folder_of(alloc: Global, path: Path<'_>) -> Result<String, AllocError> {
    match path.parent() {
        Some(folder) if folder.as_str().is_empty() => format!(in alloc; "."),
        Some(folder) => format!(in alloc; "{}", folder.display()),
        None => format!(in alloc; "/"),
    }
}

// Opens a file so that it is made if there is none. If the folder lets none be made, that is reported.
pub(crate) fn opened_or_made<R: Files<File = File>>(
    rt: &R,
    alloc: Global,
    name: &str,
    how: &OpenOptions,
) -> Result<File, Hindrance> {
    match how.open(rt, name) {
        Ok(file) => Ok(file),
        Err(cause) if cause.kind() == ErrorKind::PermissionDenied && is_absent(rt, name) => {
            Err(unmade(alloc, name, cause))
        }
        Err(cause) => Err(unusable(alloc, name, cause)),
    }
}

fn is_absent<R: Files<File = File>>(rt: &R, name: &str) -> bool {
    match fs::symlink_metadata(rt, name) {
        Ok(_) => false,
        Err(error) => error.kind() == ErrorKind::NotFound,
    }
}

// Why the folder of a name lets no file be made.
fn unmade(alloc: Global, name: &str, cause: io::Error) -> Hindrance {
    match folder_of(alloc, Path::new(name)) {
        Ok(folder) => Hindrance::Failed(format!(in alloc;
            "no file can be made in the folder: {folder}: {cause}"
        ).ok()),
        Err(_) => Hindrance::NoMemory,
    }
}

pub(crate) fn sync_folder(alloc: Global, place: &Place) -> Result<(), Hindrance> {
    given(alloc, place.names.folder.as_str(), place.folder.sync_all())
}
