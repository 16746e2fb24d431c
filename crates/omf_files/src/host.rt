//! The files of the machine, and files that take the place of others when they are whole.
use crate::world::{FileId, Looked, PlaceKind, World};
use std::alloc::{AllocError, Global};
use std::fs::{self, File, Metadata, OpenOptions};
use std::io::{self, Error, ErrorKind, Read, Stdin, Stdout, Write};
use std::os::unix::fs::{MetadataExt, fchown};

/// How many names are tried for a file beside another.
const MOST_NAMES: u32 = 10_000;

/// A file that is written beside the one whose place it takes once it is whole; or where it stands, as a device or a
/// pipe. Dropped before that, it is removed.
pub struct NewFile<'a> {
    rt: &'a HostRuntime,
    file: File,
    // how many bytes were written to it
    written: u64,
    // the path at which it is written, where that isn't the one at which it is to stand
    beside: Option<String>,
}

/// Checks that a file is as long as what was written to it.
fn check_length(file: &File, written: u64) -> io::Result<()> {
    if file.metadata()?.len() == written {
        Ok(())
    } else {
        Err(Error::from(ErrorKind::WriteZero))
    }
}

impl NewFile<'_> {
    /// Closes it and puts it at a path, where it holds all that was written.
    fn keep(self, path: &str) -> io::Result<()> {
        let NewFile {
            rt,
            mut file,
            written,
            beside,
        } = self;
        let Some(beside) = beside else {
            return file.flush();
        };
        let whole = check_length(&file, written);
        drop(file);
        let kept = match whole {
            Ok(()) => put(rt, &beside, path),
            Err(error) => Err(error),
        };
        if kept.is_err() {
            // what can't be removed stays
            let _ = fs::remove_file(rt, &beside);
        }
        kept
    }
}

impl Drop for NewFile<'_> {
    fn drop(self) {
        let Self {
            rt,
            file: _,
            written: _,
            beside,
        } = self;
        if let Some(beside) = beside {
            // what can't be removed stays
            let _ = fs::remove_file(rt, &beside);
        }
    }
}

impl Write for NewFile<'_> {
    fn write(&mut self, buf: &[u8]) -> io::Result<usize> {
        let n = self.file.write(buf)?;
        self.written = self.written.saturating_add(n as u64);
        Ok(n)
    }

    fn flush(&mut self) -> io::Result<()> {
        self.file.flush()
    }
}

/// The path of the file with this number beside a file: `/`, `\` and `:` end the path of a folder. Where a system has
/// these in names the new name is another one in the same folder.
fn path_beside(alloc: Global, path: &str, number: u32) -> Result<String, AllocError> {
    let folder = path.trim_end_matches(|letter: char| !matches!(letter, '/' | '\\' | ':'));
    format!(in alloc; "{folder}omf-{number}.tmp")
}

/// A new file beside the one at this path, which isn't looked at.
fn create_beside<'a>(rt: &'a HostRuntime, path: &str) -> io::Result<NewFile<'a>> {
    for number in 0..MOST_NAMES {
        let beside = path_beside(rt.alloc(), path, number)?;
        match File::create_new(rt, &beside) {
            Ok(file) => {
                return Ok(NewFile {
                    rt,
                    file,
                    written: 0,
                    beside: Some(beside),
                });
            }
            Err(error) if error.kind() == ErrorKind::AlreadyExists => {}
            Err(error) => return Err(error),
        }
    }
    Err(Error::from(ErrorKind::AlreadyExists))
}

/// Makes a file one of the same owner, group and mode as an older one, on the same device.
fn make_alike(file: &File, older: &Metadata) -> io::Result<()> {
    let made = file.metadata()?;
    if made.dev() != older.dev() {
        return Err(Error::from(ErrorKind::CrossesDevices));
    }
    if made.uid() != older.uid() || made.gid() != older.gid() {
        fchown(file, Some(older.uid()), Some(older.gid()))?;
    }
    if made.mode() != older.mode() {
        file.set_permissions(older.permissions())?;
    }
    Ok(())
}

/// A new file that can take the place of an older one at this path. None where none can be made beside it that is like
/// it.
fn create_alike<'a>(
    rt: &'a HostRuntime,
    path: &str,
    older: &Metadata,
) -> io::Result<Option<NewFile<'a>>> {
    // a link is followed; what it leads to may have no path
    let Ok(target) = fs::canonicalize(rt, path) else {
        return Ok(None);
    };
    match create_beside(rt, target.as_str()) {
        Ok(made) => Ok(make_alike(&made.file, older).is_ok().then_some(made)),
        Err(error) if is_refused(error.kind()) => Ok(None),
        Err(error) => Err(error),
    }
}

/// Whether a file can't be made in a folder, though one that stands there may be written.
fn is_refused(kind: ErrorKind) -> bool {
    matches!(
        kind,
        ErrorKind::PermissionDenied | ErrorKind::ReadOnlyFilesystem | ErrorKind::InvalidFilename
    )
}

/// Whether a path is that of a file that this program has open already.
fn is_open_already(path: &str) -> bool {
    path.starts_with("/dev/std") || path.starts_with("/dev/fd/") || path.starts_with("/proc/")
}

/// A file in the place of the one that is open for writing, and stands at the path.
fn replace<'a>(rt: &'a HostRuntime, path: &str, file: File) -> io::Result<NewFile<'a>> {
    let older = file.metadata()?;
    if older.is_file() {
        if !is_open_already(path) {
            if let Some(made) = create_alike(rt, path, &older)? {
                return Ok(made);
            }
        }
        file.set_len(0)?;
    }
    Ok(NewFile {
        rt,
        file,
        written: 0,
        beside: None,
    })
}

/// The file at a path, open for writing, as it is. Where the path is a link that leads to nothing, the file that it
/// leads to is created. None where nothing is there.
fn open_older(rt: &HostRuntime, path: &str) -> io::Result<Option<File>> {
    match OpenOptions::new().write(true).open(rt, path) {
        Ok(file) => Ok(Some(file)),
        Err(error) if error.kind() != ErrorKind::NotFound => Err(error),
        Err(_) => match fs::symlink_metadata(rt, path) {
            Ok(link) if link.is_symlink() => Ok(Some(fs::create(rt, path)?)),
            _ => Ok(None),
        },
    }
}

/// A file that can be put at a path.
fn create<'a>(rt: &'a HostRuntime, path: &str) -> io::Result<NewFile<'a>> {
    match open_older(rt, path)? {
        Some(file) => replace(rt, path, file),
        None => create_beside(rt, path),
    }
}

/// Moves a file to a path. Where that is a link, to what it leads to.
fn put(rt: &HostRuntime, beside: &str, path: &str) -> io::Result<()> {
    match fs::canonicalize(rt, path) {
        Ok(target) => fs::rename(rt, beside, target.as_str()),
        Err(_) => fs::rename(rt, beside, path),
    }
}

/// What this is.
fn looked(found: &Metadata) -> Looked {
    let kind = if found.is_file() {
        PlaceKind::Regular
    } else if found.is_dir() {
        PlaceKind::Folder
    } else {
        PlaceKind::Other
    };
    Looked {
        kind,
        id: FileId {
            device: found.dev(),
            number: found.ino(),
        },
    }
}

impl<'a> World for &'a HostRuntime {
    type Input = File;

    type Created = NewFile<'a>;

    fn open(&self, path: &str) -> io::Result<File> {
        fs::open(*self, path)
    }

    fn look(&self, path: &str) -> io::Result<Looked> {
        Ok(looked(&fs::metadata(*self, path)?))
    }

    fn create(&self, path: &str) -> io::Result<NewFile<'a>> {
        create(*self, path)
    }

    fn keep(&self, file: NewFile<'a>, path: &str) -> io::Result<()> {
        file.keep(path)
    }
}
