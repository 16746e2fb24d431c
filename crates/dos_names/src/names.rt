//! The files of the machine by the names of a language of words.
ghost use Rattle.std.specs.Prelude.{◌≡◌, IfOk, false, string_bytes, true};

use crate::finding::path_meant;
use crate::folders::Folders;
use omf_files::{FileId, Looked, PlaceKind, StreamInput, StreamOutput, Streams, World};
use std::cell::Cell;
use std::io::{self, Error, ErrorKind, Read, Write};

/// What a run has seen of the machine's files: the one that was put at its path last, and the names of the folders that
/// were looked into since.
#[derive(Drop)]
pub struct Seen {
    written: Cell<Option<FileId>>,
    folders: Cell<Option<Folders>>,
}

impl Seen {
    /// Nothing.
    pub fn nothing() -> Seen {
        Seen {
            written: Cell::new(None),
            folders: Cell::new(None),
        }
    }
}

/// The files of the machine and the standard streams, whose paths are those of the machine or of DOS. No file takes the
/// place of the one that was written last, whatever the path that leads to it.
#[derive(Clone, Copy)]
pub struct Names<'a> {
    rt: &'a HostRuntime,
    are_of_dos: bool,
    seen: &'a Seen,
}

impl<'a> Names<'a> {
    /// Files of the program with this handle, by paths as the machine has them. `seen` is nothing, and keeps what is
    /// seen of them.
    pub fn of_machine(rt: &'a HostRuntime, seen: &'a Seen) -> Names<'a>
        ensures { result.are_of_dos ≡ false }
    {
        Names {
            rt,
            are_of_dos: false,
            seen,
        }
    }

    /// Files of the program with this handle, by paths as DOS has them: `\` parts folders as `/` does, and the case of
    /// letters doesn't count where nothing stands at a path as it is written.
    pub fn of_dos(rt: &'a HostRuntime, seen: &'a Seen) -> Names<'a>
        ensures { result.are_of_dos ≡ true }
    {
        Names {
            rt,
            are_of_dos: true,
            seen,
        }
    }

    /// The files by paths of the machine.
    fn files(&self) -> Streams<'a> {
        Streams::of(self.rt)
    }

    /// The path of the machine that is meant by one of DOS.
    fn path_of_dos(&self, path: &str) -> io::Result<String> {
        let seen = self.seen.folders.replace(None);
        let mut folders = seen.unwrap_or(Folders::new(self.rt.alloc()));
        let meant = path_meant(self.rt, &mut folders, path);
        self.seen.folders.set(Some(folders));
        meant
    }

    /// The path of the machine that is meant by one of these.
    fn path(&self, path: &str) -> io::Result<String>
        ensures { self.now.are_of_dos ≡ false → IfOk result (λ meant. string_bytes meant ≡ path.now) }
    {
        if self.are_of_dos {
            self.path_of_dos(path)
        } else {
            Ok(String::from_str(self.rt.alloc(), path)?)
        }
    }
}

impl Names<'_> {
    /// The file at a path of the machine, where it is a regular one.
    fn regular(&self, path: &str) -> Option<FileId> {
        match self.files().look(path) {
            Ok(found) if found.kind == PlaceKind::Regular => Some(found.id),
            _ => None,
        }
    }

    /// Whether the file that was written last stands at a path of the machine.
    fn was_written(&self, path: &str) -> bool {
        match (self.seen.written.get(), self.regular(path)) {
            (Some(written), Some(found)) => written == found,
            _ => false,
        }
    }
}

impl<'a> World for Names<'a> {
    type Input = StreamInput;

    type Created = StreamOutput<'a>;

    fn open(&self, path: &str) -> io::Result<StreamInput> {
        self.files().open(self.path(path)?.as_str())
    }

    fn look(&self, path: &str) -> io::Result<Looked> {
        self.files().look(self.path(path)?.as_str())
    }

    fn create(&self, path: &str) -> io::Result<StreamOutput<'a>> {
        let meant = self.path(path)?;
        if self.was_written(meant.as_str()) {
            return Err(Error::from(ErrorKind::AlreadyExists));
        }
        self.files().create(meant.as_str())
    }

    fn keep(&self, file: StreamOutput<'a>, path: &str) -> io::Result<()> {
        let meant = self.path(path)?;
        self.files().keep(file, meant.as_str())?;
        self.seen.written.set(self.regular(meant.as_str()));
        // a folder has one name more
        self.seen.folders.set(None);
        Ok(())
    }
}
