//! Why files aren't read.
ghost use Rattle.std.specs.Prelude.{◌≡◌};

use std::alloc::{AllocError, AllocFailed, Allocator};
use std::io::{self, ErrorKind};
use thiserror::Error;

/// Why a file isn't read.
#[derive(Clone, Copy, Debug, PartialEq, Eq, Error)]
pub enum ReadFault {
    /// There was no memory.
    #[error("out of memory")]
    Memory,
    /// Nothing stands at its path.
    #[error("no such file")]
    Absent,
    /// It is a folder.
    #[error("it is a folder")]
    Folder,
    /// It may not be opened.
    #[error("no permission")]
    Forbidden,
    /// Its path begins with a drive that isn't here.
    #[error("there is no such drive")]
    NoDrive,
    /// It is no regular file, where one is asked for.
    #[error("it is no regular file")]
    Special,
    /// It can't be opened for another reason of the system's.
    #[error("{0}")]
    Unopened(ErrorKind),
    /// A read failed.
    #[error("{0}")]
    Device(ErrorKind),
}

impl ReadFault {
    /// Why a file isn't opened, where opening it or looking at it answered this.
    pub(crate) fn of_opening(error: &io::Error) -> ReadFault {
        match error.kind() {
            ErrorKind::OutOfMemory => ReadFault::Memory,
            ErrorKind::NotFound | ErrorKind::NotADirectory => ReadFault::Absent,
            ErrorKind::IsADirectory => ReadFault::Folder,
            ErrorKind::PermissionDenied => ReadFault::Forbidden,
            // no call for a file answers it, but names of DOS do
            ErrorKind::AddrNotAvailable => ReadFault::NoDrive,
            kind => ReadFault::Unopened(kind),
        }
    }

    /// Why a file isn't read, where reading it answered this.
    pub(crate) fn of_reading(error: &io::Error) -> ReadFault {
        match error.kind() {
            ErrorKind::OutOfMemory => ReadFault::Memory,
            ErrorKind::IsADirectory => ReadFault::Folder,
            kind => ReadFault::Device(kind),
        }
    }
}

impl From<AllocError> for ReadFault {
    ghost use Rattle.doslink_files.specs.declared.fault.ReadFault.TheVariants.{Memory};

    ghost from_gives = { λ _ e. e ≡ Memory };

    fn from(_error: AllocError) -> ReadFault {
        ReadFault::Memory
    }
}

/// A file that isn't read, and why.
#[derive(Clone, Copy, Debug, PartialEq, Eq)]
pub struct Unread<'a> {
    /// The path of the file, or the name of the library.
    pub name: &'a str,
    /// Why it isn't read.
    pub fault: ReadFault,
}

/// Why some files aren't read.
#[derive(Debug, Drop)]
pub enum FilesFault<'a, A: Allocator> {
    /// There was no memory.
    Memory,
    /// These can't be opened or read: at least one, in their order.
    Unread(Vec<Unread<'a>, A>),
}

impl<A: Allocator> From<AllocError> for FilesFault<'_, A> {
    ghost use Rattle.doslink_files.specs.declared.fault.FilesFault.TheVariants.{Memory};

    ghost from_gives = { λ _ e. e ≡ Memory };

    fn from(_error: AllocError) -> Self {
        FilesFault::Memory
    }
}

impl<T: Drop, A: Allocator> From<AllocFailed<T>> for FilesFault<'_, A> {
    ghost use Rattle.doslink_files.specs.declared.fault.FilesFault.TheVariants.{Memory};

    ghost from_gives = { λ _ e. e ≡ Memory };

    fn from(_error: AllocFailed<T>) -> Self {
        FilesFault::Memory
    }
}
