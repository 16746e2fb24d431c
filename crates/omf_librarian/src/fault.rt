//! Why modules make no library.

ghost use Rattle.std.specs.Prelude.{◌≡◌};

use omf_library::FormatFault;
use std::alloc::{AllocError, AllocFailed};
use thiserror::Error;

/// Why modules make no library. A member is named by its index.
#[derive(Clone, Copy, Debug, PartialEq, Eq, Error)]
pub enum LibrarianFault {
    /// The page size that was asked for is no power of two from 16 to 32,768.
    #[error("the page size is no power of two from 16 to 32768")]
    PageSize,
    /// The first record of the member is neither THEADR nor LHEADR.
    #[error("member {member}: it begins with no record that heads a module")]
    Header {
        member: usize,
    },
    /// At the record of the member that begins, or should begin, at this place of it.
    #[error("member {member}, place {place}: {fault}")]
    Malformed {
        member: usize,
        place: usize,
        fault: FormatFault,
    },
    /// A name of the member, with the mark of a module's name, has more than 255 bytes.
    #[error("member {member}: a name of it has more than 255 bytes")]
    LongName {
        member: usize,
    },
    /// The members take pages beyond that with number 65,535.
    #[error("the members take more than 65535 pages")]
    Pages,
    /// A dictionary of 251 blocks has no room for all names.
    #[error("the names have no room in a dictionary of 251 blocks")]
    Names,
    /// There was no memory.
    #[error("no memory")]
    Memory,
}

impl From<AllocError> for LibrarianFault {
    ghost use Rattle.omf_librarian.specs.declared.fault.LibrarianFault.TheVariants.{Memory};

    ghost from_gives = { λ _ e. e ≡ Memory };

    fn from(_: AllocError) -> Self {
        LibrarianFault::Memory
    }
}

impl<T: Drop> From<AllocFailed<T>> for LibrarianFault {
    ghost use Rattle.omf_librarian.specs.declared.fault.LibrarianFault.TheVariants.{Memory};

    ghost from_gives = { λ _ e. e ≡ Memory };

    fn from(_: AllocFailed<T>) -> Self {
        LibrarianFault::Memory
    }
}
