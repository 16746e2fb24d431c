//! Why a file's members aren't told.

ghost use Rattle.std.specs.Prelude.{◌≡◌};

use omf_frame::FramingFault;
use std::alloc::{AllocError, AllocFailed};
use thiserror::Error;

/// What is wrong with the bytes of a library or of an archive.
#[derive(Clone, Copy, Debug, PartialEq, Eq, Error)]
pub enum FormatFault {
    /// 42: the page size of a library is no power of two from 16 to 32,768.
    #[error("its page size is no power of two from 16 to 32768")]
    PageSize,
    /// 43: the length word of a record is 0.
    #[error("its length word is 0")]
    ZeroLength,
    /// 44: the library ends inside the record, or before its end record, F1H.
    #[error("the library ends inside it or before it")]
    Truncated,
    /// 45: the closing byte of a record isn't 0, and the record's sum isn't 0 modulo 256.
    #[error("its closing byte is wrong")]
    Closing,
    /// 46: no header of an archive's member begins here.
    #[error("no header of a member begins there")]
    Header,
    /// 47: a member of an archive has more bytes than follow its header.
    #[error("the member is longer than the archive")]
    TooLong,
}

/// Why the members of a file aren't told.
#[derive(Clone, Copy, Debug, PartialEq, Eq, Error)]
pub enum LibraryFault {
    /// At the record or the member's header that begins, or should begin, at this place of the file.
    #[error("place {place}: {fault}")]
    Malformed { place: usize, fault: FormatFault },
    /// There was no memory.
    #[error("no memory")]
    Memory,
}

impl From<AllocError> for LibraryFault {
    ghost use Rattle.omf_library.specs.declared.fault.LibraryFault.TheVariants.{Memory};

    ghost from_gives = { λ _ e. e ≡ Memory };

    fn from(_: AllocError) -> Self {
        LibraryFault::Memory
    }
}

impl<T: Drop> From<AllocFailed<T>> for LibraryFault {
    ghost use Rattle.omf_library.specs.declared.fault.LibraryFault.TheVariants.{Memory};

    ghost from_gives = { λ _ e. e ≡ Memory };

    fn from(_: AllocFailed<T>) -> Self {
        LibraryFault::Memory
    }
}
