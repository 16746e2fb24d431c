//! What may be wrong with a program's file, and why one isn't written, read or loaded.
ghost use Rattle.std.specs.Prelude.{◌≡◌};
ghost use Rattle.mz.specs.Labels.{file_label};
ghost use Rattle.mz.specs.declared.fault.MzFault.TheVariants.{File, Memory};

use std::alloc::AllocError;
use thiserror::Error;

/// What is wrong with a program's file, or with loading it.
#[derive(Clone, Copy, Debug, PartialEq, Eq, Error)]
pub enum FileFault {
    /// 35: the file doesn't begin with the bytes `4D 5A`.
    #[error("it doesn't begin with MZ")]
    Magic,
    /// 36: the words of its header contradict one another.
    #[error("its header isn't accepted")]
    Header,
    /// 37: it is shorter than its header, or than the header tells.
    #[error("it is cut off")]
    Truncated,
    /// 38: an entry of its relocation table points outside the image.
    #[error("a relocation lies outside the image")]
    RelocationOutside,
    /// 39: the image, or the least extra paragraphs behind it, would end above the memory of 1,048,576 bytes.
    #[error("it doesn't fit at the paragraph")]
    DoesNotFit,
    /// 40: reading or writing it failed.
    #[error("it failed")]
    Device,
}

impl FileFault {
    /// The number and the name that the fault is printed with.
    pub fn label(self) -> (u8, &'static str)
        ensures number { result.0 ≡ (file_label self).0 }
        ensures name { result.1.now ≡ (file_label self).1 }
    {
        match self {
            FileFault::Magic => (35, "Magic"),
            FileFault::Header => (36, "Header"),
            FileFault::Truncated => (37, "Truncated"),
            FileFault::RelocationOutside => (38, "RelocationOutside"),
            FileFault::DoesNotFit => (39, "DoesNotFit"),
            FileFault::Device => (40, "Device"),
        }
    }
}

/// Why a file wasn't written, read or loaded.
#[derive(Clone, Copy, Debug, PartialEq, Eq, Error)]
pub enum MzFault {
    /// The file is at fault, or its device.
    #[error("the program's file: {0}")]
    File(FileFault),
    /// There was no memory.
    #[error("out of memory")]
    Memory,
}

impl From<FileFault> for MzFault {
    ghost from_gives = { λ fault e. e ≡ File fault };

    // A fault of the file is why it isn't read.
    fn from(fault: FileFault) -> MzFault {
        MzFault::File(fault)
    }
}

impl From<AllocError> for MzFault {
    ghost from_gives = { λ _ e. e ≡ Memory };

    // Only memory runs out so.
    fn from(_error: AllocError) -> MzFault {
        MzFault::Memory
    }
}
