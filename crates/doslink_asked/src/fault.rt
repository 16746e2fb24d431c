//! Why words ask for nothing that can be done.
ghost use Rattle.std.specs.Prelude.{◌≡◌};

use std::alloc::{AllocError, AllocFailed};

/// Why words ask for nothing that can be done.
#[derive(Clone, Copy)]
pub enum AskingFault {
    /// They are wrong, or what a file says that they name, which was told.
    Words,
    /// A file that they name can't be read, which was told.
    Device,
    /// There was no memory.
    Memory,
}

impl From<AllocError> for AskingFault {
    ghost use Rattle.doslink_asked.specs.declared.fault.AskingFault.TheVariants.{Memory};

    ghost from_gives = { λ _ fault. fault ≡ Memory };

    fn from(_error: AllocError) -> AskingFault {
        AskingFault::Memory
    }
}

impl<T: Drop> From<AllocFailed<T>> for AskingFault {
    ghost use Rattle.doslink_asked.specs.declared.fault.AskingFault.TheVariants.{Memory};

    ghost from_gives = { λ _ fault. fault ≡ Memory };

    fn from(_error: AllocFailed<T>) -> AskingFault {
        AskingFault::Memory
    }
}
