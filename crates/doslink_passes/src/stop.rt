//! Why a link stops.
ghost use Rattle.std.specs.Prelude.{◌≡◌};
ghost use Rattle.doslink_passes.specs.Stops.{stop_status, stop_text};

use std::alloc::{AllocError, AllocFailed};

/// Why the files of a job can't be linked.
#[derive(Clone, Copy)]
pub enum Stop {
    /// An input is at fault, which was told.
    Input,
    /// A file or a device failed, which was told.
    Device,
    /// There was no memory.
    Memory,
}

impl Stop {
    /// The exit status: 1 where an input is at fault, and else 3.
    pub fn status(self) -> u8
        ensures { result ≡ stop_status self }
    {
        match self {
            Stop::Input => 1,
            Stop::Device | Stop::Memory => 3,
        }
    }
}

/// The line for want of memory.
const MEMORY: &[u8] = b"doslink: memory\n";

impl Stop {
    /// What is told of a run that has told these lines: for want of memory that alone.
    pub fn text<'l>(self, lines: &'l [u8]) -> &'l [u8]
        ensures { result.now ≡ stop_text self lines.now }
    {
        match self {
            Stop::Input | Stop::Device => lines,
            Stop::Memory => MEMORY,
        }
    }
}

impl From<AllocError> for Stop {
    ghost use Rattle.doslink_passes.specs.declared.stop.Stop.TheVariants.{Memory};

    ghost from_gives = { λ _ e. e ≡ Memory };

    fn from(_error: AllocError) -> Stop {
        Stop::Memory
    }
}

impl<T: Drop> From<AllocFailed<T>> for Stop {
    ghost use Rattle.doslink_passes.specs.declared.stop.Stop.TheVariants.{Memory};

    ghost from_gives = { λ _ e. e ≡ Memory };

    fn from(_error: AllocFailed<T>) -> Stop {
        Stop::Memory
    }
}

/// The stop for an input at fault, once its line is told.
pub fn stop_after(told: Result<(), AllocError>) -> Stop {
    match told {
        Ok(()) => Stop::Input,
        Err(AllocError) => Stop::Memory,
    }
}
