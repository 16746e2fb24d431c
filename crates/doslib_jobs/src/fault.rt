//! Why a run stops before it is done.

ghost use Rattle.std.specs.Prelude.{◌≡◌};
ghost use Rattle.doslib_jobs.specs.Jobs.{stopped_line};

use omf_frame::IoFault;
use std::alloc::{AllocError, AllocFailed};
use thiserror::Error;

/// Why a run stops before it is done.
#[derive(Clone, Copy, Debug, PartialEq, Eq, Error)]
pub enum Stopped {
    /// There was no memory.
    #[error("out of memory")]
    Memory,
    /// 40: the standard output failed.
    #[error("the output failed")]
    Output,
}

impl Stopped {
    /// The line that tells it.
    pub(crate) fn line(self) -> &'static str
        ensures { result.now ≡ stopped_line self }
    {
        match self {
            Stopped::Memory => "doslib: memory\n",
            Stopped::Output => "doslib: output: 40 Device\n",
        }
    }
}

impl From<AllocError> for Stopped {
    ghost use Rattle.doslib_jobs.specs.declared.fault.Stopped.TheVariants.{Memory};

    ghost from_gives = { λ _ e. e ≡ Memory };

    fn from(_error: AllocError) -> Stopped {
        Stopped::Memory
    }
}

impl<T: Drop> From<AllocFailed<T>> for Stopped {
    ghost use Rattle.doslib_jobs.specs.declared.fault.Stopped.TheVariants.{Memory};

    ghost from_gives = { λ _ e. e ≡ Memory };

    fn from(_error: AllocFailed<T>) -> Stopped {
        Stopped::Memory
    }
}

impl From<IoFault> for Stopped {
    ghost use Rattle.doslib_jobs.specs.declared.fault.Stopped.TheVariants.{Output};

    ghost from_gives = { λ _ e. e ≡ Output };

    fn from(_error: IoFault) -> Stopped {
        Stopped::Output
    }
}
