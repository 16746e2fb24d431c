//! Why a stack isn't cut.

ghost use Rattle.std.specs.Prelude.{◌≡◌};

use std::alloc::{AllocError, AllocFailed};
use thiserror::Error;

/// Why a stack isn't cut to a length.
#[derive(Clone, Copy, Debug, PartialEq, Eq, Error)]
pub enum CutFault {
    /// The module with this index, counted from 0, has data in the stack that wouldn't lie in it: that of the record
    /// with this place.
    #[error("module {module}, place {place}: data would lie outside of the stack")]
    Outside { module: usize, place: u64 },
    /// There was no memory.
    #[error("no memory")]
    Memory,
}

impl From<AllocError> for CutFault {
    ghost use Rattle.omf_stack.specs.declared.fault.CutFault.TheVariants.{Memory};

    ghost from_gives = { λ _ e. e ≡ Memory };

    fn from(_: AllocError) -> Self {
        CutFault::Memory
    }
}

impl<T: Drop> From<AllocFailed<T>> for CutFault {
    ghost use Rattle.omf_stack.specs.declared.fault.CutFault.TheVariants.{Memory};

    ghost from_gives = { λ _ e. e ≡ Memory };

    fn from(_: AllocFailed<T>) -> Self {
        CutFault::Memory
    }
}
