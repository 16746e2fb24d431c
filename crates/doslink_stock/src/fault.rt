//! Why the modules of files aren't told.
ghost use Rattle.std.specs.Prelude.{◌≡◌};

use omf_library::FormatFault;
use std::alloc::{AllocError, AllocFailed};
use thiserror::Error;

/// Why the modules of files aren't told.
#[derive(Clone, Copy, Debug, PartialEq, Eq, Error)]
pub enum StockFault {
    /// There was no memory.
    #[error("out of memory")]
    Memory,
    /// A library or an archive is at fault.
    #[error("file {file}, place {place}: {fault}")]
    Library {
        /// The index of the file.
        file: usize,
        /// How many bytes of the file stand before what is at fault.
        place: usize,
        /// What is wrong there.
        fault: FormatFault,
    },
}

impl From<AllocError> for StockFault {
    ghost use Rattle.doslink_stock.specs.declared.fault.StockFault.TheVariants.{Memory};

    ghost from_gives = { λ _ e. e ≡ Memory };

    fn from(_error: AllocError) -> StockFault {
        StockFault::Memory
    }
}

impl<T: Drop> From<AllocFailed<T>> for StockFault {
    ghost use Rattle.doslink_stock.specs.declared.fault.StockFault.TheVariants.{Memory};

    ghost from_gives = { λ _ e. e ≡ Memory };

    fn from(_error: AllocFailed<T>) -> StockFault {
        StockFault::Memory
    }
}
