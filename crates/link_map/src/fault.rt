//! Why a map isn't written.

ghost use Rattle.std.specs.Prelude.{◌≡◌};
ghost use Rattle.link_map.specs.declared.fault.MapFault.TheVariants.{Device, Memory};

use omf_frame::IoFault;
use std::alloc::AllocError;
use thiserror::Error;

/// Why a map wasn't written.
#[derive(Clone, Copy, Debug, PartialEq, Eq, Error)]
pub enum MapFault {
    /// The sink failed.
    #[error("the device failed")]
    Device,
    /// There was no memory.
    #[error("out of memory")]
    Memory,
}

impl From<IoFault> for MapFault {
    ghost from_gives = { λ _ e. e ≡ Device };

    // Only the sink fails so.
    fn from(_fault: IoFault) -> MapFault {
        MapFault::Device
    }
}

impl From<AllocError> for MapFault {
    ghost from_gives = { λ _ e. e ≡ Memory };

    // Only memory runs out so.
    fn from(_error: AllocError) -> MapFault {
        MapFault::Memory
    }
}
