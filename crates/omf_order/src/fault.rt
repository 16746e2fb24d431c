//! Why there is no order module.

ghost use Rattle.std.specs.Prelude.{◌≡◌};
ghost use Rattle.omf_order.specs.declared.fault.OrderFault.TheVariants.{Memory};

use std::alloc::AllocError;
use thiserror::Error;

/// Why no order module can be made.
#[derive(Clone, Copy, Debug, PartialEq, Eq, Error)]
pub enum OrderFault<'a> {
    #[error("memory")]
    Memory,
    /// The module would have more than 16,383 segments: each has two names, and an index is at most 32,767.
    #[error("too many segments to order")]
    TooManySegments,
    /// Names of the end of data and of the end of class BSS are wanted, and data stands between the two, where start-up
    /// code clears it: the first of it, by the module's place among the modules, from 0 on, and the segment's name.
    #[error("data in what is cleared")]
    DataInBss { module: usize, segment: &'a [u8] },
}

impl<'a> From<AllocError> for OrderFault<'a> {
    ghost from_gives = { λ _ e. e ≡ Memory };

    fn from(_error: AllocError) -> OrderFault<'a> {
        OrderFault::Memory
    }
}
