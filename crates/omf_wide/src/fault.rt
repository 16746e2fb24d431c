//! Why a frame holds no record that says what is asked of it.

use thiserror::Error;

/// Why a frame holds no record of these types.
#[derive(Clone, Copy, Debug, PartialEq, Eq, Error)]
pub enum WideFault {
    #[error("out of memory")]
    Memory,
    /// The type isn't one of these.
    #[error("the type of the record isn't one of 32 bits")]
    OtherType,
    /// The body isn't one of its type: the length of its longest front that zeros complete.
    #[error("the body of the record is wrong at byte {at}")]
    Body { at: usize },
    /// A number that has to have 16 bits has more: the place of its first byte that isn't 0 and would have to be.
    #[error("the number at byte {at} of the record has more than 16 bits")]
    Above16Bits { at: usize },
}
