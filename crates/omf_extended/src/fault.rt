//! Why a frame holds no record that says what is asked of it.

use thiserror::Error;

/// Why a frame holds no record of these types.
#[derive(Clone, Copy, Debug, PartialEq, Eq, Error)]
pub enum ExtendedFault {
    #[error("out of memory")]
    Memory,
    /// The type isn't one of these.
    #[error("the type of the record isn't one of those that came after Intel's")]
    OtherType,
    /// The body isn't one of its type: the length of its longest front that zeros complete.
    #[error("the body of the record is wrong at byte {at}")]
    Body { at: usize },
}
