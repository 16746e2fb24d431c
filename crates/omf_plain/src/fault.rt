//! What is in the way of a record.

ghost use Rattle.std.specs.Prelude.{◌≡◌};

use omf_extended::ExtendedFault;
use omf_frame::FramingFault;
use omf_module::CheckFault;
use omf_record::RecordFault;
use omf_wide::WideFault;
use std::alloc::{AllocError, AllocFailed};
use thiserror::Error;

/// What of a record has no saying in the fourteen.
#[derive(Clone, Copy, Debug, PartialEq, Eq, Error)]
pub enum Obstacle {
    /// 5: no record of its type is linked.
    #[error("no record of its type is linked")]
    OtherType,
    /// 48: the data type of a communal variable is neither 61H, far, nor 62H, near.
    #[error("a communal variable's data type is neither far nor near")]
    DataType,
    /// 49: a number has more than 16 bits.
    #[error("a number has more than 16 bits")]
    Above16Bits,
    /// 50: a fix-up of 32 bits is self-relative, or its location isn't in the data before it.
    #[error("a fix-up of 32 bits can't be one of 16")]
    OutsideData,
    /// 51: the body isn't one of its type, or names a name that isn't listed.
    #[error("its body isn't one of its type")]
    Body,
    /// 52: a name has more than 255 bytes.
    #[error("a name is longer than a record may have it")]
    TooLong,
    /// 63: a comment says that the module is Easy OMF, of 32 bits in records of even types.
    #[error("the module is Easy OMF")]
    EasyOmf,
    /// 64: a comment imports a name from a dynamic library.
    #[error("a name is imported from a dynamic library")]
    ImportedName,
    /// 65: a fix-up, a thread, public names or the start count from the group FLAT, of protected mode.
    #[error("an address counts from the group FLAT")]
    FlatFrame,
    /// 80: a segment is defined behind a COMDAT that is taken.
    #[error("a segment is defined behind a COMDAT")]
    LateSegment,
}

/// Why a frame holds no record that is taken, by the family of its type.
#[derive(Clone, Copy, Debug, PartialEq, Eq, Error)]
pub enum GivenFault {
    /// It would be one of the fourteen.
    #[error("{0}")]
    Narrow(RecordFault),
    /// It would be one of 32 bits, or like it.
    #[error("{0}")]
    Wide(WideFault),
    /// It would be data of 32 bits.
    #[error("{0}")]
    Data(WideFault),
    /// It would be repeated data of 32 bits.
    #[error("{0}")]
    Repeated(ExtendedFault),
    /// Its type is another one.
    #[error("{0}")]
    Later(ExtendedFault),
}

/// Why a record isn't taken.
#[derive(Clone, Copy, Debug, PartialEq, Eq, Error)]
pub enum PlainFault {
    /// Something of it has no saying.
    #[error("{0}")]
    Of(Obstacle),
    /// There was no memory.
    #[error("no memory")]
    Memory,
}

/// Why the record at a place of a module isn't taken.
#[derive(Clone, Copy, Debug, PartialEq, Eq, Error)]
pub enum RecordObstacle {
    /// No frame begins there.
    #[error("{0}")]
    Framing(FramingFault),
    /// The bytes end there, before the end of the module.
    #[error("the module has no end")]
    NoEnd,
    /// The frame holds no record that is taken. It isn't that there was no memory.
    #[error("{0}")]
    Body(GivenFault),
    /// Something of the record has no saying in the fourteen.
    #[error("{0}")]
    Obstacle(Obstacle),
    /// A check of modules refuses what the record says.
    #[error("{0}")]
    Check(CheckFault),
}

/// Why bytes aren't read as a module.
#[derive(Clone, Copy, Debug, PartialEq, Eq, Error)]
pub enum PlainModuleFault {
    /// There was no memory.
    #[error("no memory")]
    Memory,
    /// The record at this place isn't taken, the first of them.
    #[error("record {place}: {why}")]
    Record { place: u64, why: RecordObstacle },
}

impl From<AllocError> for PlainFault {
    ghost use Rattle.omf_plain.specs.declared.fault.PlainFault.TheVariants.{Memory};

    ghost from_gives = { λ _ e. e ≡ Memory };

    fn from(_: AllocError) -> Self {
        PlainFault::Memory
    }
}

impl<T: Drop> From<AllocFailed<T>> for PlainFault {
    ghost use Rattle.omf_plain.specs.declared.fault.PlainFault.TheVariants.{Memory};

    ghost from_gives = { λ _ e. e ≡ Memory };

    fn from(_: AllocFailed<T>) -> Self {
        PlainFault::Memory
    }
}

impl From<Obstacle> for PlainFault {
    ghost use Rattle.omf_plain.specs.declared.fault.PlainFault.TheVariants.{Of};

    ghost from_gives = { λ o e. e ≡ Of o };

    fn from(obstacle: Obstacle) -> Self {
        PlainFault::Of(obstacle)
    }
}
