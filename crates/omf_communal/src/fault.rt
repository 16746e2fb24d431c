//! Why communal variables aren't told, agreed on or placed.

ghost use Rattle.std.specs.Prelude.{◌≡◌};

use crate::declarations::Whose;
use std::alloc::{AllocError, AllocFailed};
use thiserror::Error;

/// What is wrong with a record that declares communal variables.
#[derive(Clone, Copy, Debug, PartialEq, Eq, Error)]
pub enum EntryFault {
    /// 53: its body ends inside an entry, or a number begins with none of 0 to 80H, 81H, 84H and 88H.
    #[error("its body isn't one of COMDEF")]
    Body,
    /// 54: a data type is neither 61H, far, nor 62H, near: 1 to 5FH are Borland's, for tables of virtual functions.
    #[error("a data type is neither far (61H) nor near (62H)")]
    DataType,
}

/// Why the communal variables of a module aren't told.
#[derive(Clone, Copy, Debug, PartialEq, Eq, Error)]
pub enum CommunalFault {
    /// At the record that begins at this place of the module.
    #[error("place {place}: {fault}")]
    Malformed { place: u64, fault: EntryFault },
    /// There was no memory.
    #[error("no memory")]
    Memory,
}

impl From<AllocError> for CommunalFault {
    ghost use Rattle.omf_communal.specs.declared.fault.CommunalFault.TheVariants.{Memory};

    ghost from_gives = { λ _ e. e ≡ Memory };

    fn from(_: AllocError) -> Self {
        CommunalFault::Memory
    }
}

impl<T: Drop> From<AllocFailed<T>> for CommunalFault {
    ghost use Rattle.omf_communal.specs.declared.fault.CommunalFault.TheVariants.{Memory};

    ghost from_gives = { λ _ e. e ≡ Memory };

    fn from(_: AllocFailed<T>) -> Self {
        CommunalFault::Memory
    }
}

/// Why modules don't agree on a communal variable.
#[derive(Clone, Copy, Debug, PartialEq, Eq, Error)]
pub enum ClashFault {
    /// 55: the first declaration of a name is near and another far, or the other way round.
    #[error("near in one module and far in another")]
    NearAndFar { first: Whose, other: Whose },
    /// 56: two declarations of a name are far, and their elements have different sizes.
    #[error("far with elements of different sizes")]
    ElementSizes { first: Whose, other: Whose },
    /// There was no memory.
    #[error("no memory")]
    Memory,
}

impl From<AllocError> for ClashFault {
    ghost use Rattle.omf_communal.specs.declared.fault.ClashFault.TheVariants.{Memory};

    ghost from_gives = { λ _ e. e ≡ Memory };

    fn from(_: AllocError) -> Self {
        ClashFault::Memory
    }
}

impl<T: Drop> From<AllocFailed<T>> for ClashFault {
    ghost use Rattle.omf_communal.specs.declared.fault.ClashFault.TheVariants.{Memory};

    ghost from_gives = { λ _ e. e ≡ Memory };

    fn from(_: AllocFailed<T>) -> Self {
        ClashFault::Memory
    }
}

/// Why communal variables have no place in a module.
#[derive(Clone, Copy, Debug, PartialEq, Eq, Error)]
pub enum PlanFault {
    /// 57: with this variable the near ones pass 65,536 bytes.
    #[error("the near communal variables pass 65536 bytes")]
    NearTooLong { variable: usize },
    /// 58: this far variable is longer than 65,536 bytes, and an element of it would lie over the edge of a segment.
    #[error("an element of a far communal variable would lie over the edge of a segment")]
    CutElement { variable: usize },
    /// 59: with this far variable the segments pass 32,767, the greatest index.
    #[error("the far communal variables need too many segments")]
    TooManySegments { variable: usize },
    /// There was no memory.
    #[error("no memory")]
    Memory,
}

impl From<AllocError> for PlanFault {
    ghost use Rattle.omf_communal.specs.declared.fault.PlanFault.TheVariants.{Memory};

    ghost from_gives = { λ _ e. e ≡ Memory };

    fn from(_: AllocError) -> Self {
        PlanFault::Memory
    }
}

impl<T: Drop> From<AllocFailed<T>> for PlanFault {
    ghost use Rattle.omf_communal.specs.declared.fault.PlanFault.TheVariants.{Memory};

    ghost from_gives = { λ _ e. e ≡ Memory };

    fn from(_: AllocFailed<T>) -> Self {
        PlanFault::Memory
    }
}
