//! Why there are no fates of COMDATs.

ghost use Rattle.std.specs.Prelude.{◌≡◌};

use std::alloc::{AllocError, AllocFailed};
use thiserror::Error;

/// In what two COMDATs of one name differ.
#[derive(Clone, Copy, Debug, PartialEq, Eq)]
pub enum ComdatDifference {
    /// 78: in their lengths, where one of them wants the other to be as long.
    Size,
    /// 79: in their data, where one of them wants the other to have the same.
    Data,
}

/// Two COMDATs of one name that differ.
#[derive(Clone, Copy, Debug, PartialEq, Eq)]
pub struct ComdatClash<'a> {
    /// Their name, as the other one spells it.
    pub name: &'a [u8],
    /// The module of the first one of the name; indexes of modules count from 0.
    pub first: usize,
    /// The module of the other one.
    pub other: usize,
    pub differ: ComdatDifference,
}

/// Why modules have no fates of their COMDATs.
#[derive(Clone, Copy, Debug, PartialEq, Eq, Error)]
pub enum ComdatFault<'a> {
    /// Two of one name differ that have to be the same.
    #[error("COMDATs of one name differ")]
    Clash(ComdatClash<'a>),
    /// There was no memory.
    #[error("no memory")]
    Memory,
}

impl<'a> From<AllocError> for ComdatFault<'a> {
    ghost use Rattle.omf_comdat.specs.declared.fault.ComdatFault.TheVariants.{Memory};

    ghost from_gives = { λ _ e. e ≡ Memory };

    fn from(_: AllocError) -> Self {
        ComdatFault::Memory
    }
}

impl<'a, T: Drop> From<AllocFailed<T>> for ComdatFault<'a> {
    ghost use Rattle.omf_comdat.specs.declared.fault.ComdatFault.TheVariants.{Memory};

    ghost from_gives = { λ _ e. e ≡ Memory };

    fn from(_: AllocFailed<T>) -> Self {
        ComdatFault::Memory
    }
}
