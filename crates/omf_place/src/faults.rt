//! The faults of placement.

ghost use Rattle.std.specs.Prelude.{◌≡◌, IfSome};
ghost use Rattle.omf_place.specs.declared.faults.PlaceFault.TheVariants.{Memory};
ghost use Rattle.omf_place.specs.Faults as fault;
ghost use Rattle.omf_place.specs.Said.{said};

use std::alloc::{AllocError, Allocator, Global};
use thiserror::Error;

/// Why modules can't be placed. A name is that of the first at fault, byte for byte.
#[derive(Drop, Error)]
#[derive_where(Debug)]
pub enum PlaceFault<A: Allocator + Copy = Global> {
    #[error("memory")]
    Memory,
    /// A combined segment ends more than 65,536 bytes above 16 times its frame.
    #[error("22 SegmentTooLong")]
    SegmentTooLong { name: Vec<u8, A> },
    /// The program has more than 1,048,560 bytes.
    #[error("23 ProgramTooLarge")]
    ProgramTooLarge,
    /// A group ends more than 65,536 bytes above 16 times its frame.
    #[error("24 GroupTooLong")]
    GroupTooLong { name: Vec<u8, A> },
    /// Two publics have one name, or two local publics of one module.
    #[error("25 DuplicatePublic")]
    DuplicatePublic { name: Vec<u8, A> },
}

impl<A: Allocator + Copy> From<AllocError> for PlaceFault<A> {
    ghost from_gives = { λ _ e. e ≡ Memory };

    fn from(_error: AllocError) -> PlaceFault<A> {
        PlaceFault::Memory
    }
}

/// The fault of a combined segment, by the name of its first part.
pub(crate) fn segment_too_long<A: Allocator + Copy>(alloc: A, name: &[u8]) -> PlaceFault<A>
    ensures { IfSome (said result) (λ f. f ≡ fault.SegmentTooLong name.now) }
{
    match Vec::from_slice(alloc, name) {
        Ok(name) => PlaceFault::SegmentTooLong { name },
        Err(_) => PlaceFault::Memory,
    }
}

/// The fault of a group, by its name.
pub(crate) fn group_too_long<A: Allocator + Copy>(alloc: A, name: &[u8]) -> PlaceFault<A>
    ensures { IfSome (said result) (λ f. f ≡ fault.GroupTooLong name.now) }
{
    match Vec::from_slice(alloc, name) {
        Ok(name) => PlaceFault::GroupTooLong { name },
        Err(_) => PlaceFault::Memory,
    }
}

/// The fault of a public whose name an earlier one has, by that name.
pub(crate) fn duplicate_public<A: Allocator + Copy>(alloc: A, name: &[u8]) -> PlaceFault<A>
    ensures { IfSome (said result) (λ f. f ≡ fault.DuplicatePublic name.now) }
{
    match Vec::from_slice(alloc, name) {
        Ok(name) => PlaceFault::DuplicatePublic { name },
        Err(_) => PlaceFault::Memory,
    }
}
