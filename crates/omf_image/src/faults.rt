//! What may be wrong with data, fix-ups and the start.

ghost use Rattle.std.specs.Prelude.{◌≡◌};
ghost use Rattle.omf_image.specs.Labels.{fix_label};
ghost use Rattle.omf_image.specs.declared.faults.FixFault.TheVariants.{Memory};
ghost use Rattle.omf_image.specs.declared.faults.Stop.TheVariants as stop;
ghost use Rattle.omf_image.specs.inside.Lacks.{missing_fault};
ghost use Rattle.omf_image.specs.inside.Stops.{stopped};

use crate::reference::Missing;
use std::alloc::AllocError;
use thiserror::Error;

/// A fault of a data record (26), of a fix-up (27 to 32) or of the start (27 to 30, 33).
#[derive(Clone, Copy, Debug, PartialEq, Eq, Error)]
pub enum FixKind {
    /// 26: data covers a byte of a relocated word of an earlier data record.
    #[error("data covers a relocated word")]
    CoversRelocated,
    /// 27: the external of a frame or target has no public.
    #[error("an external has no public")]
    Unresolved,
    /// 28: the group that gives the frame or is the target has no members, or that of the public that gives the frame.
    #[error("a group has no members")]
    EmptyGroup,
    /// 29: a distance would depend on where the program is loaded.
    #[error("a distance between relocatable and absolute")]
    Mixed,
    /// 30: the target, or the location, isn't within 65,536 bytes from the frame's start.
    #[error("a distance leaves its frame")]
    OutOfFrame,
    /// 31: a distance doesn't fit a signed byte.
    #[error("a distance doesn't fit a byte")]
    ShortTooFar,
    /// 32: two fix-ups share a byte of a relocated word.
    #[error("fix-ups share a relocated word")]
    OverlapRelocated,
    /// 33: an earlier module has a start.
    #[error("a second start")]
    TwoStarts,
}

impl FixKind {
    /// The number and the name that the fault is printed with.
    pub fn label(self) -> (u8, &'static str)
        ensures number { result.0 ≡ (fix_label self).0 }
        ensures name { result.1.now ≡ (fix_label self).1 }
    {
        match self {
            FixKind::CoversRelocated => (26, "CoversRelocated"),
            FixKind::Unresolved => (27, "Unresolved"),
            FixKind::EmptyGroup => (28, "EmptyGroup"),
            FixKind::Mixed => (29, "Mixed"),
            FixKind::OutOfFrame => (30, "OutOfFrame"),
            FixKind::ShortTooFar => (31, "ShortTooFar"),
            FixKind::OverlapRelocated => (32, "OverlapRelocated"),
            FixKind::TwoStarts => (33, "TwoStarts"),
        }
    }
}

impl From<Missing> for FixKind {
    ghost from_gives = { λ lacks kind. kind ≡ missing_fault lacks };

    // What the look-up of a reference lacks is the fault of its fix-up or start.
    fn from(lacks: Missing) -> FixKind {
        match lacks {
            Missing::Public => FixKind::Unresolved,
            Missing::Members => FixKind::EmptyGroup,
        }
    }
}

/// Why no program was made.
#[derive(Clone, Copy, Debug, PartialEq, Eq, Error)]
pub enum FixFault {
    /// A fault, with its input, counted from 0, and the place of its record there.
    #[error("{kind} at record {place} of input {input}")]
    At {
        kind: FixKind,
        input: usize,
        place: u64,
    },
    /// Fault 34: more than 65,535 relocated words.
    #[error("too many relocated words")]
    TooManyRelocations,
    #[error("out of memory")]
    Memory,
}

impl From<AllocError> for FixFault {
    ghost from_gives = { λ _ e. e ≡ Memory };

    // Only memory runs out so.
    fn from(_error: AllocError) -> FixFault {
        FixFault::Memory
    }
}

/// Why a fix-up was not added.
#[derive(Clone, Copy)]
pub enum Stop {
    Kind(FixKind),
    Memory,
}

impl From<AllocError> for Stop {
    ghost from_gives = { λ _ e. e ≡ stop.Memory };

    // Only memory runs out so.
    fn from(_error: AllocError) -> Stop {
        Stop::Memory
    }
}

impl From<FixKind> for Stop {
    ghost from_gives = { λ kind e. e ≡ stop.Kind kind };

    // A fault stops the fix-up that has it.
    fn from(kind: FixKind) -> Stop {
        Stop::Kind(kind)
    }
}

impl Stop {
    /// The fault at a record of an input.
    pub fn at(self, input: usize, place: u64) -> FixFault
        ensures { result ≡ stopped self input place }
    {
        match self {
            Stop::Kind(kind) => FixFault::At { kind, input, place },
            Stop::Memory => FixFault::Memory,
        }
    }
}
