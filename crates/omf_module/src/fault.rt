//! Why bytes are no object module.
ghost use Rattle.std.specs.Prelude.{◌≡◌};
ghost use Rattle.omf_module.specs.Labels.{check_label};

use omf_record::NoRecord;
use std::alloc::AllocError;
use thiserror::Error;

/// What the checks of a module refuse, on the tables as they stand before a record.
#[derive(Clone, Copy, Debug, PartialEq, Eq, Error)]
pub enum CheckFault {
    /// 7: the first record isn't THEADR.
    #[error("the first record is no THEADR")]
    NotHeader,
    /// 10: an index of a name that isn't listed.
    #[error("a name index is out of range")]
    NameIndex,
    /// 11: an index of a segment that isn't defined.
    #[error("a segment index is out of range")]
    SegmentIndex,
    /// 12: an index of a group that isn't defined.
    #[error("a group index is out of range")]
    GroupIndex,
    /// 13: an index of an external that isn't defined.
    #[error("an external index is out of range")]
    ExternalIndex,
    /// 14: a fix-up or start uses a thread that no earlier subrecord set.
    #[error("a thread isn't set")]
    ThreadNotSet,
    /// 15: a fix-up with no data record before it.
    #[error("a fix-up stands before any data")]
    FixupBeforeData,
    /// 16: a fix-up's location isn't wholly in the data, or not wholly in one content.
    #[error("a fix-up lies outside the data")]
    FixupPlace,
    /// 17: data passes the segment's length.
    #[error("data passes the end of its segment")]
    DataOutside,
    /// 18: data for an absolute segment.
    #[error("data is for an absolute segment")]
    DataInAbsolute,
    /// 19: a self-relative fix-up of a base.
    #[error("a self-relative fix-up is of a base")]
    SelfRelativeBase,
    /// 20: the start's frame is that of its location.
    #[error("the start's frame is that of a location")]
    FrameOfLocation,
    /// 21: a member of a group is an absolute segment.
    #[error("a group has an absolute segment")]
    GroupOfAbsolute,
}

impl CheckFault {
    /// The number and the name that the fault is printed with.
    pub fn label(self) -> (u8, &'static str)
        ensures number { result.0 ≡ (check_label self).0 }
        ensures name { result.1.now ≡ (check_label self).1 }
    {
        match self {
            CheckFault::NotHeader => (7, "NotHeader"),
            CheckFault::NameIndex => (10, "NameIndex"),
            CheckFault::SegmentIndex => (11, "SegmentIndex"),
            CheckFault::GroupIndex => (12, "GroupIndex"),
            CheckFault::ExternalIndex => (13, "ExternalIndex"),
            CheckFault::ThreadNotSet => (14, "ThreadNotSet"),
            CheckFault::FixupBeforeData => (15, "FixupBeforeData"),
            CheckFault::FixupPlace => (16, "FixupPlace"),
            CheckFault::DataOutside => (17, "DataOutside"),
            CheckFault::DataInAbsolute => (18, "DataInAbsolute"),
            CheckFault::SelfRelativeBase => (19, "SelfRelativeBase"),
            CheckFault::FrameOfLocation => (20, "FrameOfLocation"),
            CheckFault::GroupOfAbsolute => (21, "GroupOfAbsolute"),
        }
    }
}

/// What is wrong at the place of a record.
#[derive(Clone, Copy, Debug, PartialEq, Eq, Error)]
pub enum FaultKind {
    /// 1: the source failed.
    #[error("the source failed")]
    Device,
    /// 2 to 6, 8 and 41: no record begins.
    #[error("{0}")]
    Absent(NoRecord),
    /// 7 and 10 to 21: a check refuses the record.
    #[error("{0}")]
    Check(CheckFault),
}

impl From<AllocError> for ModuleFault {
    ghost use Rattle.omf_module.specs.declared.fault.ModuleFault.TheVariants.{Memory};

    ghost from_gives = { λ _ e. e ≡ Memory };

    fn from(_: AllocError) -> Self {
        ModuleFault::Memory
    }
}

/// Why no module was read.
#[derive(Clone, Copy, Debug, PartialEq, Eq, Error)]
pub enum ModuleFault {
    /// There was no memory.
    #[error("no memory")]
    Memory,
    /// At the record that begins at this place of the input, or where it ended.
    #[error("record {place}: {kind}")]
    Record { place: u64, kind: FaultKind },
}
