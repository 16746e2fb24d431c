//! What a whole object module says: tables, threads in force and checks, read from its records in order.
#![tactic(auto)]

mod builder;
mod checks;
mod contents;
mod declarations;
mod defaulting;
mod entries;
mod fault;
mod grouping;
mod laws;
mod lengths;
mod lookups;
mod pieces;
mod reading;
mod starting;
mod store;

pub use builder::{AddFault, ModuleBuilder};
pub use declarations::with_declarations;
pub use defaulting::{are_externals, redirect_externals};
pub use fault::{CheckFault, FaultKind, ModuleFault};
pub use grouping::group_class;
pub use laws::{no_fault, one_fault, one_module, read_is_takable};
pub use lengths::with_lengths;
pub use lookups::{
    DataRecord, DataRecords, ExternalSymbol, Externals, Group, Groups, Module, PublicSymbol,
    Publics, Segment, Segments, all_promise,
};
use omf_record::{FrameMethod, Location, TargetMethod};
pub use reading::read_module;
pub use starting::without_start;

/// How the parts of a segment combine.
#[derive(Clone, Copy, Debug)]
pub enum Kind {
    Private,
    Public,
    Stack,
    Common,
}

/// Where a segment stands.
#[derive(Clone, Copy, Debug)]
pub enum Standing {
    /// At 16 times the frame, plus the offset.
    Absolute { frame: u16, offset: u8 },
    /// Where a linker places it: at a multiple of the alignment, in bytes.
    Relocatable { alignment: u16, kind: Kind },
}

/// A fix-up on a data record, with its threads resolved.
#[derive(Clone, Copy, Debug)]
pub struct ResolvedFixup {
    /// The place of its FIXUPP record.
    pub place: u64,
    pub self_relative: bool,
    pub location: Location,
    /// The stored place of the location's first byte.
    pub offset: u16,
    /// The methods; segments, groups and externals count from 1, as in the record.
    pub frame: FrameMethod,
    pub target: TargetMethod,
    /// 0 where the record has none.
    pub displacement: u16,
}

/// Where a program starts.
#[derive(Clone, Copy, Debug)]
pub struct Start {
    /// The place of the MODEND record.
    pub place: u64,
    /// The methods; segments, groups and externals count from 1, as in the record.
    pub frame: FrameMethod,
    pub target: TargetMethod,
    /// 0 where the record has none.
    pub displacement: u16,
}
