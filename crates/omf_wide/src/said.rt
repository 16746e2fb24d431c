//! What a record says.

use crate::externals::ListedExternal;
use crate::fixups::{WideReference, WideSubrecord};
use crate::segments::WideSegment;
use omf_record::Record;
use std::alloc::{Allocator, Global};

/// What a record says that isn't one of the fourteen of 16 bits, free of how its body spells it.
#[derive(Drop)]
#[derive_where(Debug)]
pub enum Said<'a, A: Allocator + Copy = Global> {
    /// What one of the fourteen says: 82H, 91H, 95H, A1H, B5H, B7H and CAH, where each number has 16 bits.
    Plain(Record<'a, A>),
    /// 9DH, and 9CH where it isn't wide: threads and fix-ups.
    Fixupp {
        wide: bool,
        subrecords: Vec<WideSubrecord, A>,
    },
    /// 8BH, and 8AH where it isn't wide: the end of a module.
    Modend {
        wide: bool,
        main: bool,
        start: Option<WideReference>,
    },
    /// 99H, and 98H where it isn't wide: a segment.
    Segdef {
        wide: bool,
        segment: WideSegment,
    },
    /// BCH, external names by their indexes.
    Cextdef {
        names: Vec<ListedExternal, A>,
    },
}
