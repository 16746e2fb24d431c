//! What a record says that is taken.

use omf_extended::{Extended, WideRepeated};
use omf_record::Record;
use omf_wide::{Said, WideData};
use std::alloc::{Allocator, Global};

/// What a record says that is taken (TIS OMF 1.1, the section of each), free of how its body spells it.
#[derive(Drop)]
pub enum Given<'a, A: Allocator + Copy = Global> {
    /// One of the fourteen of 16 bits.
    Narrow(Record<'a, A>),
    /// One of 32 bits, or of a type that says the same as another.
    Wide(Said<'a, A>),
    /// Data of 32 bits.
    Data(WideData<'a>),
    /// Repeated data of 32 bits.
    Repeated(WideRepeated<'a, A>),
    /// One that came after Intel's: communal variables, aliases, COMDATs and others.
    Later(Extended<'a, A>),
}
