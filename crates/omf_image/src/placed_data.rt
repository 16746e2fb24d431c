//! A data record at the address of its first byte, with what is known of it while its fix-ups are added.

use crate::index::Index;
use omf_module::{DataRecord, Module};
use omf_place::Layout;
use std::alloc::Allocator;

/// A data record of a module, at the address of its first byte.
#[derive(Drop)]
pub struct PlacedData<'a, A: Allocator + Copy> {
    pub layout: &'a Layout<A>,
    /// The module's input, counted from 0.
    pub input: usize,
    pub module: &'a Module<A>,
    pub data_record: DataRecord<'a>,
    /// The address of the first byte.
    pub start: u32,
    /// Whether each byte was stored at its own position.
    pub plain: bool,
    /// The positions by place, where the data isn't plain.
    pub index: &'a Index<A>,
}
