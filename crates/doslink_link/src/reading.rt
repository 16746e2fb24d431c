//! A module in memory, read.
ghost use Rattle.doslink_link.specs.Reading.{IsReading};

use crate::bytes::Bytes;
use omf_module::{Module, ModuleFault, read_module};
use std::alloc::Allocator;

/// The module that bytes begin with.
///
/// # Errors
/// The fault of the first record that has one; want of memory.
pub fn read_one<A: Allocator + Copy>(alloc: A, bytes: &[u8]) -> Result<Module<A>, ModuleFault>
    ensures { IsReading bytes.now result }
{
    let mut source = Bytes { rest: bytes };
    read_module(alloc, &mut source)
}
