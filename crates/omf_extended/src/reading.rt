//! Bodies that are one text of their fields.

ghost use Rattle.std.specs.Prelude.{◌≡◌, ◌≤◌};
ghost use Rattle.omf_extended.specs.inside.Kinds.{IsBody, ReadsParts};

use crate::fault::ExtendedFault;
use omf_codec::codec::{Blank, Field};
use omf_codec::whole::{WholeFault, read_whole};
use std::alloc::Allocator;

/// The parts of a body.
pub(crate) fn parts<'a, A: Allocator + Copy, F: Field<'a, A> + Blank>(
    alloc: A,
    kind: u8,
    bytes: &'a [u8],
) -> Result<F::Item, ExtendedFault>
    requires { IsBody (F.format 0) kind }
    ensures { ReadsParts (F.format 0) kind bytes.now result }
{
    match read_whole::<A, F>(alloc, bytes) {
        Ok(parts) => Ok(parts),
        Err(WholeFault::Memory) => Err(ExtendedFault::Memory),
        Err(WholeFault::Text { at }) => Err(ExtendedFault::Body { at }),
    }
}
