//! Bodies that are one text of their fields, and those whose numbers have to have 16 bits.

ghost use Rattle.std.specs.Prelude.{◌≡◌, ◌≤◌};
ghost use Rattle.omf_codec.specs.inside.Wholes.{IsEnding};
ghost use Rattle.omf_wide.specs.inside.Kinds.{IsBody, IsNarrowBody, ReadsParts, Tells};

use crate::fault::WideFault;
use omf_codec::codec::{Blank, Field};
use omf_codec::whole::{WholeFault, read_whole};
use std::alloc::Allocator;

/// The parts of a body.
pub(crate) fn parts<'a, A: Allocator + Copy, F: Field<'a, A> + Blank>(
    alloc: A,
    kind: u8,
    bytes: &'a [u8],
) -> Result<F::Item, WideFault>
    requires { IsBody (F.format 0) kind }
    ensures { ReadsParts (F.format 0) kind bytes.now result }
{
    match read_whole::<A, F>(alloc, bytes) {
        Ok(parts) => Ok(parts),
        Err(WholeFault::Memory) => Err(WideFault::Memory),
        Err(WholeFault::Text { at }) => Err(WideFault::Body { at }),
    }
}

/// The fault of a body, of which those whose numbers have 16 bits don't go on at the place: that of one with any
/// numbers, where that is at this place, too, or that the number there has more than 16 bits.
fn fault_at<'a, A: Allocator + Copy, W: Field<'a, A> + Blank>(
    alloc: A,
    bytes: &'a [u8],
    at: usize,
) -> WideFault
    requires { IsEnding (W.format 0) }
    ensures { Tells (W.format 0) bytes.now at result }
{
    match read_whole::<A, W>(alloc, bytes) {
        Ok(_) => WideFault::Above16Bits { at },
        Err(WholeFault::Memory) => WideFault::Memory,
        Err(WholeFault::Text { at: wrong }) => {
            if wrong == at {
                WideFault::Body { at }
            } else {
                WideFault::Above16Bits { at }
            }
        }
    }
}

/// The parts of a body whose numbers have 16 bits: `N` spells those alone, and `W` those with any numbers.
pub(crate) fn narrow_parts<
    'a,
    A: Allocator + Copy,
    N: Field<'a, A> + Blank,
    W: Field<'a, A> + Blank,
>(alloc: A, kind: u8, bytes: &'a [u8]) -> Result<N::Item, WideFault>
    requires narrow { IsNarrowBody (N.format 0) kind }
    requires wide { IsBody (W.format 0) kind }
    ensures { ReadsParts (N.format 0) kind bytes.now result }
{
    match read_whole::<A, N>(alloc, bytes) {
        Ok(parts) => Ok(parts),
        Err(WholeFault::Memory) => Err(WideFault::Memory),
        Err(WholeFault::Text { at }) => Err(fault_at::<A, W>(alloc, bytes, at)),
    }
}
