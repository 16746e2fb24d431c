//! Values that are added to data that came before: BAKPAT and NBKPAT.

ghost use Rattle.std.specs.Prelude.{◌≡◌, ◌<◌, ◌↔◌, ℕ, IsTrue};
ghost use Rattle.omf_extended.specs.declared.patches.Patch.{Patch};
ghost use Rattle.omf_extended.specs.inside.Comdats as comdats;
ghost use Rattle.omf_extended.specs.inside.Lists as lists;

use omf_codec::codec::Made;
use omf_codec::numbers::Number;
use omf_codec::primitives::{Head, ZeroHead};

/// What a value is added to.
#[derive(Clone, Copy, Debug, PartialEq, Eq)]
pub enum PatchLocation {
    /// 0: eight bits.
    Byte,
    /// 1: 16 bits.
    Word,
    /// 2: 32 bits.
    DoubleWord,
}

/// A place, and what is added to what stands there.
#[derive(Clone, Copy, Debug, PartialEq, Eq)]
pub struct Patch {
    /// Where it is, in bytes from the front of the segment or of the COMDAT.
    pub offset: u32,
    pub value: u32,
}

/// Patches by their parts.
pub struct PatchParts<const WIDE: bool>;

impl<const WIDE: bool> Made<(Number<WIDE>, Number<WIDE>)> for PatchParts<WIDE> {
    type Item = Patch;

    ghost Value = { Patch };

    ghost format = { λ _. lists.patch WIDE };

    ghost is_made = { λ _. lists.patch_made WIDE };

    fn make(_number: u64, (offset, value): (u32, u32)) -> Patch {
        Patch { offset, value }
    }

    fn parts(item: &Patch) -> (u32, u32) {
        (item.offset, item.value)
    }
}

impl Head for PatchLocation {
    ghost Begins = { comdats.IsLocation };

    fn begins(byte: u8) -> bool {
        byte < 3
    }
}

impl ZeroHead for PatchLocation {
    ghost zero = { comdats.location_zero };
}

/// The location of this number.
pub(crate) fn patch_location_of(number: u64) -> PatchLocation
    ensures { result ≡ comdats.patch_location_of number }
{
    match number {
        0 => PatchLocation::Byte,
        1 => PatchLocation::Word,
        _ => PatchLocation::DoubleWord,
    }
}
