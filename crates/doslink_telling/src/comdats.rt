//! The line of COMDATs that clash.

ghost use Rattle.std.specs.Prelude.{◌≡◌, [], ◌∷◌, ◌++◌, OnOk};
ghost use Rattle.doslink_telling.specs.Lines.{named};

use crate::lines::push_named;
use std::alloc::{AllocError, Allocator};

/// Appends the line of a name of which two modules have COMDATs that differ, with the words for
/// the modules: that of the first one, and of the other.
pub fn push_comdat_clash<A: Allocator + Copy>(
    lines: &mut Vec<u8, A>,
    label: (u8, &str),
    name: &[u8],
    first: &[u8],
    other: &[u8],
) -> Result<(), AllocError>
    ensures { OnOk result (lines.new.items ≡ lines.old.items
        ++ named (label.entry.0, label.entry.1.now) name.now (first.now ∷ other.now ∷ [])) }
{
    let both = [first, other];
    push_named(lines, label, name, both.as_slice())
}
