//! Marks on the bytes of a data record that fix-ups touch.

ghost use Rattle.std.specs.Prelude.{◌≡◌, ◌<◌, ◌≤◌, ◌+◌, ◌++◌, ◌∷◌, [], ◌&&◌, ◌||◌, ℕ, List, nat_le, nat_lt, false};
ghost use Rattle.std.specs.Prelude.{length, slice_index_or};
ghost use Rattle.omf_image.specs.declared.patch.Patch.{Patch as PlainPatch};
ghost use Rattle.omf_image.specs.inside.Patches.{all_clear, patch_start, patch_end, is_relocated};
ghost use Rattle.omf_image.specs.inside.Marks.{IsMarked};

use crate::patch::Patch;

impl Patch {
    /// The place of its first byte in the data.
    pub fn start(&self) -> usize
        ensures { result ≡ patch_start self.now }
    {
        match *self {
            Patch::Byte(at, _) => at,
            Patch::Word(at, _) => at,
            Patch::Relocated(at, _) => at,
        }
    }

    /// How many bytes it has.
    pub fn width(&self) -> usize
        ensures width { patch_start self.now + result ≡ patch_end self.now }
        ensures some { 0 < result }
        ensures small { result ≤ 2 }
    {
        match *self {
            Patch::Byte(_, _) => 1,
            Patch::Word(_, _) => 2,
            Patch::Relocated(_, _) => 2,
        }
    }

    /// Whether it is a relocated word.
    pub fn is_relocated(&self) -> bool
        ensures { result ≡ is_relocated self.now }
    {
        matches!(self, Patch::Relocated(_, _))
    }
}

/// Marks the bytes from a start to an end.
fn mark(marks: &mut [bool], start: usize, end: usize)
    requires order { start ≤ end }
    requires room { end ≤ length marks.old }
    ensures { (k : ℕ) → slice_index_or marks.new k false
        ≡ (slice_index_or marks.old k false || (nat_le start k && nat_lt k end)) }
{
    for k in start..end {
        marks[k] = true;
    }
}

/// Whether a patch shares no byte with the relocated words of earlier ones, nor, where it is one, with any.
pub fn is_clear(touched: &[bool], relocated: &[bool], patch: Patch) -> bool
    requires touched { patch_end patch ≤ length touched.now }
    requires relocated { patch_end patch ≤ length relocated.now }
    ensures { (earlier : List PlainPatch) → IsMarked touched.now relocated.now earlier
        → result ≡ all_clear earlier (patch ∷ []) }
{
    let start = patch.start();
    let last = start + patch.width() - 1;
    if patch.is_relocated() {
        !(touched[start] | touched[last])
    } else {
        !(relocated[start] | relocated[last])
    }
}

/// Marks the bytes of a patch.
pub fn mark_patch(touched: &mut [bool], relocated: &mut [bool], patch: Patch)
    requires touched { patch_end patch ≤ length touched.old }
    requires relocated { patch_end patch ≤ length relocated.old }
    ensures { (earlier : List PlainPatch) → IsMarked touched.old relocated.old earlier
        → IsMarked touched.new relocated.new (earlier ++ patch ∷ []) }
{
    let start = patch.start();
    let end = start + patch.width();
    mark(touched, start, end);
    if patch.is_relocated() {
        mark(relocated, start, end);
    }
}
