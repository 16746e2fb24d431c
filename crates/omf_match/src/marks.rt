//! The stored places of a data record that its fix-ups change.
ghost use Rattle.std.specs.Prelude.{◌≡◌, ◌≤◌, ◌||◌, ◌&&◌, ℕ, IfOk, OnOk, false, length, nat_le, nat_lt, slice_index_or};
ghost use Rattle.omf_match.specs.Pattern as spec;

use omf_module::ResolvedFixup;
use std::alloc::{AllocError, Allocator};

/// Marks the places from a start to an end.
fn mark(marks: &mut [bool], start: usize, end: usize)
    requires order { start ≤ end }
    requires room { end ≤ length marks.old }
    ensures { (k : ℕ) → slice_index_or marks.new k false
        ≡ (slice_index_or marks.old k false || (nat_le start k && nat_lt k end)) }
{
    for place in start..end {
        marks[place] = true;
    }
}

/// Marks the places of a fix-up's location.
fn mark_fixup<A: Allocator + Copy>(
    marks: &mut Vec<bool, A>,
    fixup: &ResolvedFixup,
) -> Result<(), AllocError>
    ensures { OnOk result ((k : ℕ) → slice_index_or marks.new.items k false
        ≡ (slice_index_or marks.old.items k false || spec.changes fixup.now k)) }
{
    let start = usize::from(fixup.offset);
    let end = start + usize::from(fixup.location.width());
    if marks.len() < end {
        marks.resize(end, false)?;
    }
    mark(marks, start, end);
    Ok(())
}

/// Marks each place that one of these fix-ups changes; no place behind the marks is one.
pub fn marks_of<A: Allocator + Copy>(
    alloc: A,
    fixups: &[ResolvedFixup],
) -> Result<Vec<bool, A>, AllocError>
    ensures { IfOk result (λ marks. (k : ℕ) → slice_index_or marks.items k false ≡ spec.is_changed fixups.now k) }
{
    let mut marks = Vec::new(alloc);
    for fixup in fixups {
        mark_fixup(&mut marks, fixup)?;
    }
    Ok(marks)
}
