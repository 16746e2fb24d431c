//! The pattern of a segment: what its data ask of a program.
ghost use Rattle.std.specs.Prelude.{◌≡◌, ◌+◌, ◌<◌, ◌≤◌, ℕ, IfOk, OnOk, Some, None, false, if◌then◌else◌, length};
ghost use Rattle.std.specs.Prelude.{slice_index_or};
ghost use Rattle.omf_module.specs.Seen.{data_seen};
ghost use Rattle.omf_match.specs.Pattern as spec;

use crate::marks::marks_of;
use omf_module::{DataRecord, Module};
use std::alloc::{AllocError, Allocator};

/// What a byte that was stored at a place asks for.
fn cell_of(marks: &[bool], place: u16, byte: u8) -> Option<u8>
    ensures { result ≡ (if slice_index_or marks.now place false then None else Some byte) }
{
    let place = usize::from(place);
    if place < marks.len() && marks[place] {
        None
    } else {
        Some(byte)
    }
}

/// Lays a data record, whose places with fix-ups are marked, over a pattern.
fn lay<A: Allocator + Copy>(cells: &mut Vec<Option<u8>, A>, record: &DataRecord<'_>, marks: &[bool])
    requires lengths { length record.now.bytes.now ≡ length record.now.places.now }
    requires inside { record.now.offset + length record.now.bytes.now ≤ length cells.old.items }
    requires marked { (k : ℕ) → slice_index_or marks.now k false ≡ spec.is_changed record.now.fixups.now k }
    ensures { cells.new.items ≡ spec.laid cells.old.items (data_seen record.now) }
{
    let start = usize::from(record.offset);
    for index in 0..record.bytes.len() {
        cells[start + index] = cell_of(marks, record.places[index], record.bytes[index]);
    }
}

/// Lays a data record over the pattern of a segment, where it is that segment's.
fn lay_of_segment<A: Allocator + Copy>(
    alloc: A,
    cells: &mut Vec<Option<u8>, A>,
    record: &DataRecord<'_>,
    segment: usize,
) -> Result<(), AllocError>
    requires lengths { length record.now.bytes.now ≡ length record.now.places.now }
    requires inside { record.now.segment ≡ segment
        → record.now.offset + length record.now.bytes.now ≤ length cells.old.items }
    ensures { OnOk result (cells.new.items ≡ spec.laid_in segment cells.old.items (data_seen record.now)) }
{
    if usize::from(record.segment) == segment {
        let marks = marks_of(alloc, record.fixups)?;
        lay(cells, record, &marks);
    }
    Ok(())
}

/// The pattern of a segment of a module, by its index from 0: of each of its bytes what it is in a program, or None
/// where no data stands or a fix-up changes it.
pub fn pattern_of<A: Allocator + Copy, B: Allocator + Copy>(
    alloc: A,
    from: &Module<B>,
    segment: usize,
) -> Result<Vec<Option<u8>, A>, AllocError>
    requires { segment < length from.now.segments }
    ensures { IfOk result (λ cells. cells.items ≡ spec.pattern_of from.now segment) }
{
    from.promises();
    let mut cells = vec![in alloc; None; from.segment(segment).length as usize]?;
    for index in 0..from.data_record_count() {
        lay_of_segment(alloc, &mut cells, &from.data_record(index), segment)?;
    }
    Ok(cells)
}
