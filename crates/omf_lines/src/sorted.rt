//! Lines by their segments.

ghost use Rattle.std.specs.Prelude.{◌≡◌, filter, OnOk};
ghost use Rattle.omf_lines.specs.Lines.{is_of};
ghost use Rattle.omf_lines.specs.Sorted.{AreBySegment, Rise};

use crate::line::Line;
use std::alloc::{AllocError, Allocator};

/// Brings lines into the order of their segments. Those of one segment stay as they came.
pub(crate) fn sort_by_segment<A: Allocator + Copy>(
    lines: &mut Vec<Line, A>,
) -> Result<(), AllocError>
    ensures { OnOk result (AreBySegment lines.old.items lines.new.items) }
{
    lines.sort_by_key(|line| line.segment)?;
    Ok(())
}

/// Those lines that are of a segment, by its index, of lines that stand in the order of their segments.
pub fn lines_of_segment(lines: &[Line], segment: usize) -> &[Line]
    requires { Rise lines.now }
    ensures { result.now ≡ filter (is_of segment) lines.now }
{
    let start = lines.partition_point(|line| usize::from(line.segment) < segment);
    let end = lines.partition_point(|line| usize::from(line.segment) <= segment);
    &lines[start..end]
}
