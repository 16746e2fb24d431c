//! Where the segments of each module stand, and the frames of its groups.

ghost use Rattle.std.specs.Prelude.{◌≡◌, IfOk, length, map};
ghost use Rattle.omf_place.specs.Rows.{row_view};
ghost use Rattle.omf_place.specs.Parts.{inputs};
ghost use Rattle.omf_place.specs.Layout.{module_places};
ghost use Rattle.omf_place.specs.inside.OfProgram.{IsPlacedProgram, of_program};
ghost use Rattle.omf_place.specs.inside.Rows.{placed_row};
ghost use Rattle.omf_place.specs.inside.Sites.{sites_view};

use crate::groups::{Groups, frames_of};
use crate::inputs::Input;
use crate::layout::Position;
use crate::stands::placed_segment;
use std::alloc::{AllocError, Allocator};

/// The places of a module's segments, and the frame of each GRPDEF's group.
#[derive(Drop)]
pub(crate) struct ModuleRow<A: Allocator + Copy> {
    pub segments: Vec<Position, A>,
    pub group_frames: Vec<Option<u16>, A>,
}

/// Where the segments of a module stand.
fn segments_of<A: Allocator + Copy>(
    alloc: A,
    input: &Input<'_, A>,
) -> Result<Vec<Position, A>, AllocError>
    requires { length input.now.stands.now ≡ length input.now.sites.now }
    ensures { IfOk result (λ v. v.items ≡ placed_row (sites_view input.now.sites.now) input.now.stands.now) }
{
    let mut row = Vec::new(alloc);
    for (index, segment) in input.sites.iter().enumerate() {
        row.push(placed_segment(segment.segment.standing, input.stands[index]))?;
    }
    Ok(row)
}

/// The rows of a program, by input.
pub(crate) fn module_rows<A: Allocator + Copy>(
    alloc: A,
    groups: &Groups<'_, A>,
) -> Result<Vec<ModuleRow<A>, A>, AllocError>
    requires { IsPlacedProgram groups.now.program.now }
    ensures { IfOk result (λ v. map row_view v.items ≡
        of_program (λ ms addresses. map (module_places ms addresses) (inputs ms)) groups.now.program.now) }
{
    let mut all = Vec::new(alloc);
    for input in &groups.program.inputs {
        let segments = segments_of(alloc, input)?;
        let group_frames = frames_of(alloc, input, groups)?;
        all.push(ModuleRow {
            segments,
            group_frames,
        })?;
    }
    Ok(all)
}
