//! What publics stand for.

ghost use Rattle.std.specs.Prelude.{◌≡◌, ◌*◌, ◌++◌, ◌/◌, ◌≤◌, Some, IfOk, OnOk, length, map};
ghost use Rattle.omf_record.specs.declared.externals.PublicBase.TheVariants.{InSegment};
ghost use Rattle.omf_module.specs.Sound.{IsIndexOf, PublicFits};
ghost use Rattle.omf_module.specs.Seen.{public_seen};
ghost use Rattle.omf_place.specs.Parts.{Site, sites};
ghost use Rattle.omf_place.specs.Tables.{placed_public, placed_publics, public_frame, publics_of, segment_start};
ghost use Rattle.omf_place.specs.inside.HeldNames.{entry_view};
ghost use Rattle.omf_place.specs.inside.OfProgram.{IsPlacedProgram, of_program};
ghost use Rattle.omf_place.specs.inside.Program.{IsPlacedInput, input_view};

use crate::groups::Groups;
use crate::inputs::Input;
use crate::layout::Position;
use crate::scopes::Entry;
use crate::stands::Stand;
use omf_module::{PublicSymbol, Standing};
use omf_record::PublicBase;
use std::alloc::{AllocError, Allocator};

/// The frame of a public: that of its group, whose index isn't 0, where it has a group, and else that of its segment.
fn frame_of_public<A: Allocator + Copy>(
    input: &Input<'_, A>,
    stand: Stand,
    group: u16,
    groups: &Groups<'_, A>,
) -> Option<u16>
    requires { group ≤ length input.now.says.now.groups }
    ensures { (a : Site) → stand.frame ≡ of_program (λ ms. segment_start (sites ms)) groups.now.program.now a / 16 →
        result ≡ of_program public_frame groups.now.program.now input.now.says.now a group }
{
    if group == 0 {
        return Some(stand.frame);
    }
    groups.frame(input.says.group(usize::from(group) - 1).name)
}

/// Where a public of a segment stands; segment and group count from 1, and 0 is no group.
fn public_in_segment<A: Allocator + Copy>(
    input: &Input<'_, A>,
    segment: u16,
    group: u16,
    offset: u16,
    groups: &Groups<'_, A>,
) -> Position
    requires placed { of_program (λ ms. IsPlacedInput (sites ms)) groups.now.program.now input.now }
    requires segment { IsIndexOf input.now.says.now.segments segment }
    requires group { group ≤ length input.now.says.now.groups }
    ensures { Some result ≡ of_program placed_public groups.now.program.now (input_view input.now) offset
        (InSegment group segment) }
{
    let segment = usize::from(segment) - 1;
    let stand = input.stands[segment];
    match input.sites[segment].segment.standing {
        Standing::Absolute { frame, offset: at } => Position::Absolute(
            16 * u32::from(frame) + u32::from(at) + u32::from(offset),
            frame,
        ),
        Standing::Relocatable { .. } => Position::Relocatable(
            stand.address + u32::from(offset),
            frame_of_public(input, stand, group, groups),
        ),
    }
}

/// Where a public stands.
fn place_of_public<A: Allocator + Copy>(
    input: &Input<'_, A>,
    public: PublicSymbol<'_>,
    groups: &Groups<'_, A>,
) -> Position
    requires placed { of_program (λ ms. IsPlacedInput (sites ms)) groups.now.program.now input.now }
    requires public { PublicFits input.now.says.now.segments input.now.says.now.groups input.now.says.now.externals
        (public_seen public) }
    ensures { Some result ≡ of_program placed_public groups.now.program.now
        (input_view input.now) public.entry.offset public.entry.base }
{
    match public.base {
        PublicBase::AtFrame { frame, .. } => {
            Position::Absolute(16 * u32::from(frame) + u32::from(public.offset), frame)
        }
        PublicBase::InSegment { group, segment } => {
            public_in_segment(input, segment, group, public.offset, groups)
        }
    }
}

/// Adds the publics of a module.
fn push_publics<'a, A: Allocator + Copy>(
    all: &mut Vec<Entry<'a, Position>, A>,
    input: &Input<'a, A>,
    groups: &Groups<'_, A>,
) -> Result<(), AllocError>
    requires { of_program (λ ms. IsPlacedInput (sites ms)) groups.now.program.now input.now }
    ensures { OnOk result (map entry_view all.new.items ≡
        map entry_view all.old.items ++ of_program publics_of groups.now.program.now (input_view input.now)) }
{
    for index in 0..input.says.public_symbol_count() {
        let public = input.says.public_symbol(index);
        all.push(Entry {
            owner: public.local.then_some(input.input),
            name: public.name,
            value: place_of_public(input, public, groups),
        })?;
    }
    Ok(())
}

/// The publics of a program, local ones too, in order.
pub(crate) fn collect_publics<'a, A: Allocator + Copy>(
    alloc: A,
    groups: &Groups<'a, A>,
) -> Result<Vec<Entry<'a, Position>, A>, AllocError>
    requires { IsPlacedProgram groups.now.program.now }
    ensures { IfOk result (λ v. map entry_view v.items ≡ of_program placed_publics groups.now.program.now) }
{
    let mut all = Vec::new(alloc);
    for input in &groups.program.inputs {
        push_publics(&mut all, input, groups)?;
    }
    Ok(all)
}
