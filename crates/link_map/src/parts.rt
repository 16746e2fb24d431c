//! The parts of a program's segments, and the detailed map of them.
ghost use Rattle.std.specs.Prelude.{◌≡◌, ◌<◌, ◌≤◌, ◌++◌, IfOk, OnOk, Some, length, map, slice_get, slice_set};
ghost use Rattle.std.specs.List.{enumerate_from, flat_map};
ghost use Rattle.std.specs.Option.{unwrap_or};
ghost use Rattle.omf_frame.specs.Lending.{plain_frame};
ghost use Rattle.omf_module.specs.Module.{Segment};
ghost use Rattle.omf_place.specs.Bounded.{IsBounded};
ghost use Rattle.omf_place.specs.Layout.{places_of, segment_position};
ghost use Rattle.link_map.specs.Detailed as spec;
ghost use Rattle.link_map.specs.Numbers.{bytes_of};
ghost use Rattle.link_map.specs.Publics as publics;
ghost use Rattle.link_map.specs.inside.Details.{HasGroups, all_parts, filled, index_of, part_seen};
ghost use Rattle.link_map.specs.inside.Numbers.{HasPlaces};

use crate::numbers::slice_at;
use crate::part::{ListedPart, push_parts, sort_by_address};
use crate::publics::listed_at;
use omf_frame::Frame;
use omf_library::module_frames;
use omf_lines::module_name;
use omf_module::{Kind, Module, Standing};
use omf_place::{Layout, Position};
use std::alloc::{AllocError, Allocator};

/// The types of a record that defines a segment: with a length of two bytes, and of four.
const SEGDEF: u8 = 0x98;

const SEGDEF_32: u8 = 0x99;

/// What stands in front of the parts.
const HEADING: &[u8] = b"\n Detailed map of segments\n\n";

/// What stands in place of a group's name where a segment is in none.
const NO_GROUP: &[u8] = b"(none)";

/// Appends the attribute byte of a SEGDEF, and nothing of another record.
#[tactic(auto, unfolding(crate::specs::Detailed::attribute_byte))]
fn push_attributes<A: Allocator + Copy>(
    attributes: &mut Vec<u8, A>,
    frame: &Frame<'_>,
) -> Result<(), AllocError>
    ensures { OnOk result
        (attributes.new.items ≡ attributes.old.items ++ spec.attribute_byte (plain_frame frame.now)) }
{
    if frame.kind != SEGDEF && frame.kind != SEGDEF_32 {
        return Ok(());
    }
    if let Some(byte) = frame.body.first() {
        attributes.push(*byte)?;
    }
    Ok(())
}

/// The attribute bytes of the SEGDEFs among records, in their order.
fn attribute_bytes<A: Allocator + Copy>(
    alloc: A,
    frames: &[Frame<'_>],
) -> Result<Vec<u8, A>, AllocError>
    ensures { IfOk result (λ v. v.items ≡ flat_map spec.attribute_byte (map plain_frame frames.now)) }
{
    let mut attributes = Vec::new(alloc);
    for frame in frames {
        push_attributes(&mut attributes, frame)?;
    }
    Ok(attributes)
}

/// The field A of a SEGDEF, by where the segment stands.
fn alignment_field(standing: Standing) -> u8
    ensures field { result ≡ spec.alignment_field standing }
    ensures small { result ≤ 5 }
{
    match standing {
        Standing::Absolute { .. } => 0,
        Standing::Relocatable { alignment: 1, .. } => 1,
        Standing::Relocatable { alignment: 2, .. } => 2,
        Standing::Relocatable { alignment: 16, .. } => 3,
        Standing::Relocatable { alignment: 256, .. } => 4,
        Standing::Relocatable { .. } => 5,
    }
}

/// The field C of a SEGDEF, by where the segment stands.
fn combination_field(standing: Standing) -> u8
    ensures field { result ≡ spec.combination_of standing }
    ensures small { result ≤ 6 }
{
    match standing {
        Standing::Absolute { .. } => 0,
        Standing::Relocatable { kind, .. } => match kind {
            Kind::Private => 0,
            Kind::Public => 2,
            Kind::Stack => 5,
            Kind::Common => 6,
        },
    }
}

/// The attribute byte of a segment that no SEGDEF defines.
fn attributes_of(standing: Standing, length: u32) -> u8
    ensures { result ≡ spec.attributes_of standing length }
{
    let big = if length == 65_536 { 2 } else { 0 };
    32 * alignment_field(standing) + 4 * combination_field(standing) + big
}

/// Sets the entry of a segment, where there is one.
fn set_group(table: &mut [Option<usize>], segment: usize, group: usize)
    ensures { table.new ≡ slice_set table.old segment (Some group) }
{
    if segment < table.len() {
        table[segment] = Some(group);
    }
}

/// Sets the entries of these segments.
fn set_groups(table: &mut [Option<usize>], segments: &[u16], group: usize)
    ensures { table.new ≡ filled (Some group) segments.now table.old }
{
    for segment in segments {
        set_group(table, usize::from(*segment), group);
    }
}

/// Of each segment of a module the index of the first GRPDEF that has it.
fn groups_of<A: Allocator + Copy, B: Allocator + Copy>(
    alloc: A,
    from: &Module<B>,
) -> Result<Vec<Option<usize>, A>, AllocError>
    ensures { IfOk result (λ table. HasGroups from.now table.items) }
{
    let mut table = vec![in alloc; None; from.segment_count()]?;
    for index in (0..from.group_count()).rev() {
        set_groups(&mut table, from.group(index).members, index);
    }
    Ok(table)
}

/// An input of a link, whose parts of segments are listed.
#[derive(Drop)]
struct DetailedInput<'a, A: Allocator + Copy, B: Allocator + Copy> {
    layout: &'a Layout<B>,
    /// Its module, and the index of that among the inputs.
    from: &'a Module<B>,
    input: usize,
    /// The module's name.
    name: &'a [u8],
    /// The attribute bytes of its SEGDEFs, in order.
    attributes: Vec<u8, A>,
    /// Of each of its segments the index of the first GRPDEF that has it.
    groups: Vec<Option<usize>, A>,
}

impl<'a, A: Allocator + Copy, B: Allocator + Copy> DetailedInput<'a, A, B> {
    /// Where a segment stands, counted from the frame of its group, where it is in one, and else from its own.
    fn position(&self, segment: usize, group: Option<usize>) -> Position
        requires placed { HasPlaces self.now.layout.now self.now.input self.now.from.now }
        requires within { segment < length self.now.from.now.segments }
        requires grouped { group ≡ index_of (spec.group_of self.now.from.now.groups segment) }
        ensures { result ≡ spec.position_in (places_of self.now.layout.now self.now.input)
            (spec.group_of self.now.from.now.groups segment)
            (segment_position self.now.layout.now self.now.input segment) }
    {
        let position = self.layout.segment_position(self.input, segment);
        match (group, position) {
            (Some(group), Position::Relocatable(address, _)) => {
                Position::Relocatable(address, self.layout.group_frame(self.input, group))
            }
            _ => position,
        }
    }

    /// The name of the group of a segment, or what stands for none.
    fn group_name(&self, segment: usize, group: Option<usize>) -> &'a [u8]
        requires { group ≡ index_of (spec.group_of self.now.from.now.groups segment) }
        ensures { result.now ≡ spec.group_name (spec.group_of self.now.from.now.groups segment) }
    {
        match group {
            Some(group) => self.from.group(group).name,
            None => NO_GROUP,
        }
    }

    /// The attributes of a segment that stands there: those of its SEGDEF, if it has one.
    fn attributes_at(&self, segment: usize, standing: Standing, length: u32) -> u8
        ensures { result ≡ unwrap_or (slice_get self.now.attributes.items segment)
            (spec.attributes_of standing length) }
    {
        match self.attributes.get(segment) {
            Some(byte) => *byte,
            None => attributes_of(standing, length),
        }
    }

    /// The part of a segment, by its index in the module.
    fn part(&self, index: usize) -> ListedPart<'a>
        requires placed { HasPlaces self.now.layout.now self.now.input self.now.from.now }
        requires grouped { HasGroups self.now.from.now self.now.groups.items }
        requires within { index < length self.now.from.now.segments }
        ensures { (segment : Segment) → slice_get self.now.from.now.segments index ≡ Some segment
            → part_seen result ≡ spec.part_of self.now.layout.now self.now.name.now self.now.attributes.items
            (self.now.input, self.now.from.now) (index, segment) }
    {
        let segment = self.from.segment(index);
        let group = self.groups[index];
        let position = self.position(index, group);
        ListedPart {
            address: address_of(position),
            place: listed_at(segment.name, position),
            length: segment.length,
            class: segment.class,
            group: self.group_name(index, group),
            module_name: self.name,
            attributes: self.attributes_at(index, segment.standing, segment.length),
        }
    }
}

/// The address of where something stands.
fn address_of(position: Position) -> u32
    ensures { result ≡ publics.address_of position }
{
    match position {
        Position::Relocatable(address, _) | Position::Absolute(address, _) => address,
    }
}

/// Appends the parts of an input.
fn push_input<'a, A: Allocator + Copy, B: Allocator + Copy>(
    parts: &mut Vec<ListedPart<'a>, A>,
    input: &DetailedInput<'a, A, B>,
) -> Result<(), AllocError>
    requires placed { HasPlaces input.now.layout.now input.now.input input.now.from.now }
    requires grouped { HasGroups input.now.from.now input.now.groups.items }
    ensures { OnOk result (all_parts parts.new.items ≡ all_parts parts.old.items
        ++ map (spec.part_of input.now.layout.now input.now.name.now input.now.attributes.items
        (input.now.input, input.now.from.now)) (enumerate_from 0 input.now.from.now.segments)) }
{
    for index in 0..input.from.segment_count() {
        parts.push(input.part(index))?;
    }
    Ok(())
}

/// The parts of a program's segments, in order of inputs and records.
fn program_parts<'a, A: Allocator + Copy, B: Allocator + Copy>(
    alloc: A,
    modules: &'a [Module<B>],
    layout: &'a Layout<B>,
    inputs: &[&'a [u8]],
) -> Result<Vec<ListedPart<'a>, A>, AllocError>
    requires { IsBounded modules.now layout.now }
    ensures { IfOk result (λ parts. all_parts parts.items
        ≡ spec.parts modules.now layout.now (bytes_of inputs.now)) }
{
    let mut parts = Vec::new(alloc);
    for (input, from) in modules.iter().enumerate() {
        let frames = module_frames(alloc, slice_at(inputs, input))?;
        let detailed = DetailedInput {
            layout,
            from,
            input,
            name: module_name(&frames),
            attributes: attribute_bytes(alloc, &frames)?,
            groups: groups_of(alloc, from)?,
        };
        push_input(&mut parts, &detailed)?;
    }
    Ok(parts)
}

/// The detailed map of segments, by the bytes that the modules are.
pub(crate) fn program_details<A: Allocator + Copy, B: Allocator + Copy>(
    alloc: A,
    modules: &[Module<B>],
    layout: &Layout<B>,
    inputs: &[&[u8]],
) -> Result<Vec<u8, A>, AllocError>
    requires { IsBounded modules.now layout.now }
    ensures { IfOk result (λ text. text.items
        ≡ spec.detail_lines modules.now layout.now (bytes_of inputs.now)) }
{
    let mut parts = program_parts(alloc, modules, layout, inputs)?;
    sort_by_address(&mut parts)?;
    let mut text = Vec::new(alloc);
    text.extend_from_slice(HEADING)?;
    push_parts(&mut text, &parts)?;
    Ok(text)
}
