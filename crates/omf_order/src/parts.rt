//! The parts that open the classes and combined segments of a program.

ghost use Rattle.std.specs.Prelude.{◌≡◌, ◌++◌, [], ◌∷◌, IfOk, OnOk, if◌then◌else◌, length, nat_lt};
ghost use Rattle.omf_order.specs.Parts as part;
ghost use Rattle.omf_order.specs.Segments as segments;
ghost use Rattle.omf_order.specs.inside.Held as held;
ghost use Rattle.omf_module.specs.Seen.{segment_seen};

use crate::openings::{Met, first_met, kind_of};
use omf_module::{Kind, Segment, Standing};
use std::alloc::{AllocError, Allocator};

/// A segment of the order module.
#[derive(Clone, Copy)]
pub(crate) struct Part<'a> {
    pub name: &'a [u8],
    pub class: &'a [u8],
    /// In bytes.
    pub alignment: u16,
    pub kind: Kind,
    /// Whether its combined segment is in DGROUP: a private one isn't.
    pub in_group: bool,
    /// Whether a segment of its class is in DGROUP.
    pub class_in_group: bool,
}

/// Whether a kind is the one that never combines.
pub(crate) fn is_private(kind: Kind) -> bool
    ensures { result ≡ part.is_private kind }
{
    matches!(kind, Kind::Private)
}

/// The alignment of the part that stands for a segment: a private one stands for its class alone.
fn part_alignment(segment: &Segment<'_>) -> u16
    ensures { result ≡ part.alignment_of segment.now.standing }
{
    match segment.standing {
        Standing::Absolute { .. } => 1,
        Standing::Relocatable { alignment, kind } => if is_private(kind) { 1 } else { alignment },
    }
}

/// Where what a segment opens is first met, by the places of its class and of its combined segment.
fn first_of(segment: &Segment<'_>, class: usize, combined: usize) -> usize
    ensures { result ≡ (if part.is_private (segments.kind_of segment.now.standing) then class else combined) }
{
    if is_private(kind_of(segment)) {
        class
    } else {
        combined
    }
}

/// The part that stands for a segment.
fn part_of<'a>(segment: &Segment<'a>, is_found: bool, class_in_group: bool) -> Part<'a>
    ensures { held.part_view result ≡ held.part_with (segment_seen segment.now) is_found class_in_group }
{
    let kind = kind_of(segment);
    Part {
        name: segment.name,
        class: segment.class,
        alignment: part_alignment(segment),
        kind,
        in_group: !is_private(kind) && is_found,
        class_in_group,
    }
}

/// Whether a place is one of some segments.
fn is_within(place: usize, segments: &[Segment<'_>]) -> bool
    ensures { result ≡ nat_lt place (length segments.now) }
{
    place < segments.len()
}

/// Adds the part that stands for a segment, if that is the first.
fn push_first<'a, A: Allocator + Copy>(
    parts: &mut Vec<Part<'a>, A>,
    segment: &Segment<'a>,
    is_first: bool,
    is_found: bool,
    class_in_group: bool,
) -> Result<(), AllocError>
    ensures { OnOk result (held.parts_view parts.new.items ≡ held.parts_view parts.old.items
        ++ (if is_first then held.part_with (segment_seen segment.now) is_found class_in_group ∷ [] else [])) }
{
    if is_first {
        parts.push(part_of(segment, is_found, class_in_group))?;
    }
    Ok(())
}

/// The parts that stand for the placed segments of a program, by where these are first met among themselves and among
/// those in DGROUP.
fn parts_by<'a, A: Allocator + Copy>(
    alloc: A,
    placed: &[Segment<'a>],
    grouped: &[Segment<'_>],
    own: &Met<A>,
    of_group: &Met<A>,
) -> Result<Vec<Part<'a>, A>, AllocError>
    requires own { held.AreMet placed.now placed.now own.now.classes.items own.now.combined.items }
    requires of_group { held.AreMet placed.now grouped.now
        of_group.now.classes.items of_group.now.combined.items }
    ensures { IfOk result (λ v. held.parts_view v.items ≡
        part.first_parts (held.segments_view placed.now) (held.segments_view grouped.now)) }
{
    let mut parts = Vec::new(alloc);
    for (place, segment) in placed.iter().enumerate() {
        let first = first_of(segment, own.classes[place], own.combined[place]);
        let is_found = is_within(of_group.combined[place], grouped);
        let class_in_group = is_within(of_group.classes[place], grouped);
        push_first(
            &mut parts,
            segment,
            first == place,
            is_found,
            class_in_group,
        )?;
    }
    Ok(parts)
}

/// The parts that stand for the placed segments of a program, where these others are in DGROUP: one for the first of
/// each combined segment, and one for each private segment that is the first of its class.
pub(crate) fn first_parts<'a, A: Allocator + Copy>(
    alloc: A,
    placed: &[Segment<'a>],
    grouped: &[Segment<'a>],
) -> Result<Vec<Part<'a>, A>, AllocError>
    ensures { IfOk result (λ v. held.parts_view v.items ≡
        part.first_parts (held.segments_view placed.now) (held.segments_view grouped.now)) }
{
    let own = first_met(alloc, placed, placed)?;
    let of_group = first_met(alloc, placed, grouped)?;
    parts_by(alloc, placed, grouped, &own, &of_group)
}
