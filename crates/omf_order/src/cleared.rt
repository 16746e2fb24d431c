//! Data with values where start-up code clears.

ghost use Rattle.std.specs.Prelude.{◌≡◌, ◌&&◌, IfOk, List, length, map, slice_get, take};
ghost use Rattle.std.specs.List.{enumerate_from, flat_map, list_any};
ghost use Rattle.std.specs.Option.{option_map};
ghost use Rattle.omf_module.specs.Seen.{data_seen, segment_seen};
ghost use Rattle.omf_order.specs.Cleared as cleared;
ghost use Rattle.omf_order.specs.inside.Held as held;
ghost use Rattle.omf_order.specs.inside.Held.{lost_view, parts_view, plan_view};

use crate::firsts::KeyPlaces;
use crate::openings::{Combining, combining_of, joining_of, kind_of};
use crate::parts::{Part, is_private};
use crate::planning::Plan;
use omf_module::{DataRecord, Module, Segment};
use std::alloc::{AllocError, Allocator};

/// Data that start-up code would clear.
#[derive(Clone, Copy)]
pub(crate) struct Lost<'a> {
    /// The module's place among the modules, from 0 on.
    pub module: usize,
    /// The name of the segment.
    pub segment: &'a [u8],
}

/// What a part combines by.
fn part_key<'a>(part: &Part<'a>) -> Combining<'a>
    ensures { result ≡ held.part_key part.now }
{
    Combining {
        kind: joining_of(part.kind),
        name: part.name,
        class: part.class,
    }
}

/// What each part combines by.
fn part_keys<'a, A: Allocator + Copy>(
    alloc: A,
    parts: &[Part<'a>],
) -> Result<Vec<Combining<'a>, A>, AllocError>
    ensures { IfOk result (λ v. v.items ≡ map held.part_key parts.now) }
{
    let mut keys = Vec::new(alloc);
    for part in parts {
        keys.push(part_key(part))?;
    }
    Ok(keys)
}

/// Whether a segment combines with one of the parts of these keys.
fn is_early<'a, A: Allocator + Copy>(
    segment: &Segment<'a>,
    early: &KeyPlaces<'_, Combining<'a>, A>,
) -> bool
    ensures { (parts : List held.CodePart) → early.now ≡ map held.part_key parts →
        result ≡ list_any (cleared.joins (segment_seen segment.now)) (parts_view parts) }
{
    !is_private(kind_of(segment)) && early.has(combining_of(segment))
}

/// Whether a segment is of class BSS and stands behind the parts of these keys, which come before its first one in
/// DGROUP.
fn is_cleared<'a, A: Allocator + Copy>(
    segment: &Segment<'a>,
    early: &KeyPlaces<'_, Combining<'a>, A>,
) -> bool
    ensures { (parts : List held.CodePart) → early.now ≡ map held.part_key parts →
        result ≡ cleared.is_cleared (parts_view parts) (segment_seen segment.now) }
{
    segment.class == b"BSS".as_slice() && !is_early(segment, early)
}

/// Whether a data record of a segment has bytes that would be cleared.
fn is_lost<'a, A: Allocator + Copy>(
    stored: &DataRecord<'_>,
    segment: &Segment<'a>,
    early: &KeyPlaces<'_, Combining<'a>, A>,
) -> bool
    requires { length stored.now.bytes.now ≡ length stored.now.places.now }
    ensures { (parts : List held.CodePart) → early.now ≡ map held.part_key parts →
        result ≡ (cleared.has_bytes (data_seen stored.now)
        && cleared.is_cleared (parts_view parts) (segment_seen segment.now)) }
{
    !stored.bytes.is_empty() && is_cleared(segment, early)
}

/// The first data of a module that would be cleared.
fn lost_in<'a, A: Allocator + Copy>(
    place: usize,
    from: &'a Module<A>,
    early: &KeyPlaces<'_, Combining<'a>, A>,
) -> Option<Lost<'a>>
    ensures { (parts : List held.CodePart) → early.now ≡ map held.part_key parts →
        option_map lost_view result ≡ slice_get (cleared.lost_in (parts_view parts) (place, from.now)) 0 }
{
    from.promises();
    for index in 0..from.data_record_count() {
        let stored = from.data_record(index);
        let segment = from.segment(usize::from(stored.segment));
        if is_lost(&stored, &segment, early) {
            return Some(Lost {
                module: place,
                segment: segment.name,
            });
        }
    }
    None
}

/// The first data of modules that would be cleared.
fn first_lost<'a, A: Allocator + Copy>(
    modules: &'a [Module<A>],
    early: &KeyPlaces<'_, Combining<'a>, A>,
) -> Option<Lost<'a>>
    ensures { (parts : List held.CodePart) → early.now ≡ map held.part_key parts →
        option_map lost_view result ≡
        slice_get (flat_map (cleared.lost_in (parts_view parts)) (enumerate_from 0 modules.now)) 0 }
{
    for (place, from) in modules.iter().enumerate() {
        let lost = lost_in(place, from, early);
        if lost.is_some() {
            return lost;
        }
    }
    None
}

/// The first data of modules that would be cleared, where these parts come before the first of class BSS in DGROUP.
fn lost_behind<'a, A: Allocator + Copy>(
    alloc: A,
    modules: &'a [Module<A>],
    parts: &[Part<'a>],
) -> Result<Option<Lost<'a>>, AllocError>
    ensures { IfOk result (λ lost. option_map lost_view lost ≡
        slice_get (flat_map (cleared.lost_in (parts_view parts.now)) (enumerate_from 0 modules.now)) 0) }
{
    let keys = part_keys(alloc, parts)?;
    let early = KeyPlaces::new(alloc, &keys)?;
    Ok(first_lost(modules, &early))
}

/// The parts before the one at a place.
fn parts_before<'p, 'a>(parts: &'p [Part<'a>], place: usize) -> &'p [Part<'a>]
    ensures { result.now ≡ take place parts.now }
{
    &parts[..place.min(parts.len())]
}

/// The part where start-up code begins to clear, if it wants both marks.
fn clears_from<A: Allocator + Copy>(plan: &Plan<'_, A>) -> Option<usize>
    ensures { result ≡ cleared.clears_from (plan_view plan.now) }
{
    if plan.data_end.names.is_empty() || plan.bss_end.names.is_empty() {
        None
    } else {
        plan.data_end.part
    }
}

/// The first data of modules that start-up code would clear, where they stand as planned.
pub(crate) fn data_in_bss<'a, A: Allocator + Copy>(
    alloc: A,
    modules: &'a [Module<A>],
    plan: &Plan<'a, A>,
) -> Result<Option<Lost<'a>>, AllocError>
    ensures { IfOk result (λ lost. option_map lost_view lost ≡ cleared.data_in_bss modules.now (plan_view plan.now)) }
{
    match clears_from(plan) {
        None => Ok(None),
        Some(start) => lost_behind(alloc, modules, parts_before(&plan.parts, start)),
    }
}
