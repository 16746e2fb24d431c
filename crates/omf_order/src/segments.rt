//! The segments of a program that are placed, and those in the group DGROUP.

ghost use Rattle.std.specs.Prelude.{◌≡◌, ◌++◌, ◌<◌, IfOk, OnOk, length, slice_get};
ghost use Rattle.std.specs.List.{AllByRecursion, filter_map};
ghost use Rattle.std.specs.Str.{bytes_eq};
ghost use Rattle.omf_module.specs.Seen.{group_seen};
ghost use Rattle.omf_place.specs.inside.Placing.{is_relocatable};
ghost use Rattle.omf_order.specs.Segments.{dgroup, placed, placed_in, grouped, grouped_in, members};
ghost use Rattle.omf_order.specs.inside.Held.{segments_view};

use omf_module::{Group, Module, Segment, Standing};
use std::alloc::{AllocError, Allocator};

/// Whether a segment is placed: it isn't absolute.
fn is_placed(segment: &Segment<'_>) -> bool
    ensures { result ≡ is_relocatable segment.now.standing }
{
    matches!(segment.standing, Standing::Relocatable { .. })
}

/// Adds the segments of a module that aren't absolute.
fn push_placed<'a, A: Allocator + Copy>(
    placed: &mut Vec<Segment<'a>, A>,
    from: &'a Module<A>,
) -> Result<(), AllocError>
    ensures { OnOk result
        (segments_view placed.new.items ≡ segments_view placed.old.items ++ placed_in from.now) }
{
    for index in 0..from.segment_count() {
        let segment = from.segment(index);
        if is_placed(&segment) {
            placed.push(segment)?;
        }
    }
    Ok(())
}

/// The segments that aren't absolute, in order of modules and of definition.
pub(crate) fn placed_segments<'a, A: Allocator + Copy>(
    alloc: A,
    modules: &'a [Module<A>],
) -> Result<Vec<Segment<'a>, A>, AllocError>
    ensures { IfOk result (λ v. segments_view v.items ≡ placed modules.now) }
{
    let mut placed = Vec::new(alloc);
    for each in modules {
        push_placed(&mut placed, each)?;
    }
    Ok(placed)
}

/// Adds these segments of a module.
fn push_members<'a, A: Allocator + Copy>(
    grouped: &mut Vec<Segment<'a>, A>,
    from: &'a Module<A>,
    members: &[u16],
) -> Result<(), AllocError>
    requires { AllByRecursion (λ k. k < length from.now.segments) members.now }
    ensures { OnOk result (segments_view grouped.new.items ≡
        segments_view grouped.old.items ++ filter_map (slice_get from.now.segments) members.now) }
{
    for member in members {
        let segment = from.segment(usize::from(*member));
        grouped.push(segment)?;
    }
    Ok(())
}

/// Whether a group is DGROUP.
fn is_dgroup(group: Group<'_>) -> bool
    ensures { result ≡ bytes_eq group.entry.name.now dgroup }
{
    group.name == b"DGROUP".as_slice()
}

/// Adds the segments of a group, if it is DGROUP.
fn push_group<'a, A: Allocator + Copy>(
    grouped: &mut Vec<Segment<'a>, A>,
    from: &'a Module<A>,
    group: Group<'_>,
) -> Result<(), AllocError>
    requires { AllByRecursion (λ k. k < length from.now.segments) group.members.now }
    ensures { OnOk result (segments_view grouped.new.items ≡
        segments_view grouped.old.items ++ members from.now.segments (group_seen group.entry)) }
{
    if is_dgroup(group) {
        push_members(grouped, from, group.members)?;
    }
    Ok(())
}

/// Adds the segments of a module's groups of the name DGROUP.
fn push_grouped<'a, A: Allocator + Copy>(
    grouped: &mut Vec<Segment<'a>, A>,
    from: &'a Module<A>,
) -> Result<(), AllocError>
    ensures { OnOk result
        (segments_view grouped.new.items ≡ segments_view grouped.old.items ++ grouped_in from.now) }
{
    from.promises();
    for index in 0..from.group_count() {
        let group = from.group(index);
        push_group(grouped, from, group)?;
    }
    Ok(())
}

/// The segments that are members of groups of the name DGROUP, in order of modules and of definition.
pub(crate) fn grouped_segments<'a, A: Allocator + Copy>(
    alloc: A,
    modules: &'a [Module<A>],
) -> Result<Vec<Segment<'a>, A>, AllocError>
    ensures { IfOk result (λ v. segments_view v.items ≡ grouped modules.now) }
{
    let mut grouped = Vec::new(alloc);
    for each in modules {
        push_grouped(&mut grouped, each)?;
    }
    Ok(grouped)
}
