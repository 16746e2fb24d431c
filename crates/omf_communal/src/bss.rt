//! Whether the near variables stand in the segment `_BSS`.

ghost use Rattle.std.specs.Prelude.{◌≡◌, ◌<◌, length, slice_get};
ghost use Rattle.std.specs.List.{AllByRecursion, filter_map, list_any};
ghost use Rattle.omf_communal.specs.Bss as bss;
ghost use Rattle.omf_module.specs.Seen.{group_seen, segment_seen};

use omf_module::{Group, Kind, Module, Segment, Standing};
use std::alloc::Allocator;

/// Whether a segment combines as a public one.
fn is_public(standing: Standing) -> bool
    ensures { result ≡ bss.is_public standing }
{
    match standing {
        Standing::Absolute { .. } => false,
        Standing::Relocatable { kind, .. } => matches!(kind, Kind::Public),
    }
}

/// Whether a segment is public, of the name `_BSS` and the class BSS.
fn is_bss(segment: &Segment<'_>) -> bool
    ensures { result ≡ bss.is_bss (segment_seen segment.now) }
{
    is_public(segment.standing)
        && segment.name == b"_BSS".as_slice()
        && segment.class == b"BSS".as_slice()
}

/// Whether one of these segments of a module is that.
fn has_member<A: Allocator + Copy>(from: &Module<A>, members: &[u16]) -> bool
    requires { AllByRecursion (λ k. k < length from.now.segments) members.now }
    ensures { result ≡ list_any bss.is_bss (filter_map (slice_get from.now.segments) members.now) }
{
    for member in members {
        let segment = from.segment(usize::from(*member));
        if is_bss(&segment) {
            return true;
        }
    }
    false
}

/// Whether a group is DGROUP and has that segment.
fn is_in_group<A: Allocator + Copy>(from: &Module<A>, group: Group<'_>) -> bool
    requires { AllByRecursion (λ k. k < length from.now.segments) group.members.now }
    ensures { result ≡ bss.is_in_group from.now.segments (group_seen group.entry) }
{
    group.name == b"DGROUP".as_slice() && has_member(from, group.members)
}

/// Whether a module has the public segment `_BSS` of class BSS in the group DGROUP.
pub fn has_bss<A: Allocator + Copy>(from: &Module<A>) -> bool
    ensures { result ≡ bss.has_bss from.now }
{
    from.promises();
    for index in 0..from.group_count() {
        let group = from.group(index);
        if is_in_group(from, group) {
            return true;
        }
    }
    false
}
